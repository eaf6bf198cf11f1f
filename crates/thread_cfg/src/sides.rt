//! The parts of a test, from its last comparison to its first: the sides of each are known when it is come to.

ghost use Rattle.std.specs.Prelude.{◌≡◌, ◌-◌, ◌∷◌, [], option_map, MatchOption, IfOk, OnOk};
ghost use Rattle.thread_cfg.specs.inside.Pass as specs;
ghost use Rattle.thread_cfg.specs.inside.Passing.{location_of, parts_held, sides_of, sides_held, target_of, testing_of};

use crate::part::Part;
use crate::sizes::comparison_size;
use c_check::TestOperation;
use std::alloc::{AllocError, Global};
use thr_base::Loc;

/// Where a side of a test leads.
#[derive(Clone, Copy)]
pub(crate) enum Target {
    Nowhere,
    At(Loc),
    /// To what stands behind the test.
    Behind,
}

/// Where the sides of a test lead.
#[derive(Clone, Copy)]
pub(crate) struct Sides {
    pub(crate) on_true: Target,
    pub(crate) on_false: Target,
}

impl Target {
    /// To the location, or nowhere.
    pub(crate) fn to(location: Option<Loc>) -> Target
        ensures { target_of result ≡ specs.target (option_map location_of location) }
    {
        match location {
            Some(location) => Target::At(location),
            None => Target::Nowhere,
        }
    }

    /// Where it leads, where what stands behind is at this location.
    fn location(self, at: Loc) -> Option<Loc>
        ensures { option_map location_of result ≡ specs.settled at.0 (target_of self) }
    {
        match self {
            Target::Nowhere => None,
            Target::At(location) => Some(location),
            Target::Behind => Some(at),
        }
    }
}

/// The location in front of so many.
pub(crate) fn in_front(at: Loc, count: usize) -> Loc
    ensures { result.0 ≡ at.0 - count }
{
    if count < at.0 as usize {
        Loc(at.0 - count as u32)
    } else {
        Loc(0)
    }
}

/// The operation ends a test with these sides.
fn enter<'a>(
    operation: &'a TestOperation,
    at: Loc,
    on_true: Option<Loc>,
    on_false: Option<Loc>,
    sides: &mut Vec<Sides>,
    parts: &mut Vec<Part<'a>>,
) -> Result<Loc, AllocError>
    ensures { IfOk result (λ next. testing_of next sides.new.items parts.new.items
        ≡ specs.tested_by operation.now (option_map location_of on_true) (option_map location_of on_false) (sides_held sides.old.items) (testing_of at sides.old.items parts.old.items)) }
{
    let on_true_to = Target::to(on_true);
    let on_false_to = Target::to(on_false);
    match operation {
        TestOperation::Compare(comparison) => {
            parts.push(Part::Compare(comparison, on_true, on_false))?;
            return Ok(in_front(at, comparison_size(comparison)));
        }
        TestOperation::Not => sides.push(Sides {
            on_true: on_false_to,
            on_false: on_true_to,
        })?,
        TestOperation::And => {
            sides.push(Sides {
                on_true: Target::Behind,
                on_false: on_false_to,
            })?;
            sides.push(Sides {
                on_true: on_true_to,
                on_false: on_false_to,
            })?;
        }
        TestOperation::Or => {
            sides.push(Sides {
                on_true: on_true_to,
                on_false: Target::Behind,
            })?;
            sides.push(Sides {
                on_true: on_true_to,
                on_false: on_false_to,
            })?;
        }
    }
    Ok(at)
}

/// To the front of an operation.
fn step<'a>(
    operation: &'a TestOperation,
    at: Loc,
    sides: &mut Vec<Sides>,
    parts: &mut Vec<Part<'a>>,
) -> Result<Loc, AllocError>
    ensures { IfOk result (λ next. testing_of next sides.new.items parts.new.items ≡ specs.tested operation.now (testing_of at sides.old.items parts.old.items)) }
{
    let last = sides.pop();
    match last {
        Some(last) => {
            let on_true = last.on_true.location(at);
            let on_false = last.on_false.location(at);
            enter(operation, at, on_true, on_false, sides, parts)
        }
        None => Ok(at),
    }
}

/// The parts of a test, the last one first, behind those of what stands behind it; and its location.
pub(crate) fn push_test<'a>(
    alloc: Global,
    tests: &'a [TestOperation],
    behind: Loc,
    on_true: Option<Loc>,
    on_false: Option<Loc>,
    parts: &mut Vec<Part<'a>>,
) -> Result<Loc, AllocError>
    ensures { IfOk result (λ at. let whole = specs.tested_all tests.now (record {
      at = behind.0;
      sides = record { on_true = specs.target (option_map location_of on_true); on_false = specs.target (option_map location_of on_false) } ∷ [];
      parts = parts_held parts.old.items;
    }) in (at.0 ≡ whole.at) × (parts_held parts.new.items ≡ whole.parts)) }
{
    let mut at = behind;
    let mut sides = Vec::new(alloc);
    sides.push(Sides {
        on_true: Target::to(on_true),
        on_false: Target::to(on_false),
    })?;
    'tests: for index in (0..tests.len()).rev() {
        at = step(&tests[index], at, &mut sides, parts)?;
    }
    Ok(at)
}
