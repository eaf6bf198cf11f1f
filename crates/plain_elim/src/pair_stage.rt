ghost use Rattle.std.specs.Prelude.{◌≡◌, ◌<◌, ◌-◌, ◌^◌, ◌++◌, IfOk, length};
ghost use Rattle.std.specs.Option.{option_map};
ghost use Rattle.lin_rows.specs.System.{System};
ghost use Rattle.farkas_cert.specs.BackSubstitution.{Bounded};
ghost use Rattle.farkas_cert.specs.Elimination as specs;
ghost use Rattle.farkas_cert.specs.Line as line_specs;
ghost use Rattle.plain_elim.specs.inside.Held.{work_of, next_of};
ghost use Rattle.plain_elim.specs.inside.Stages.{after_stages, made_with};

use crate::follows::follows;
use crate::kept::Kept;
use crate::line::Line;
use crate::pairing::with_all_pairs;
use crate::work::{Next, Work};
use farkas_cert::{LeaveKind, NamedRows};
use std::alloc::{AllocError, Global};
use thr_base::MOST_ELIMINATION_ROWS;

/// The lowest column of all lines.
#[tactic(auto, unfolding(farkas_cert::specs::Line::lowest_of))]
fn lowest_of(lines: &[Line], columns: u32) -> u32
    ensures { result ≡ line_specs.lowest_of columns lines.now }
{
    let mut lowest = columns;
    for line in lines {
        lowest = lowest.min(line.lowest_column(columns));
    }
    lowest
}

fn count_positives(lines: &[Line], column: u32) -> usize
    ensures { result ≡ length (specs.positives column lines.now) }
{
    lines
        .iter()
        .filter(|line| line.is_positive_at(column))
        .count()
}

fn count_negatives(lines: &[Line], column: u32) -> usize
    ensures { result ≡ length (specs.negatives column lines.now) }
{
    lines
        .iter()
        .filter(|line| line.is_negative_at(column))
        .count()
}

/// How many lines pairs made so far and in a stage, where they are not too many.
fn made_with(rows: &NamedRows<'_>, made: u64, positives: usize, negatives: usize) -> Option<u64>
    ensures { result ≡ made_with rows.now made positives negatives }
{
    let pairs = positives.checked_mul(negatives)?;
    let made = made.checked_add(pairs as u64)?;
    let all = made.checked_add(u64::from(rows.count()))?;
    if all <= u64::from(MOST_ELIMINATION_ROWS) {
        Some(made)
    } else {
        None
    }
}

/// The lines with a column, and those without it.
#[derive(Drop)]
struct Parts {
    with: Vec<Line>,
    without: Vec<Line>,
}

/// The lines are moved in order.
fn split(alloc: Global, column: u32, lines: Vec<Line>) -> Result<Parts, AllocError>
    ensures with { IfOk result (λ parts. parts.with.items ≡ specs.with_column column lines.items) }
    ensures without { IfOk result (λ parts. parts.without.items ≡ specs.without_column column lines.items) }
{
    let mut with = Vec::with_capacity(alloc, lines.len())?;
    let mut without = Vec::with_capacity(alloc, lines.len())?;
    for line in lines {
        if line.has_column(column) {
            with.push(line)?;
        } else {
            without.push(line)?;
        }
    }
    Ok(Parts { with, without })
}

/// The lines with the column are kept for it, and the pairs come after the others.
fn pairs_follow(
    alloc: Global,
    column: u32,
    parts: Parts,
    kept: Vec<Kept>,
    made: u64,
) -> Result<Next, AllocError>
    requires { length kept.items < 2 ^ 32 - 1 }
    ensures { IfOk result (λ next. (system : System) → next_of system next ≡ specs.follows (after_stages kept.items) (Bounded column parts.with.items) made (option_map (λ pairs. parts.without.items ++ pairs) (specs.pairs_at column parts.with.items))) }
{
    let with = parts.with;
    let lines = with_all_pairs(alloc, column, with.as_slice(), parts.without)?;
    follows(kept, Kept::Bounded(column, with), made, lines)
}

/// The stage of the lowest column of all lines, where none is an equality. Once the column is known, a line without it is looked
/// at once.
pub fn pair_stage(alloc: Global, rows: &NamedRows<'_>, work: Work) -> Result<Next, AllocError>
    requires { length work.kept.items < rows.now.columns }
    ensures { IfOk result (λ next. next_of rows.now next ≡ specs.pair_stage rows.now (work_of work)) }
{
    let column = lowest_of(work.lines.as_slice(), rows.columns());
    let parts = split(alloc, column, work.lines)?;
    let positives = count_positives(parts.with.as_slice(), column);
    let negatives = count_negatives(parts.with.as_slice(), column);
    let made = made_with(rows, work.made, positives, negatives);
    match made {
        Some(made) => pairs_follow(alloc, column, parts, work.kept, made),
        None => Ok(Next::Leaves(work.kept.len() as u32 + 1, LeaveKind::Rows)),
    }
}
