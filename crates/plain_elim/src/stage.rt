ghost use Rattle.std.specs.Prelude.{◌≡◌, ◌<◌, length, position, IfOk};
ghost use Rattle.farkas_cert.specs.Elimination as specs;
ghost use Rattle.plain_elim.specs.inside.Held.{work_of, next_of, IsReady, IsReadyNext};

use crate::constant_test::constant_test;
use crate::given::given_lines;
use crate::line::Line;
use crate::pair_stage::pair_stage;
use crate::substitution::equality_stage;
use crate::work::{Next, Work};
use farkas_cert::NamedRows;
use std::alloc::{AllocError, Global};

/// The given rows after the constant test.
pub fn beginning(alloc: Global, rows: &NamedRows<'_>) -> Result<Next, AllocError>
    ensures next { IfOk result (λ next. next_of rows.now next ≡ specs.beginning rows.now) }
    ensures ready { IfOk result (λ next. IsReadyNext rows.now (next_of rows.now next)) }
{
    let lines = given_lines(alloc, rows)?;
    let work = Work {
        lines,
        kept: Vec::new(alloc),
        made: 0,
    };
    constant_test(alloc, rows, work)
}

/// The place of the first equality.
fn first_equality(lines: &[Line]) -> Option<usize>
    ensures { result ≡ position (λ line. line.equal) lines.now }
{
    lines.iter().position(|line| line.is_equality())
}

/// A stage takes a column out, by the first equality where there is one.
fn take_column_out(alloc: Global, rows: &NamedRows<'_>, work: Work) -> Result<Next, AllocError>
    requires { length work.kept.items < rows.now.columns }
    ensures { IfOk result (λ next. next_of rows.now next ≡ specs.take_column_out rows.now (work_of work)) }
{
    match first_equality(work.lines.as_slice()) {
        Some(place) => equality_stage(alloc, rows, work, place),
        None => pair_stage(alloc, rows, work),
    }
}

/// A stage, with the constant test behind it.
pub fn stage(alloc: Global, rows: &NamedRows<'_>, work: Work) -> Result<Next, AllocError>
    requires ready { IsReady rows.now (work_of work) }
    requires some { 0 < length work.lines.items }
    requires few { length work.kept.items < rows.now.columns }
    ensures next { IfOk result (λ next. next_of rows.now next ≡ specs.stage rows.now (work_of work)) }
    ensures ready { IfOk result (λ next. IsReadyNext rows.now (next_of rows.now next)) }
{
    let next = take_column_out(alloc, rows, work)?;
    match next {
        Next::Goes(work) => constant_test(alloc, rows, work),
        Next::Refutes(cert, number) => Ok(Next::Refutes(cert, number)),
        Next::Leaves(number, kind) => Ok(Next::Leaves(number, kind)),
    }
}
