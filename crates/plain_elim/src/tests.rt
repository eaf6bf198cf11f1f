ghost use Rattle.std.specs.Prelude.{◌≡◌, ◌<◌, ◌^◌, IfOk};

use super::*;
use farkas_cert::{Decided, LeaveKind};
use lin_rows::Rows;
use std::alloc::{AllocError, Global};
use std::test::Fail;

fn is_refuted(decided: &Decided, pairs: &[(u32, i128)]) -> bool {
    match decided {
        Decided::Refuted(cert) => cert.pairs() == pairs,
        _ => false,
    }
}

fn is_point(decided: &Decided, x: &[i128], d: i128) -> bool {
    match decided {
        Decided::Point(numerators, denominator) => numerators.as_slice() == x && *denominator == d,
        _ => false,
    }
}

fn leaves(decided: &Decided, at: u32, why: LeaveKind) -> bool {
    match decided {
        Decided::Leaves { stage, kind } => *stage == at && *kind == why,
        _ => false,
    }
}

#[test]
fn products_that_do_not_fit(rt: HostRuntime) -> Result<(), Fail> {
    let half = 85070591730234615865843651857942052864;
    let mut rows = Rows::new(rt.alloc(), 2);
    rows.push(false, &[half, 1], 0)?;
    rows.push(false, &[-half - 1, 1], 0)?;
    let decided = decide(rt.alloc(), &rows.view())?;
    assert!(rt; leaves(&decided, 1, LeaveKind::Overflow));
    Ok(())
}

#[test]
fn rows_that_contradict(rt: HostRuntime) -> Result<(), Fail> {
    let mut bounds = Rows::new(rt.alloc(), 1);
    bounds.push(false, &[1], 0)?;
    bounds.push(false, &[-1], -1)?;
    let decided = decide(rt.alloc(), &bounds.view())?;
    assert!(rt; is_refuted(&decided, &[(1, 1), (2, 1)]));
    let mut equalities = Rows::new(rt.alloc(), 2);
    equalities.push(true, &[1, 1], 3)?;
    equalities.push(true, &[1, 1], 5)?;
    let decided = decide(rt.alloc(), &equalities.view())?;
    assert!(rt; is_refuted(&decided, &[(1, 1), (2, -1)]));
    Ok(())
}

#[test]
fn rows_without_variables(rt: HostRuntime) -> Result<(), Fail> {
    let mut inequality = Rows::new(rt.alloc(), 1);
    inequality.push(false, &[0], 0)?;
    inequality.push(false, &[0], -1)?;
    let decided = decide(rt.alloc(), &inequality.view())?;
    assert!(rt; is_refuted(&decided, &[(2, 1)]));
    let mut above = Rows::new(rt.alloc(), 1);
    above.push(true, &[0], 2)?;
    let decided = decide(rt.alloc(), &above.view())?;
    assert!(rt; is_refuted(&decided, &[(1, -1)]));
    let mut below = Rows::new(rt.alloc(), 1);
    below.push(true, &[0], -2)?;
    let decided = decide(rt.alloc(), &below.view())?;
    assert!(rt; is_refuted(&decided, &[(1, 1)]));
    let mut true_ones = Rows::new(rt.alloc(), 2);
    true_ones.push(true, &[0, 0], 0)?;
    true_ones.push(false, &[0, 0], 7)?;
    let decided = decide(rt.alloc(), &true_ones.view())?;
    assert!(rt; is_point(&decided, &[0, 0], 1));
    let decided = decide(rt.alloc(), &Rows::new(rt.alloc(), 1).view())?;
    assert!(rt; is_point(&decided, &[0], 1));
    Ok(())
}

#[test]
fn points_of_equalities(rt: HostRuntime) -> Result<(), Fail> {
    let mut half = Rows::new(rt.alloc(), 1);
    half.push(true, &[2], 1)?;
    let decided = decide(rt.alloc(), &half.view())?;
    assert!(rt; is_point(&decided, &[1], 2));
    let mut two = Rows::new(rt.alloc(), 2);
    two.push(true, &[1, 1], 3)?;
    two.push(true, &[1, -1], 1)?;
    let decided = decide(rt.alloc(), &two.view())?;
    assert!(rt; is_point(&decided, &[2, 1], 1));
    let mut thirds = Rows::new(rt.alloc(), 2);
    thirds.push(true, &[2, -1], 0)?;
    thirds.push(false, &[0, 3], 2)?;
    thirds.push(false, &[0, -3], -1)?;
    let decided = decide(rt.alloc(), &thirds.view())?;
    assert!(rt; is_point(&decided, &[1, 2], 6));
    Ok(())
}

#[test]
fn whole_numbers_between_bounds(rt: HostRuntime) -> Result<(), Fail> {
    let mut between = Rows::new(rt.alloc(), 1);
    between.push(false, &[-2], -1)?;
    between.push(false, &[2], 5)?;
    let decided = decide(rt.alloc(), &between.view())?;
    assert!(rt; is_point(&decided, &[1], 1));
    let mut none_between = Rows::new(rt.alloc(), 1);
    none_between.push(false, &[-3], -1)?;
    none_between.push(false, &[3], 2)?;
    let decided = decide(rt.alloc(), &none_between.view())?;
    assert!(rt; is_point(&decided, &[1], 3));
    let mut no_lower = Rows::new(rt.alloc(), 1);
    no_lower.push(false, &[2], 5)?;
    no_lower.push(false, &[3], 9)?;
    let decided = decide(rt.alloc(), &no_lower.view())?;
    assert!(rt; is_point(&decided, &[2], 1));
    let mut no_upper = Rows::new(rt.alloc(), 1);
    no_upper.push(false, &[-2], -5)?;
    no_upper.push(false, &[-3], 9)?;
    let decided = decide(rt.alloc(), &no_upper.view())?;
    assert!(rt; is_point(&decided, &[3], 1));
    Ok(())
}

#[test]
fn the_greatest_numbers(rt: HostRuntime) -> Result<(), Fail> {
    let half = 85070591730234615865843651857942052864;
    let three_quarters = 127605887595351923798765477786913079296;
    let mut rows = Rows::new(rt.alloc(), 1);
    rows.push(false, &[-2], -3)?;
    rows.push(false, &[half], three_quarters + 1)?;
    let decided = decide(rt.alloc(), &rows.view())?;
    assert!(rt; is_point(&decided, &[3], 2));
    Ok(())
}

/// Two upper bounds, and so many lower ones.
fn many_bounds(alloc: Global, lower: u32) -> Result<Rows, AllocError>
    requires { lower < 2 ^ 16 }
    ensures { IfOk result (λ rows. rows.columns ≡ 1) }
{
    let mut rows = Rows::new(alloc, 1);
    rows.push(false, &[1], 5)?;
    rows.push(false, &[1], 6)?;
    'rows: for pushed in 0..lower {
        rows.push(false, &[-1], 0)?;
    }
    Ok(rows)
}

#[test]
fn as_many_rows_as_may_be(rt: HostRuntime) -> Result<(), Fail> {
    let decided = decide(rt.alloc(), &many_bounds(rt.alloc(), 2730)?.view())?;
    assert!(rt; is_point(&decided, &[0], 1));
    let decided = decide(rt.alloc(), &many_bounds(rt.alloc(), 2731)?.view())?;
    assert!(rt; leaves(&decided, 1, LeaveKind::Rows));
    Ok(())
}
