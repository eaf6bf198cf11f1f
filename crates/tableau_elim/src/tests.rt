ghost use Rattle.thr_base.specs.Number.{Fits};

use super::*;
use lin_rows::Rows;
use std::alloc::{AllocError, Global};
use std::test::Fail;

fn is_refuted(tried: &Tried, pairs: &[(u32, i128)]) -> bool {
    match tried {
        Tried::Refuted(cert) => cert.pairs() == pairs,
        _ => false,
    }
}

fn is_point(tried: &Tried, x: &[i128], d: i128) -> bool {
    match tried {
        Tried::Point(numerators, denominator) => numerators.as_slice() == x && *denominator == d,
        _ => false,
    }
}

fn gave_up(tried: &Tried) -> bool {
    match tried {
        Tried::GaveUp => true,
        _ => false,
    }
}

/// One row of one column.
fn single(alloc: Global, equal: bool, number: i128, bound: i128) -> Result<Rows, AllocError>
    requires number { Fits number }
    requires bound { Fits bound }
{
    let mut rows = Rows::new(alloc, 1);
    rows.push(equal, &[number], bound)?;
    Ok(rows)
}

#[test]
fn systems_that_the_elimination_leaves_or_decides(rt: HostRuntime) -> Result<(), Fail> {
    let half = 85070591730234615865843651857942052864;
    let mut steep = Rows::new(rt.alloc(), 2);
    steep.push(false, &[half, 1], 0)?;
    steep.push(false, &[-half - 1, 1], 0)?;
    let tried = try_decide(rt.alloc(), &steep.view())?;
    assert!(rt; is_point(&tried, &[0, 0], 1));
    let mut bounds = Rows::new(rt.alloc(), 1);
    bounds.push(false, &[1], 0)?;
    bounds.push(false, &[-1], -1)?;
    let tried = try_decide(rt.alloc(), &bounds.view())?;
    assert!(rt; is_refuted(&tried, &[(1, 1), (2, 1)]));
    let fraction = single(rt.alloc(), true, 2, 1)?;
    let tried = try_decide(rt.alloc(), &fraction.view())?;
    assert!(rt; is_point(&tried, &[1], 2));
    let tried = try_decide(rt.alloc(), &Rows::new(rt.alloc(), 1).view())?;
    assert!(rt; is_point(&tried, &[0], 1));
    Ok(())
}

#[test]
fn a_column_on_a_line_has_a_value(rt: HostRuntime) -> Result<(), Fail> {
    let low = single(rt.alloc(), false, -1, -3)?;
    let tried = try_decide(rt.alloc(), &low.view())?;
    assert!(rt; is_point(&tried, &[3], 1));
    let mut lines = Rows::new(rt.alloc(), 2);
    lines.push(true, &[1, 1], 3)?;
    lines.push(true, &[1, -1], 1)?;
    let tried = try_decide(rt.alloc(), &lines.view())?;
    assert!(rt; is_point(&tried, &[2, 1], 1));
    let mut sixths = Rows::new(rt.alloc(), 2);
    sixths.push(true, &[2, -1], 0)?;
    sixths.push(false, &[0, 3], 2)?;
    sixths.push(false, &[0, -3], -1)?;
    let tried = try_decide(rt.alloc(), &sixths.view())?;
    assert!(rt; is_point(&tried, &[1, 2], 6));
    Ok(())
}

#[test]
fn equalities_that_are_low_or_high(rt: HostRuntime) -> Result<(), Fail> {
    let low = single(rt.alloc(), true, 1, 2)?;
    let tried = try_decide(rt.alloc(), &low.view())?;
    assert!(rt; is_point(&tried, &[2], 1));
    let high = single(rt.alloc(), true, 1, -2)?;
    let tried = try_decide(rt.alloc(), &high.view())?;
    assert!(rt; is_point(&tried, &[-2], 1));
    let never_low = single(rt.alloc(), true, 0, 2)?;
    let tried = try_decide(rt.alloc(), &never_low.view())?;
    assert!(rt; is_refuted(&tried, &[(1, -1)]));
    let never_high = single(rt.alloc(), true, 0, -2)?;
    let tried = try_decide(rt.alloc(), &never_high.view())?;
    assert!(rt; is_refuted(&tried, &[(1, 1)]));
    let mut never_equal = Rows::new(rt.alloc(), 1);
    never_equal.push(false, &[1], 1)?;
    never_equal.push(true, &[1], 2)?;
    let tried = try_decide(rt.alloc(), &never_equal.view())?;
    assert!(rt; is_refuted(&tried, &[(1, 1), (2, -1)]));
    Ok(())
}

#[test]
fn rows_without_columns_refute_by_themselves(rt: HostRuntime) -> Result<(), Fail> {
    let mut rows = Rows::new(rt.alloc(), 1);
    rows.push(false, &[0], 0)?;
    rows.push(false, &[0], -1)?;
    let tried = try_decide(rt.alloc(), &rows.view())?;
    assert!(rt; is_refuted(&tried, &[(2, 1)]));
    Ok(())
}

#[test]
fn slacks_enter(rt: HostRuntime) -> Result<(), Fail> {
    let mut point = Rows::new(rt.alloc(), 2);
    point.push(false, &[2, 3], 2)?;
    point.push(false, &[3, -2], 3)?;
    point.push(false, &[-1, 1], -2)?;
    let tried = try_decide(rt.alloc(), &point.view())?;
    assert!(rt; is_point(&tried, &[-1, -3], 1));
    let mut none = Rows::new(rt.alloc(), 2);
    none.push(false, &[-2, 3], -3)?;
    none.push(false, &[2, 2], 0)?;
    none.push(false, &[-2, 2], -4)?;
    none.push(true, &[1, 1], 2)?;
    let tried = try_decide(rt.alloc(), &none.view())?;
    assert!(rt; is_refuted(&tried, &[(2, 1), (4, -2)]));
    let mut low = Rows::new(rt.alloc(), 1);
    low.push(false, &[2], -2)?;
    low.push(true, &[-1], 4)?;
    low.push(false, &[-3], 4)?;
    let tried = try_decide(rt.alloc(), &low.view())?;
    assert!(rt; is_refuted(&tried, &[(2, -3), (3, 1)]));
    Ok(())
}

#[test]
fn a_sum_or_a_bound_that_does_not_fit(rt: HostRuntime) -> Result<(), Fail> {
    let most = 170141183460469231731687303715884105727;
    let mut limit = Rows::new(rt.alloc(), 1);
    limit.push(false, &[-3], -2)?;
    limit.push(false, &[1], most)?;
    let tried = try_decide(rt.alloc(), &limit.view())?;
    assert!(rt; gave_up(&tried));
    let mut product = Rows::new(rt.alloc(), 1);
    product.push(false, &[-1], -most)?;
    product.push(false, &[2], 0)?;
    let tried = try_decide(rt.alloc(), &product.view())?;
    assert!(rt; gave_up(&tried));
    let mut sum = Rows::new(rt.alloc(), 2);
    sum.push(false, &[-1, 0], -most)?;
    sum.push(false, &[0, -1], -most)?;
    sum.push(false, &[1, 1], 0)?;
    let tried = try_decide(rt.alloc(), &sum.view())?;
    assert!(rt; gave_up(&tried));
    Ok(())
}

#[test]
fn a_pivot_or_a_denominator_that_does_not_fit(rt: HostRuntime) -> Result<(), Fail> {
    let half = 85070591730234615865843651857942052864;
    let mut pivot = Rows::new(rt.alloc(), 2);
    pivot.push(false, &[-half, 1], -1)?;
    pivot.push(false, &[-3, 1], -1)?;
    pivot.push(false, &[1, 1], -7)?;
    let tried = try_decide(rt.alloc(), &pivot.view())?;
    assert!(rt; gave_up(&tried));
    let mut denominator = Rows::new(rt.alloc(), 2);
    denominator.push(true, &[half - 1, 0], 1)?;
    denominator.push(true, &[0, half - 3], 1)?;
    let tried = try_decide(rt.alloc(), &denominator.view())?;
    assert!(rt; gave_up(&tried));
    Ok(())
}

#[test]
fn a_certificate_or_a_point_that_does_not_fit(rt: HostRuntime) -> Result<(), Fail> {
    let wide = 18446744073709551616;
    let steep = 9223372036854775809;
    let mut certificate = Rows::new(rt.alloc(), 1);
    certificate.push(true, &[-wide - 1], 2)?;
    certificate.push(false, &[steep], -2)?;
    let tried = try_decide(rt.alloc(), &certificate.view())?;
    assert!(rt; gave_up(&tried));
    let mut coordinate = Rows::new(rt.alloc(), 2);
    coordinate.push(false, &[-1, steep], -1)?;
    coordinate.push(false, &[-3, 0], -wide - 1)?;
    let tried = try_decide(rt.alloc(), &coordinate.view())?;
    assert!(rt; gave_up(&tried));
    Ok(())
}

#[test]
fn each_number_of_a_pivot_that_does_not_fit(rt: HostRuntime) -> Result<(), Fail> {
    let half = 85070591730234615865843651857942052864;
    let mut difference = Rows::new(rt.alloc(), 2);
    difference.push(false, &[-2, 3], -1)?;
    difference.push(false, &[3, half - 1], -3)?;
    let tried = try_decide(rt.alloc(), &difference.view())?;
    assert!(rt; gave_up(&tried));
    let mut divisor = Rows::new(rt.alloc(), 1);
    divisor.push(false, &[-3], 0)?;
    divisor.push(false, &[-half], -2)?;
    divisor.push(true, &[-1], -1)?;
    let tried = try_decide(rt.alloc(), &divisor.view())?;
    assert!(rt; gave_up(&tried));
    let mut scaled = Rows::new(rt.alloc(), 2);
    scaled.push(false, &[-3, 0], -1)?;
    scaled.push(false, &[-1, half], -3)?;
    let tried = try_decide(rt.alloc(), &scaled.view())?;
    assert!(rt; gave_up(&tried));
    let mut taken = Rows::new(rt.alloc(), 2);
    taken.push(true, &[1, 3], -3)?;
    taken.push(false, &[1 - half, 0], -1)?;
    let tried = try_decide(rt.alloc(), &taken.view())?;
    assert!(rt; gave_up(&tried));
    Ok(())
}

#[test]
fn each_number_of_a_sum_that_does_not_fit(rt: HostRuntime) -> Result<(), Fail> {
    let half = 85070591730234615865843651857942052864;
    let mut product = Rows::new(rt.alloc(), 2);
    product.push(false, &[-2, 2], 1 - half)?;
    product.push(false, &[1, -3], -3)?;
    let tried = try_decide(rt.alloc(), &product.view())?;
    assert!(rt; gave_up(&tried));
    let mut sum = Rows::new(rt.alloc(), 2);
    sum.push(true, &[-1, -2], 2)?;
    sum.push(true, &[-3, half - 1], 2)?;
    let tried = try_decide(rt.alloc(), &sum.view())?;
    assert!(rt; gave_up(&tried));
    Ok(())
}

#[test]
fn the_first_row_that_is_out_decides(rt: HostRuntime) -> Result<(), Fail> {
    let half = 85070591730234615865843651857942052864;
    let mut below = Rows::new(rt.alloc(), 1);
    below.push(false, &[-1], -half)?;
    below.push(false, &[0], -1)?;
    below.push(false, &[4], 0)?;
    let tried = try_decide(rt.alloc(), &below.view())?;
    assert!(rt; is_refuted(&tried, &[(2, 1)]));
    let mut lowest = Rows::new(rt.alloc(), 1);
    lowest.push(false, &[0], -1)?;
    lowest.push(true, &[0], -1)?;
    let tried = try_decide(rt.alloc(), &lowest.view())?;
    assert!(rt; is_refuted(&tried, &[(1, 1)]));
    let mut opposed = Rows::new(rt.alloc(), 1);
    opposed.push(true, &[-1], 1)?;
    opposed.push(true, &[1], 0)?;
    let tried = try_decide(rt.alloc(), &opposed.view())?;
    assert!(rt; is_refuted(&tried, &[(1, -1), (2, -1)]));
    Ok(())
}

#[test]
fn points_of_two_columns(rt: HostRuntime) -> Result<(), Fail> {
    let mut line = Rows::new(rt.alloc(), 2);
    line.push(true, &[1, 1], 1)?;
    let tried = try_decide(rt.alloc(), &line.view())?;
    assert!(rt; is_point(&tried, &[1, 0], 1));
    let mut halves = Rows::new(rt.alloc(), 2);
    halves.push(false, &[0, 2], -1)?;
    halves.push(false, &[1, 1], -2)?;
    let tried = try_decide(rt.alloc(), &halves.view())?;
    assert!(rt; is_point(&tried, &[-3, -1], 2));
    Ok(())
}

/// A squeezed cube that takes 100 pivots, with rows behind it that say nothing.
#[test]
fn the_last_pivots_that_may_be_made(rt: HostRuntime) -> Result<(), Fail> {
    let mut rows = Rows::new(rt.alloc(), 7);
    rows.push(false, &[0, 0, 0, 0, 0, 0, -3], 0)?;
    rows.push(false, &[0, 0, 0, 0, 0, -3, 1], 0)?;
    rows.push(false, &[0, 0, 0, 0, 0, 3, 1], 3)?;
    rows.push(false, &[0, 0, 0, 0, -3, 1, 0], -1)?;
    rows.push(false, &[0, 0, 0, 0, 3, 1, 0], 3)?;
    rows.push(false, &[0, 0, 0, -3, 1, 0, 0], 0)?;
    rows.push(false, &[0, 0, 0, 3, 1, 0, 0], 3)?;
    rows.push(false, &[0, 0, -3, 1, 0, 0, 0], 0)?;
    rows.push(false, &[0, 0, 3, 1, 0, 0, 0], 3)?;
    rows.push(false, &[0, -3, 1, 0, 0, 0, 0], 0)?;
    rows.push(false, &[0, 3, 1, 0, 0, 0, 0], 3)?;
    rows.push(false, &[-3, 1, 0, 0, 0, 0, 0], 0)?;
    rows.push(false, &[3, 1, 0, 0, 0, 0, 0], 3)?;
    rows.push(false, &[-1, 0, 0, 0, 0, 0, 0], -1)?;
    rows.push(false, &[0, 0, 0, 0, 0, 0, 0], 0)?;
    rows.push(false, &[0, 0, 0, 0, 0, 0, 0], 0)?;
    rows.push(false, &[0, 0, 0, 0, 0, 0, 0], 0)?;
    let tried = try_decide(rt.alloc(), &rows.view())?;
    assert!(rt; gave_up(&tried));
    rows.push(false, &[0, 0, 0, 0, 0, 0, 0], 0)?;
    let tried = try_decide(rt.alloc(), &rows.view())?;
    let pairs = [
        (1, 1),
        (2, 3),
        (4, 9),
        (6, 27),
        (8, 81),
        (10, 243),
        (13, 729),
        (14, 2187),
    ];
    assert!(rt; is_refuted(&tried, &pairs));
    Ok(())
}
