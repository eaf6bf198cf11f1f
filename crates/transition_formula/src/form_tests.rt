ghost use Rattle.std.specs.Prelude.{◌≡◌, IfOk};
ghost use Rattle.transition_formula.specs.Stored.{form_of};

use super::*;
use lin_rows::{NumberList, Rows};
use std::alloc::{AllocError, Global};
use std::test::Fail;
use thr_base::{EdgeNo, ThreadNo};

fn line(alloc: Global, coefficients: &[i128], constant: i128) -> Result<Line, AllocError>
    ensures { IfOk result (λ made. form_of made ≡ record { coefficients = coefficients.now; constant = constant }) }
{
    let coefficients = Vec::from_slice(alloc, coefficients)?;
    Ok(Line {
        coefficients,
        constant,
    })
}

fn is_line(line: &Option<Line>, coefficients: &[i128], constant: i128) -> bool {
    match line {
        Some(line) => line.coefficients.as_slice() == coefficients && line.constant == constant,
        None => false,
    }
}

#[test]
fn sums_and_multiples(rt: HostRuntime) -> Result<(), Fail> {
    let alloc = rt.alloc();
    let first = line(alloc, &[2, -1], 3)?;
    let second = Line::column(alloc, 2, 1)?;
    let greatest = Line::constant(alloc, 2, i128::MAX)?;
    assert!(rt; is_line(&first.plus(alloc, &second)?, &[2, 0], 3));
    assert!(rt; is_line(&first.times(alloc, -3)?, &[-6, 3], -9));
    assert!(rt; is_line(&greatest.times(alloc, -1)?, &[0, 0], -i128::MAX));
    assert!(rt; first.plus(alloc, &greatest)?.is_none());
    assert!(rt; greatest.times(alloc, 2)?.is_none());
    Ok(())
}

#[test]
fn differences_and_products(rt: HostRuntime) -> Result<(), Fail> {
    let alloc = rt.alloc();
    let first = line(alloc, &[2, -1], 3)?;
    let second = Line::column(alloc, 2, 1)?;
    let three = Line::constant(alloc, 2, 3)?;
    let least = Line::constant(alloc, 2, -i128::MAX)?;
    assert!(rt; is_line(&first.minus(alloc, &second)?, &[2, -2], 3));
    assert!(rt; least.minus(alloc, &three)?.is_none());
    assert!(rt; is_line(&three.product(alloc, &first)?, &[6, -3], 9));
    assert!(rt; is_line(&first.product(alloc, &three)?, &[6, -3], 9));
    assert!(rt; first.product(alloc, &second)?.is_none());
    assert!(rt; is_line(&Line::constant_if_fits(alloc, 2, 4)?, &[0, 0], 4));
    assert!(rt; Line::constant_if_fits(alloc, 2, i128::MIN)?.is_none());
    Ok(())
}

/// `2a - b + 3` where a becomes `b + 1` and b becomes 5.
#[test]
fn a_composition(rt: HostRuntime) -> Result<(), Fail> {
    let alloc = rt.alloc();
    let whole = line(alloc, &[2, -1], 3)?;
    let parts = [line(alloc, &[0, 1], 1)?, Line::constant(alloc, 2, 5)?];
    let composed = whole.compose(alloc, 2, parts.as_slice())?;
    assert!(rt; is_line(&composed, &[0, 2], 0));
    Ok(())
}

#[test]
fn values_at_a_state_and_an_input(rt: HostRuntime) -> Result<(), Fail> {
    let alloc = rt.alloc();
    let first = line(alloc, &[2, -1, 4], 3)?;
    let greatest = line(alloc, &[i128::MAX, 1, 0], -1)?;
    assert_eq!(rt; sum_at(&[2, -1, 4], &[7, 5], &[10]), Some(49));
    assert_eq!(rt; first.value_at(&[7, 5], &[10]), Some(52));
    assert_eq!(rt; greatest.value_at(&[1, 0], &[0]), Some(i128::MAX - 1));
    // The sum is too great before the constant comes.
    assert_eq!(rt; greatest.value_at(&[1, 1], &[0]), None);
    Ok(())
}

#[test]
fn a_schedule_is_read_as_it_was_made(rt: HostRuntime) -> Result<(), Fail> {
    let alloc = rt.alloc();
    let mut steps = Vec::new(alloc);
    steps.push(ScheduleStep {
        thread: ThreadNo(2),
        edge: EdgeNo(3),
        inputs: NumberList::of(Vec::from_slice(alloc, &[7])?),
    })?;
    let schedule = Schedule {
        start: NumberList::of(Vec::from_slice(alloc, &[1, -1])?),
        steps: ScheduleSteps::of(steps),
    };
    assert!(rt; schedule.start.as_slice() == [1, -1].as_slice());
    for step in schedule.steps.as_slice() {
        assert!(rt; step.thread == ThreadNo(2) && step.edge == EdgeNo(3));
        assert!(rt; step.inputs.as_slice() == [7].as_slice());
    }
    assert_eq!(rt; schedule.steps.into_vec().len(), 1);
    assert_eq!(rt; schedule.start.into_vec().len(), 2);
    Ok(())
}

#[test]
fn the_row_of_a_column(rt: HostRuntime) -> Result<(), Fail> {
    let mut rows = Rows::new(rt.alloc(), 3);
    let mut room = Vec::new(rt.alloc());
    push_column_is(&mut rows, &mut room, 1, -4)?;
    assert_eq!(rt; rows.view().count(), 1);
    let view = rows.view();
    let row = view.row(0);
    assert!(rt; row.equal && row.coefficients == [0, 1, 0].as_slice() && row.bound == -4);
    Ok(())
}
