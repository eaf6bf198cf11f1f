ghost use Rattle.std.specs.List.{AllByRecursion};
ghost use Rattle.thr_base.specs.Number.{Fits};

use super::*;
use std::alloc::Global;
use std::process::Abort;
use std::test::Fail;

/// An answer of `normal`, as what can be compared.
#[derive(Clone, Copy, Debug, PartialEq, Eq)]
enum Answer {
    Always,
    Never,
    Atom([i128; 2], i128),
    Stop(NormalStop),
}

fn pair_of(numbers: &[i128]) -> [i128; 2] {
    match numbers {
        [first, second] => [*first, *second],
        _ => [0, 0],
    }
}

fn answer_for(alloc: Global, coefficients: &[i128], bound: i128) -> Answer
    requires coefficients { AllByRecursion Fits coefficients.now }
    requires bound { Fits bound }
{
    let row = RowView {
        equal: false,
        coefficients,
        bound,
    };
    match normal(alloc, &row) {
        Ok(NormalForm::Always) => Answer::Always,
        Ok(NormalForm::Never) => Answer::Never,
        Ok(NormalForm::Atom(atom)) => Answer::Atom(pair_of(atom.coefficients()), atom.bound()),
        Err(stop) => Answer::Stop(stop),
    }
}

#[test]
fn normal_forms(rt: HostRuntime) {
    let greatest = i128::MAX;
    let half = 85070591730234615865843651857942052863;
    let overflow = Answer::Stop(NormalStop::Overflow);
    assert_eq!(rt;
        answer_for(rt.alloc(), &[4, -6], 9),
        Answer::Atom([2, -3], 4)
    );
    assert_eq!(rt;
        answer_for(rt.alloc(), &[4, -6], -9),
        Answer::Atom([2, -3], -5)
    );
    assert_eq!(rt;
        answer_for(rt.alloc(), &[0, -3], -1),
        Answer::Atom([0, -1], -1)
    );
    assert_eq!(rt;
        answer_for(rt.alloc(), &[0, 2], greatest),
        Answer::Atom([0, 1], half)
    );
    assert_eq!(rt;
        answer_for(rt.alloc(), &[0, 2], -greatest),
        Answer::Atom([0, 1], -half - 1)
    );
    assert_eq!(rt; answer_for(rt.alloc(), &[0, 1], greatest), overflow);
    assert_eq!(rt; answer_for(rt.alloc(), &[0, 0], greatest), Answer::Always);
    assert_eq!(rt; answer_for(rt.alloc(), &[0, 0], 0), Answer::Always);
    assert_eq!(rt; answer_for(rt.alloc(), &[0, 0], -1), Answer::Never);
}

#[test]
fn negations(rt: HostRuntime) -> Result<(), Fail> {
    let row = RowView {
        equal: false,
        coefficients: &[4, -6],
        bound: 9,
    };
    let Ok(NormalForm::Atom(atom)) = normal(rt.alloc(), &row) else {
        panic!(rt; "no atom");
    };
    let negated = negate(rt.alloc(), &atom)?;
    assert_eq!(rt; pair_of(negated.coefficients()), [-2, 3]);
    assert_eq!(rt; negated.bound(), -5);
    Ok(())
}

#[test]
fn rows_are_those_pushed(rt: HostRuntime) -> Result<(), Fail> {
    let mut rows = Rows::new(rt.alloc(), 2);
    rows.push(false, &[1, -2], 3)?;
    rows.push(true, &[0, 5], -7)?;
    let view = rows.view();
    assert_eq!(rt; view.columns(), 2);
    assert_eq!(rt; view.count(), 2);
    let first = view.row(0);
    assert!(rt; !first.equal);
    assert_eq!(rt; (pair_of(first.coefficients), first.bound), ([1, -2], 3));
    let second = view.row(1);
    assert!(rt; second.equal);
    assert_eq!(rt; (pair_of(second.coefficients), second.bound), ([0, 5], -7));
    Ok(())
}

#[test]
fn sums_and_products_that_fit(rt: HostRuntime) {
    let greatest = i128::MAX;
    assert_eq!(rt; sum_if_fits(greatest, -1), Some(greatest - 1));
    assert_eq!(rt; sum_if_fits(greatest, 1), None);
    assert_eq!(rt; sum_if_fits(-greatest, -1), None);
    assert_eq!(rt; difference_if_fits(-greatest, -1), Some(1 - greatest));
    assert_eq!(rt; difference_if_fits(-greatest, 1), None);
    assert_eq!(rt; product_if_fits(-greatest, -1), Some(greatest));
    assert_eq!(rt; product_if_fits(1 << 64, -(1 << 63)), None);
}

#[test]
fn parts_are_their_rows(rt: HostRuntime) -> Result<(), Fail> {
    let mut rows = Rows::new(rt.alloc(), 2);
    rows.push(false, &[1, 2], 3)?;
    rows.push(true, &[4, 5], 6)?;
    rows.push(false, &[7, 8], 9)?;
    let whole = rows.view();
    let last = {
        let later = whole.part(1, 3);
        assert_eq!(rt; later.count(), 2);
        later.part(1, 2).row(0)
    };
    assert_eq!(rt; (pair_of(last.coefficients), last.bound), ([7, 8], 9));
    assert_eq!(rt; whole.part(1, 1).count(), 0);
    let mut more = Rows::new(rt.alloc(), 2);
    more.push_row(&last)?;
    more.push_rows(&whole.part(0, 2))?;
    let copied = more.view();
    assert_eq!(rt; copied.count(), 3);
    assert_eq!(rt; pair_of(copied.row(2).coefficients), [4, 5]);
    assert!(rt; copied.row(2).equal);
    Ok(())
}

#[test]
fn rows_without_columns(rt: HostRuntime) -> Result<(), Fail> {
    let mut rows = Rows::new(rt.alloc(), 0);
    rows.push(false, &[], 1)?;
    rows.push(true, &[], 2)?;
    let second = rows.view().part(1, 2).row(0);
    assert_eq!(rt; (second.coefficients.len(), second.bound), (0, 2));
    Ok(())
}

#[test]
fn sums_from_left_to_right(rt: HostRuntime) {
    let greatest = i128::MAX;
    assert_eq!(rt; sum_of_products(&[2, -3], &[5, 1]), Ok(7));
    assert_eq!(rt; sum_of_products(&[greatest, 1, -1], &[1, 1, 1]), Err(1));
    assert_eq!(rt;
        sum_of_products(&[greatest, -1, 1], &[1, 1, 1]),
        Ok(greatest)
    );
    assert_eq!(rt; sum_of_products(&[1, 2], &[3, greatest]), Err(1));
    assert_eq!(rt; sum_of_products(&[], &[]), Ok(0));
}

#[test]
fn copies_and_opposites(rt: HostRuntime) -> Result<(), Fail> {
    let row = RowView {
        equal: false,
        coefficients: &[2, -3],
        bound: 9,
    };
    let Ok(NormalForm::Atom(atom)) = normal(rt.alloc(), &row) else {
        panic!(rt; "no atom");
    };
    let copy = atom.try_clone(rt.alloc())?;
    assert_eq!(rt; (pair_of(copy.coefficients()), copy.bound()), ([2, -3], 9));
    let mut numbers = [7].to_vec(rt.alloc())?;
    push_opposites(&mut numbers, &[opposite(1)])?;
    assert_eq!(rt; numbers.as_slice(), [7, 1].as_slice());
    let opposites = opposites_of(rt.alloc(), &[4, -4])?;
    assert_eq!(rt; opposites.as_slice(), [-4, 4].as_slice());
    Ok(())
}
