ghost use Rattle.std.specs.Prelude.{◌≡◌, ◌<◌, ◌^◌, length, IfOk};
ghost use Rattle.std.specs.List.{AllByRecursion};
ghost use Rattle.thr_base.specs.Number.{Fits};

use super::*;
use lin_rows::{NormalForm, NumberList, RowView, Rows, normal};
use std::alloc::{AllocError, Global};
use std::test::Fail;

const GREATEST: i128 = i128::MAX;

/// Two inequalities over the same columns.
fn inequalities(
    alloc: Global,
    first: &[i128],
    first_bound: i128,
    second: &[i128],
    second_bound: i128,
) -> Result<Rows, AllocError>
    requires wide { length first.now < 2 ^ 32 }
    requires widths { length second.now ≡ length first.now }
    requires first { AllByRecursion Fits first.now }
    requires second { AllByRecursion Fits second.now }
    requires first_bound { Fits first_bound }
    requires second_bound { Fits second_bound }
    ensures { IfOk result (λ rows. rows.columns ≡ length first.now) }
{
    let mut rows = Rows::new(alloc, first.len() as u32);
    rows.push(false, first, first_bound)?;
    rows.push(false, second, second_bound)?;
    Ok(rows)
}

#[test]
fn certificates_of_contradicting_rows(rt: HostRuntime) -> Result<(), Fail> {
    let rows = inequalities(rt.alloc(), &[1], 0, &[-1], -1)?;
    let cases: [(&[(u32, i128)], CertAnswer); 8] = [
        (&[(1, 1), (2, 1)], CertAnswer::Proves),
        (&[(1, 3), (2, 3)], CertAnswer::Proves),
        (&[(1, 1), (2, 2)], CertAnswer::Fails),
        (&[], CertAnswer::Fails),
        (&[(2, 1), (1, 1)], CertAnswer::Fails),
        (&[(1, 1), (1, 1), (2, 2)], CertAnswer::Fails),
        (&[(0, 1), (1, 1), (2, 1)], CertAnswer::Fails),
        (&[(1, 1), (2, 1), (3, 0)], CertAnswer::Fails),
    ];
    for (cert, want) in cases {
        assert_eq!(rt; check_cert(&rows.view(), cert), want);
    }
    Ok(())
}

#[test]
fn an_inequality_takes_no_negative_multiplier(rt: HostRuntime) -> Result<(), Fail> {
    let rows = inequalities(rt.alloc(), &[1], 0, &[1], 1)?;
    assert_eq!(rt;
        check_cert(&rows.view(), &[(1, 1), (2, -1)]),
        CertAnswer::Fails
    );
    Ok(())
}

#[test]
fn an_equality_takes_a_negative_multiplier(rt: HostRuntime) -> Result<(), Fail> {
    let mut rows = Rows::new(rt.alloc(), 1);
    rows.push(true, &[1], 1)?;
    rows.push(false, &[1], 0)?;
    assert_eq!(rt;
        check_cert(&rows.view(), &[(1, -1), (2, 1)]),
        CertAnswer::Proves
    );
    Ok(())
}

#[test]
fn a_sum_of_zero_is_no_contradiction(rt: HostRuntime) -> Result<(), Fail> {
    let rows = inequalities(rt.alloc(), &[1], 0, &[-1], 0)?;
    assert_eq!(rt;
        check_cert(&rows.view(), &[(1, 1), (2, 1)]),
        CertAnswer::Fails
    );
    Ok(())
}

#[test]
fn the_first_overflow_is_named(rt: HostRuntime) -> Result<(), Fail> {
    let high = inequalities(rt.alloc(), &[GREATEST, 0], 0, &[1, 0], 0)?;
    let sum = CertAnswer::Overflow { row: 2, column: 0 };
    assert_eq!(rt; check_cert(&high.view(), &[(1, 1), (2, 1)]), sum);
    let low = inequalities(rt.alloc(), &[-GREATEST, 0], 0, &[-1, 0], 0)?;
    assert_eq!(rt; check_cert(&low.view(), &[(1, 1), (2, 1)]), sum);
    let bound = inequalities(rt.alloc(), &[1, 0], GREATEST, &[-1, 0], 1)?;
    let last = CertAnswer::Overflow { row: 2, column: 2 };
    assert_eq!(rt; check_cert(&bound.view(), &[(1, 1), (2, 1)]), last);
    let crossed = inequalities(rt.alloc(), &[1, GREATEST], 0, &[GREATEST, 0], 0)?;
    let product = CertAnswer::Overflow { row: 1, column: 1 };
    assert_eq!(rt; check_cert(&crossed.view(), &[(1, 2), (2, 1)]), product);
    Ok(())
}

#[test]
fn entailments(rt: HostRuntime) -> Result<(), Fail> {
    let rows = inequalities(rt.alloc(), &[1], 0, &[-1], 5)?;
    let row = RowView {
        equal: false,
        coefficients: &[1],
        bound: 1,
    };
    let Ok(NormalForm::Atom(atom)) = normal(rt.alloc(), &row) else {
        panic!(rt; "no atom");
    };
    assert_eq!(rt;
        check_entails(&rows.view(), &atom, &[(1, 1), (3, 1)]),
        CertAnswer::Proves
    );
    assert_eq!(rt;
        check_entails(&rows.view(), &atom, &[(2, 1), (3, 1)]),
        CertAnswer::Fails
    );
    let overflow = CertAnswer::Overflow { row: 3, column: 1 };
    assert_eq!(rt;
        check_entails(&rows.view(), &atom, &[(3, GREATEST)]),
        overflow
    );
    Ok(())
}

#[test]
fn points(rt: HostRuntime) -> Result<(), Fail> {
    let steep = inequalities(
        rt.alloc(),
        &[85070591730234615865843651857942052864, 1],
        0,
        &[-85070591730234615865843651857942052865, 1],
        0,
    )?;
    assert_eq!(rt; check_point(&steep.view(), &[0, 0], 1), PointAnswer::Meets);
    assert_eq!(rt;
        check_point(&steep.view(), &[-1, 1], 1),
        PointAnswer::Fails { row: 2 }
    );
    let product = PointAnswer::Overflow { row: 1, column: 0 };
    assert_eq!(rt; check_point(&steep.view(), &[-2, 0], 1), product);
    let none = Rows::new(rt.alloc(), 1);
    assert_eq!(rt; check_point(&none.view(), &[0], 1), PointAnswer::Meets);
    let mut half = Rows::new(rt.alloc(), 1);
    half.push(true, &[2], 1)?;
    assert_eq!(rt; check_point(&half.view(), &[1], 2), PointAnswer::Meets);
    assert_eq!(rt;
        check_point(&half.view(), &[1], 1),
        PointAnswer::Fails { row: 1 }
    );
    let bounds = inequalities(rt.alloc(), &[1], 0, &[0], GREATEST)?;
    let bound = PointAnswer::Overflow { row: 2, column: 1 };
    assert_eq!(rt; check_point(&bounds.view(), &[0], 2), bound);
    Ok(())
}

#[test]
fn evidence_is_read_as_it_was_made(rt: HostRuntime) -> Result<(), Fail> {
    let cert = Cert::of(vec![in rt.alloc(); (1u32, 2i128)]?);
    assert_eq!(rt; cert.pairs(), [(1, 2)].as_slice());
    let point = NumberList::of(vec![in rt.alloc(); 3i128]?);
    assert_eq!(rt; point.as_slice(), [3].as_slice());
    assert_eq!(rt; point.into_vec().as_slice(), [3].as_slice());
    Ok(())
}

#[test]
fn rows_that_can_be_named(rt: HostRuntime) -> Result<(), Fail> {
    let rows = inequalities(rt.alloc(), &[4], 0, &[-1], 5)?;
    let row = RowView {
        equal: false,
        coefficients: &[1],
        bound: 1,
    };
    let Ok(NormalForm::Atom(atom)) = normal(rt.alloc(), &row) else {
        panic!(rt; "no atom");
    };
    let view = rows.view();
    assert_eq!(rt; NamedRows::of(&view).count(), 2);
    let named = NamedRows::with_denial(&view, &atom);
    assert_eq!(rt; (named.columns(), named.count()), (1, 3));
    assert_eq!(rt;
        (named.equality_of(3), named.equality_of(4)),
        (Some(false), None)
    );
    let mut numbers = Vec::new(rt.alloc());
    named.push_numbers(&mut numbers, 1)?;
    named.push_numbers(&mut numbers, 3)?;
    assert_eq!(rt; numbers.as_slice(), [4, 0, -1, -2].as_slice());
    assert_eq!(rt; check_named(&named, &[(1, 1), (3, 4)]), CertAnswer::Proves);
    Ok(())
}
