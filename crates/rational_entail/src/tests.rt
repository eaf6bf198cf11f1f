ghost use Rattle.std.specs.Prelude.{◌≡◌, IfSome};
ghost use Rattle.std.specs.List.{AllByRecursion};
ghost use Rattle.thr_base.specs.Number.{Fits};
ghost use Rattle.lin_rows.specs.Normal.{reduced_row};
ghost use Rattle.lin_rows.specs.Atom.{inequality};

use super::*;
use farkas_cert::{CertAnswer, Decided, LeaveKind, check_cert, check_entails};
use lin_rows::{Atom, NormalForm, RowView, Rows, normal};
use std::alloc::Global;
use std::test::Fail;

fn atom_of(alloc: Global, coefficients: &[i128], bound: i128) -> Option<Atom>
    requires coefficients { AllByRecursion Fits coefficients.now }
    requires bound { Fits bound }
    ensures { IfSome result (λ atom. atom ≡ reduced_row (inequality coefficients.now bound)) }
{
    let row = RowView {
        equal: false,
        coefficients,
        bound,
    };
    match normal(alloc, &row) {
        Ok(NormalForm::Atom(atom)) => Some(atom),
        _ => None,
    }
}

fn is_point(decided: &Decided, x: &[i128], d: i128) -> bool {
    match decided {
        Decided::Point(numerators, denominator) => numerators.as_slice() == x && *denominator == d,
        _ => false,
    }
}

#[test]
fn rows_that_have_no_point(rt: HostRuntime) -> Result<(), Fail> {
    let mut bounds = Rows::new(rt.alloc(), 1);
    bounds.push(false, &[1], 0)?;
    bounds.push(false, &[-1], -1)?;
    let Decided::Refuted(cert) = decide(rt.alloc(), &bounds.view())? else {
        panic!(rt; "not refuted");
    };
    assert_eq!(rt; cert.pairs(), [(1, 1), (2, 1)].as_slice());
    let mut rows = Rows::new(rt.alloc(), 1);
    rows.push(false, &[2], 1)?;
    rows.push(false, &[-3], -6)?;
    let Decided::Refuted(cert) = decide(rt.alloc(), &rows.view())? else {
        panic!(rt; "not refuted");
    };
    assert_eq!(rt; check_cert(&rows.view(), cert.pairs()), CertAnswer::Proves);
    Ok(())
}

#[test]
fn rows_that_have_a_point(rt: HostRuntime) -> Result<(), Fail> {
    let mut half = Rows::new(rt.alloc(), 1);
    half.push(true, &[2], 1)?;
    let decided = decide(rt.alloc(), &half.view())?;
    assert!(rt; is_point(&decided, &[1], 2));
    let decided = decide(rt.alloc(), &Rows::new(rt.alloc(), 1).view())?;
    assert!(rt; is_point(&decided, &[0], 1));
    Ok(())
}

#[test]
fn the_tableau_is_asked_first(rt: HostRuntime) -> Result<(), Fail> {
    let mut above = Rows::new(rt.alloc(), 1);
    above.push(false, &[2], 5)?;
    let decided = decide(rt.alloc(), &above.view())?;
    assert!(rt; is_point(&decided, &[0], 1));
    // the elimination leaves
    let half = 85070591730234615865843651857942052864;
    let mut steep = Rows::new(rt.alloc(), 2);
    steep.push(false, &[half, 1], 0)?;
    steep.push(false, &[-half - 1, 1], 0)?;
    let decided = decide(rt.alloc(), &steep.view())?;
    assert!(rt; is_point(&decided, &[0, 0], 1));
    Ok(())
}

#[test]
fn the_elimination_is_asked_where_the_tableau_gives_up(rt: HostRuntime) -> Result<(), Fail> {
    let wide = 18446744073709551617;
    let mut below = Rows::new(rt.alloc(), 2);
    below.push(false, &[-1, 9223372036854775809], -1)?;
    below.push(false, &[-3, 0], -wide)?;
    let decided = decide(rt.alloc(), &below.view())?;
    assert!(rt; is_point(&decided, &[6148914691236517206, 0], 1));
    Ok(())
}

#[test]
fn an_atom_that_is_entailed(rt: HostRuntime) -> Result<(), Fail> {
    let mut rows = Rows::new(rt.alloc(), 2);
    rows.push(false, &[1, 1], 3)?;
    rows.push(true, &[1, -1], 0)?;
    let Some(atom) = atom_of(rt.alloc(), &[1, 0], 2) else {
        panic!(rt; "no atom");
    };
    let Entailed::Yes(cert) = entails(rt.alloc(), &rows.view(), &atom)? else {
        panic!(rt; "not entailed");
    };
    assert_eq!(rt;
        check_entails(&rows.view(), &atom, cert.pairs()),
        CertAnswer::Proves
    );
    Ok(())
}

#[test]
fn an_atom_that_is_not(rt: HostRuntime) -> Result<(), Fail> {
    let mut rows = Rows::new(rt.alloc(), 2);
    rows.push(false, &[1, 1], 3)?;
    rows.push(true, &[1, -1], 0)?;
    let Some(atom) = atom_of(rt.alloc(), &[1, 0], 0) else {
        panic!(rt; "no atom");
    };
    let Entailed::No(x, d) = entails(rt.alloc(), &rows.view(), &atom)? else {
        panic!(rt; "entailed");
    };
    assert_eq!(rt; (x.as_slice(), d), ([1, 1].as_slice(), 1));
    Ok(())
}

#[test]
fn rows_that_stay_undecided(rt: HostRuntime) -> Result<(), Fail> {
    let half = 85070591730234615865843651857942052864;
    let mut rows = Rows::new(rt.alloc(), 2);
    rows.push(false, &[half, 1], -1)?;
    rows.push(false, &[-half - 1, 1], -1)?;
    let Some(atom) = atom_of(rt.alloc(), &[1, 0], 5) else {
        panic!(rt; "no atom");
    };
    match entails(rt.alloc(), &rows.view(), &atom)? {
        Entailed::Leaves { stage, kind } => assert_eq!(rt; (stage, kind), (1, LeaveKind::Overflow)),
        _ => panic!(rt; "decided"),
    }
    Ok(())
}
