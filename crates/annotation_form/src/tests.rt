ghost use Rattle.std.specs.Prelude.{◌≡◌, ◌≤◌, length, IfOk};
ghost use Rattle.thr_base.specs.Limits.{text_limit};
ghost use Rattle.predicate_sets.specs.Sets.{HasHome};
ghost use Rattle.std.specs.Prelude.{[]};
ghost use Rattle.thr_base.specs.declared.names.RuleName.TheVariants.{Rg};
ghost use Rattle.horn_rules.specs.inside.Worked.{worked_program};

use super::*;
use horn_rules::two_bare_threads;
use predicate_sets::Sets;
use std::alloc::{AllocError, Global};
use std::test::Fail;
use thr_base::{HomeNo, LineStop, RuleName, push_number};
use transition_formula::Program;

/// What a text of the program is read as; it has 10 homes.
fn read(alloc: Global, program: &Program, text: &[u8]) -> Result<Sets, LineStop>
    requires program { program.now ≡ worked_program }
    requires length { length text.now ≤ text_limit }
    ensures { IfOk result (λ sets. length sets ≡ 10) }
{
    read_predicates(alloc, program, text)
}

/// At the place from 0, the home has this atom.
fn stands_at(sets: &Sets, home: u32, place: usize, coefficients: &[i128], bound: i128) -> bool
    requires { HasHome sets.now home }
{
    let Ok(set) = sets.at(HomeNo(home)) else {
        return false;
    };
    if place < set.atoms().len() {
        let atom = &set.atoms()[place];
        atom.coefficients() == coefficients && atom.bound() == bound
    } else {
        false
    }
}

fn count(sets: &Sets, home: u32) -> Option<usize>
    requires { HasHome sets.now home }
{
    match sets.at(HomeNo(home)) {
        Ok(set) => Some(set.atoms().len()),
        Err(_) => None,
    }
}

#[test]
fn predicates_of_homes_in_the_order_of_lines(rt: HostRuntime) -> Result<(), Fail> {
    let alloc = rt.alloc();
    let program = two_bare_threads(alloc)?;
    let text = b"e 1 2 : t1.$pc - t2.$pc' <= 0
s 2 0 : t1.$pc <= 3
s 1 1 : -t2.$pc <= 4
s 2 0 : t1.$pc + 2*t2.$pc <= -1
end
";
    let sets = read(alloc, &program, text)?;
    assert!(rt; stands_at(&sets, 2, 0, &[0, -1], 4));
    assert!(rt; stands_at(&sets, 4, 0, &[1, 0], 3));
    assert!(rt; stands_at(&sets, 4, 1, &[1, 2], -1));
    assert!(rt; stands_at(&sets, 9, 0, &[1, 0, 0, -1], 0));
    assert_eq!(rt;
        (count(&sets, 1), count(&sets, 2), count(&sets, 4)),
        (Some(0), Some(1), Some(2))
    );
    let none = read(alloc, &program, b"end\n")?;
    assert_eq!(rt; (count(&none, 1), count(&none, 10)), (Some(0), Some(0)));
    Ok(())
}

/// The bad line of a text, if it has one.
fn bad_line(alloc: Global, program: &Program, text: &[u8]) -> Option<u32> {
    if text.len() > 10_000 {
        return None;
    }
    match read_predicates(alloc, program, text) {
        Err(LineStop::BadLine(line)) => Some(line),
        _ => None,
    }
}

/// The line is bad behind another one.
fn is_bad(alloc: Global, program: &Program, line: &[u8]) -> Result<bool, AllocError> {
    let mut text = Vec::from_slice(alloc, b"s 1 1 : t1.$pc <= 3\n")?;
    text.extend_from_slice(line)?;
    text.extend_from_slice(b"\nend\n")?;
    Ok(bad_line(alloc, program, text.as_slice()) == Some(2))
}

#[test]
fn lines_that_cannot_stand(rt: HostRuntime) -> Result<(), Fail> {
    let program = two_bare_threads(rt.alloc())?;
    let lines = b"s 1 3 : t1.$pc <= 1
s 0 1 : t1.$pc <= 1
s 3 1 : t1.$pc <= 1
e 1 0 : t1.$pc <= 1
e 1 3 : t1.$pc <= 1
e 2 2 : t1.$pc <= 1
s 01 1 : t1.$pc <= 1
s 1 01 : t1.$pc <= 1
s  1 1 : t1.$pc <= 1
s 1  1 : t1.$pc <= 1
s 1 1  : t1.$pc <= 1
s 1 1 :  t1.$pc <= 1
s 1 1 : t1.$pc <= 1\x20
\x20s 1 1 : t1.$pc <= 1
s 1 1: t1.$pc <= 1
s 1 1 t1.$pc <= 1
s 1 : t1.$pc <= 1
s 1 1 1 : t1.$pc <= 1
s 1 -0 : t1.$pc <= 1
s +1 1 : t1.$pc <= 1
s 1 4294967297 : t1.$pc <= 1
S 1 1 : t1.$pc <= 1
t 1 1 : t1.$pc <= 1
s 1 1 : 2*t1.$pc <= 4
s 1 1 : t1.$pc' <= 1
s 1 1 : t3.$pc <= 1
s 1 1 : t1.$pc <= 3
s 1 1 : t1.$pc <= 1\r
s 1 1 : \x20
end\x20

s 1 1";
    for line in lines.split(|b| *b == b'\n') {
        assert!(rt; is_bad(rt.alloc(), &program, line)?);
    }
    assert!(rt; !is_bad(rt.alloc(), &program, b"s 1 1 : t1.$pc <= 4")?);
    assert!(rt; !is_bad(rt.alloc(), &program, b"e 1 1 : t1.$pc' <= 3")?);
    Ok(())
}

#[test]
fn texts_that_end_badly(rt: HostRuntime) -> Result<(), Fail> {
    let alloc = rt.alloc();
    let program = two_bare_threads(alloc)?;
    assert_eq!(rt; bad_line(alloc, &program, b""), Some(1));
    assert_eq!(rt; bad_line(alloc, &program, b"end"), Some(1));
    assert_eq!(rt; bad_line(alloc, &program, b"\nend\n"), Some(1));
    assert_eq!(rt; bad_line(alloc, &program, b"end\n\n"), Some(2));
    assert_eq!(rt; bad_line(alloc, &program, b"end\nend\n"), Some(2));
    assert_eq!(rt; bad_line(alloc, &program, b"s 1 1 : t1.$pc <= 3"), Some(1));
    assert_eq!(rt;
        bad_line(alloc, &program, b"s 1 1 : t1.$pc <= 3\n"),
        Some(2)
    );
    assert_eq!(rt;
        bad_line(alloc, &program, b"s 1 1 : t1.$pc <= 3\nend"),
        Some(2)
    );
    assert_eq!(rt;
        bad_line(alloc, &program, b"s 1 1 : t1.$pc <= 3\nend\nx"),
        Some(3)
    );
    Ok(())
}

/// So many atoms at a home, and one at another behind them.
fn many(alloc: Global, atoms: u32) -> Result<Vec<u8>, AllocError> {
    let mut text = Vec::new(alloc);
    for bound in 0..atoms {
        text.extend_from_slice(b"s 1 1 : t1.$pc <= ")?;
        push_number(&mut text, bound as i128)?;
        text.extend_from_slice(b"\n")?;
    }
    text.extend_from_slice(b"s 1 2 : t1.$pc <= 0\nend\n")?;
    Ok(text)
}

/// How many atoms a text has at the second home.
fn count_read(alloc: Global, program: &Program, text: &[u8]) -> Option<usize>
    requires { program.now ≡ worked_program }
{
    if text.len() > 10_000 {
        return None;
    }
    match read(alloc, program, text) {
        Ok(sets) => count(&sets, 2),
        Err(_) => None,
    }
}

#[test]
fn a_home_has_at_most_128_atoms(rt: HostRuntime) -> Result<(), Fail> {
    let alloc = rt.alloc();
    let program = two_bare_threads(alloc)?;
    let most = many(alloc, 128)?;
    assert_eq!(rt; count_read(alloc, &program, most.as_slice()), Some(128));
    let more = many(alloc, 129)?;
    assert_eq!(rt; bad_line(alloc, &program, more.as_slice()), Some(129));
    Ok(())
}

/// An annotation over no predicates and no facts.
fn bare(alloc: Global) -> Result<Annotation, AllocError>
    ensures { IfOk result (λ made. made ≡ record { rule = Rg; sets = []; facts = []; certificates = []; groups = [] }) }
{
    let sets = Sets::new(alloc, 0)?;
    Ok(Annotation::new(alloc, RuleName::Rg, sets, Vec::new(alloc)))
}

#[test]
fn equal_certificates_have_one_number(rt: HostRuntime) -> Result<(), Fail> {
    let alloc = rt.alloc();
    let mut annotation = bare(alloc)?;
    assert_eq!(rt; annotation.push_cert(&[(3, 1), (7, 2)])?, 1);
    assert_eq!(rt; annotation.push_cert(&[])?, 2);
    if annotation.certificates() < 10 {
        assert_eq!(rt; annotation.push_cert(&[(3, 1), (7, 2)])?, 1);
    }
    if annotation.certificates() < 10 {
        assert_eq!(rt; annotation.push_cert(&[(3, 1), (7, 3)])?, 3);
    }
    assert_eq!(rt; annotation.certificates(), 3);
    if annotation.certificates() >= 3 {
        assert!(rt; annotation.cert(3) == [(3, 1), (7, 3)].as_slice());
        assert!(rt; annotation.cert(2).is_empty());
    }
    Ok(())
}

#[test]
fn laws_are_called() {
    passing_annotations_are_safe();
    passing_annotations_cover();
    one_line_is_bad_at_most();
    texts_tell_predicates();
    whole_annotations_are_of_their_program();
}
