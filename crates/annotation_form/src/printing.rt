ghost use Rattle.std.specs.Prelude.{◌≡◌, ◌+◌, ◌++◌, ◌∷◌, ◌<◌, ◌≤◌, ◌^◌, [], map, pos, codes, drop, length, flat_map, IfOk, OnOk};
ghost use Rattle.std.specs.List.{AllByRecursion};
ghost use Rattle.thr_base.specs.Number.{Fits, number_text};
ghost use Rattle.farkas_cert.specs.Cert.{Pairs};
ghost use Rattle.horn_rules.specs.Home.{homes, IsHomeOf};
ghost use Rattle.horn_rules.specs.Fact.{IsAtomOf};
ghost use Rattle.horn_rules.specs.Stored.{fact_of, facts_of, home_of, HasItsHome, AreStoredSetsOf};
ghost use Rattle.annotation_form.specs.Annotation.{Gives, group_of};
ghost use Rattle.annotation_form.specs.AnnotationText.{Holds, Listed, Refutes, Entails, GivesFact, certificate_at, fact_text, group_lines, heading, line_text, pair_text, pairs_text, predicate_lines, text_of_annotation};
ghost use Rattle.annotation_form.specs.Certificates.{AreListed};
ghost use Rattle.annotation_form.specs.Whole.{IsWhole, named_by};
ghost use Rattle.annotation_form.specs.inside.Printing.{AllFit, AreThere, IsThere, shown};

use crate::annotation::{Annotation, Group};
use crate::head::is_at_edge;
use horn_rules::{home_count, named, push_fact, push_home};
use lin_rows::Atom;
use predicate_sets::Sets;
use std::alloc::{AllocError, Global};
use thr_base::{Fact, Home, HomeNo, RuleName, push_number};
use transition_formula::{Program, push_atom};

fn push_heading(text: &mut Vec<u8>, rule: RuleName) -> Result<(), AllocError>
    ensures { OnOk result (text.new.items ≡ text.old.items ++ (heading rule ++ codes "\n")) }
{
    match rule {
        RuleName::Rg => text.extend_from_slice(b"SAFE 1 rg\n"),
        RuleName::Og => text.extend_from_slice(b"SAFE 1 og\n"),
    }
}

/// Appends the line of a predicate.
fn push_predicate(
    text: &mut Vec<u8>,
    program: &Program,
    home: Home,
    atom: &Atom,
) -> Result<(), AllocError>
    requires { IsAtomOf program.now (home_of home) atom.now }
    ensures { OnOk result (text.new.items ≡ text.old.items ++ shown program.now (Holds (record { home = home_of home; atom = atom.now }) ∷ [])) }
{
    text.extend_from_slice(b"p ")?;
    push_home(text, home)?;
    text.extend_from_slice(b" : ")?;
    push_atom(text, program, atom, is_at_edge(home))?;
    text.extend_from_slice(b"\n")
}

/// Appends the lines of a home's predicates.
fn push_atoms(
    text: &mut Vec<u8>,
    program: &Program,
    home: Home,
    atoms: &[Atom],
) -> Result<(), AllocError>
    requires { AllByRecursion (IsAtomOf program.now (home_of home)) atoms.now }
    ensures { OnOk result (text.new.items ≡ text.old.items ++ shown program.now (map (λ atom. Holds (record { home = home_of home; atom = atom })) atoms.now)) }
{
    for atom in atoms {
        push_predicate(text, program, home, atom)?;
    }
    Ok(())
}

/// Appends the lines of predicates.
fn push_predicates(text: &mut Vec<u8>, program: &Program, sets: &Sets) -> Result<(), AllocError>
    requires { AreStoredSetsOf program.now sets.now }
    ensures { OnOk result (text.new.items ≡ text.old.items ++ shown program.now (predicate_lines (homes program.now) sets.now)) }
{
    let count = home_count(program);
    for n in 0..count {
        let home = HomeNo(n + 1);
        let set = sets.at(home)?;
        push_atoms(text, program, named(program, home), set.atoms())?;
    }
    Ok(())
}

/// Appends the lines of facts.
fn push_facts(text: &mut Vec<u8>, program: &Program, facts: &[Fact]) -> Result<(), AllocError>
    requires { AllByRecursion (HasItsHome program.now) facts.now }
    ensures { OnOk result (text.new.items ≡ text.old.items ++ shown program.now (map Listed (facts_of program.now facts.now))) }
{
    for fact in facts {
        text.extend_from_slice(b"f ")?;
        push_fact(text, program, fact)?;
    }
    Ok(())
}

/// Appends a row and its multiplier.
fn push_pair(text: &mut Vec<u8>, row: u32, multiplier: i128) -> Result<(), AllocError>
    requires { Fits multiplier }
    ensures { OnOk result (text.new.items ≡ text.old.items ++ pair_text (row, multiplier)) }
{
    text.extend_from_slice(b" ")?;
    push_number(text, i128::from(row))?;
    text.extend_from_slice(b":")?;
    push_number(text, multiplier)
}

/// Appends the pairs of a certificate.
fn push_pairs(text: &mut Vec<u8>, pairs: &[(u32, i128)]) -> Result<(), AllocError>
    requires { AllFit pairs.now }
    ensures { OnOk result (text.new.items ≡ text.old.items ++ pairs_text pairs.now) }
{
    for pair in pairs {
        push_pair(text, pair.0, pair.1)?;
    }
    Ok(())
}

/// Appends the line of the certificate with a number, behind a letter.
fn push_cert(
    text: &mut Vec<u8>,
    annotation: &Annotation,
    letter: &[u8],
    n: u32,
) -> Result<(), AllocError>
    requires { IsThere annotation.now.certificates n }
    ensures { OnOk result (text.new.items ≡ text.old.items ++ (letter.now ++ pairs_text (certificate_at annotation.now.certificates n) ++ codes "\n")) }
{
    let _ = annotation.certificates(); // its contract says that certificates are in order
    text.extend_from_slice(letter)?;
    push_pairs(text, annotation.cert(n))?;
    text.extend_from_slice(b"\n")
}

/// Appends the lines of the certificates of atoms.
fn push_entailed(
    text: &mut Vec<u8>,
    program: &Program,
    annotation: &Annotation,
    numbers: &[u32],
) -> Result<(), AllocError>
    requires { AreThere annotation.now.certificates numbers.now }
    ensures { OnOk result (text.new.items ≡ text.old.items ++ shown program.now (map (λ c. Entails (certificate_at annotation.now.certificates c)) numbers.now)) }
{
    for n in numbers {
        push_cert(text, annotation, b"a", *n)?;
    }
    Ok(())
}

/// Appends the line with the number of the fact that is given.
fn push_given(text: &mut Vec<u8>, program: &Program, n: u32) -> Result<(), AllocError>
    ensures { OnOk result (text.new.items ≡ text.old.items ++ shown program.now (GivesFact n ∷ [])) }
{
    text.extend_from_slice(b"t ")?;
    push_number(text, i128::from(n))?;
    text.extend_from_slice(b"\n")
}

/// Appends the lines of a group.
fn push_group(
    text: &mut Vec<u8>,
    program: &Program,
    annotation: &Annotation,
    group: &Group,
) -> Result<(), AllocError>
    requires { AreThere annotation.now.certificates (named_by (group_of group.now)) }
    ensures { OnOk result (text.new.items ≡ text.old.items ++ shown program.now (group_lines annotation.now.certificates (group_of group.now))) }
{
    match group {
        Group::Refuted(c) => push_cert(text, annotation, b"r", *c),
        Group::Fact(n, numbers) => {
            push_given(text, program, *n)?;
            push_entailed(text, program, annotation, numbers.as_slice())
        }
    }
}

/// Appends the lines of groups.
fn push_groups(
    text: &mut Vec<u8>,
    program: &Program,
    annotation: &Annotation,
    groups: &[Group],
) -> Result<(), AllocError>
    requires { AllByRecursion (λ group. AreThere annotation.now.certificates (named_by (group_of group))) groups.now }
    ensures { OnOk result (text.new.items ≡ text.old.items ++ shown program.now (flat_map (group_lines annotation.now.certificates) (map group_of groups.now))) }
{
    for group in groups {
        push_group(text, program, annotation, group)?;
    }
    Ok(())
}

/// The text of an annotation.
pub fn print_annotation(
    alloc: Global,
    program: &Program,
    annotation: &Annotation,
) -> Result<Vec<u8>, AllocError>
    requires { IsWhole program.now annotation.now }
    ensures { IfOk result (λ text. text.items ≡ text_of_annotation program.now annotation.now) }
{
    let mut text = Vec::new(alloc);
    push_heading(&mut text, annotation.rule())?;
    push_predicates(&mut text, program, annotation.sets())?;
    push_facts(&mut text, program, annotation.facts())?;
    push_groups(&mut text, program, annotation, annotation.groups())?;
    text.extend_from_slice(b"end\n")?;
    Ok(text)
}
