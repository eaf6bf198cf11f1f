ghost use Rattle.std.specs.Prelude.{◌≡◌, Some, IsSome, IfOk, option_map};
ghost use Rattle.std.specs.List.{AllByRecursion, Contains};
ghost use Rattle.predicate_sets.specs.Sets.{HasHome};
ghost use Rattle.transition_formula.specs.Program.{at_number};
ghost use Rattle.horn_rules.specs.Home as homes_of;
ghost use Rattle.horn_rules.specs.Home.{homes};
ghost use Rattle.horn_rules.specs.Case.{Case};
ghost use Rattle.horn_rules.specs.Instance.{premises_of};
ghost use Rattle.horn_rules.specs.Stored.{home_of, instance_of};
ghost use Rattle.annotation_form.specs.Annotation.{instances_of};
ghost use Rattle.annotation_form.specs.Whole.{IsWhole};
ghost use Rattle.annotation_check.specs.inside.Cases.{ArePremises, ComesTo, IsPremiseOf, IsStoredCase, LeadsTo, HasItsHome, place_of};

use annotation_form::Annotation;
use horn_rules::{Job, Premise, in_front, instance_rows, named, number, target};
use lin_rows::Rows;
use std::alloc::{AllocError, Global};
use thr_base::{Epoch, FactId, Home, HomeNo, Instance};
use transition_formula::Program;

/// What an instance comes to: its rows, how many of their columns stand in front of those of an atom, and the home of its fact.
#[derive(Drop)]
pub(crate) struct StoredCase {
    pub(crate) rows: Rows,
    pub(crate) before: u32,
    pub(crate) home: HomeNo,
}

/// A fact of an annotation as a premise.
fn premise(annotation: &Annotation, n: FactId) -> Result<Premise, AllocError>
    requires homes { AllByRecursion (λ fact. HasHome annotation.now.sets fact.home.0) annotation.now.facts }
    requires there { IsSome (at_number annotation.now.facts n.0) }
    ensures id { IfOk result (λ premise. premise.id ≡ n) }
    ensures premise { IfOk result (IsPremiseOf annotation.now) }
{
    let fact = annotation.facts()[n.0 as usize - 1];
    let set = annotation.sets().at(fact.home)?;
    Ok(Premise { id: n, fact, set })
}

/// The premises of an instance, in the order in which it names them.
fn premises(
    annotation: &Annotation,
    instance: Instance,
) -> Result<(Option<Premise>, Option<Premise>), AllocError>
    requires homes { AllByRecursion (λ fact. HasHome annotation.now.sets fact.home.0) annotation.now.facts }
    requires there { AllByRecursion (λ n. IsSome (at_number annotation.now.facts n)) (premises_of (instance_of instance)) }
    ensures { IfOk result (λ found. ArePremises annotation.now (instance_of instance) found.0 found.1) }
{
    match instance {
        Instance::Init(_) => Ok((None, None)),
        Instance::Own(f, _) => Ok((Some(premise(annotation, f)?), None)),
        Instance::Guar(f, _) => Ok((Some(premise(annotation, f)?), None)),
        Instance::Env(f, t) => {
            let first = premise(annotation, f)?;
            let second = premise(annotation, t)?;
            Ok((Some(first), Some(second)))
        }
        Instance::Inter(f, g, _) => {
            let first = premise(annotation, f)?;
            let second = premise(annotation, g)?;
            Ok((Some(first), Some(second)))
        }
    }
}

/// Where a premise stands, if it is there.
fn place_of(program: &Program, premise: &Option<Premise>) -> Option<Home>
    requires { HasItsHome program.now premise.now }
    ensures { option_map home_of result ≡ place_of program.now premise.now }
{
    match premise {
        Some(premise) => Some(named(program, premise.fact.home)),
        None => None,
    }
}

/// The home of which an instance gives a fact.
fn target_home(
    program: &Program,
    instance: Instance,
    first: &Option<Premise>,
    second: &Option<Premise>,
) -> HomeNo
    requires first { HasItsHome program.now first.now }
    requires second { HasItsHome program.now second.now }
    requires leads { (home : homes_of.Home) × LeadsTo program.now (instance_of instance) first.now second.now home }
    ensures { (home : homes_of.Home) → LeadsTo program.now (instance_of instance) first.now second.now home → at_number (homes program.now) result.0 ≡ Some home }
{
    let one = place_of(program, first);
    let other = place_of(program, second);
    match target(program, instance, one, other) {
        Some(home) => number(program, home),
        None => unreachable!(),
    }
}

/// What an instance over the facts of an annotation comes to. Its rows are made here alone.
pub(crate) fn case_of(
    alloc: Global,
    program: &Program,
    annotation: &Annotation,
    instance: Instance,
) -> Result<StoredCase, AllocError>
    requires whole { IsWhole program.now annotation.now }
    requires instance { Contains (instances_of program.now annotation.now) (instance_of instance) }
    ensures { IfOk result (λ stored. (given : Case) → ComesTo program.now annotation.now (instance_of instance) given → IsStoredCase program.now given stored) }
{
    let _ = program.threads(); // its contract says that `program` is one
    let (first, second) = premises(annotation, instance)?;
    let home = target_home(program, instance, &first, &second);
    let target = annotation.sets().at(home)?;
    let job = Job {
        program,
        worker: 1,
        instance,
        home,
        epoch: Epoch(0),
        first,
        second,
        target,
    };
    let rows = instance_rows(alloc, program, &job)?;
    let before = in_front(program.columns(), instance);
    Ok(StoredCase { rows, before, home })
}
