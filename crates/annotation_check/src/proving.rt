ghost use Rattle.std.specs.Prelude.{◌≡◌, ◌↔◌, ◌+◌, ◌^◌, ◌<◌, ◌≤◌, length, IfOk, IsTrue};
ghost use Rattle.std.specs.List.{AllByRecursion, Contains};
ghost use Rattle.thr_base.specs.Held.{positions};
ghost use Rattle.predicate_sets.specs.Sets.{HasHome, set_at};
ghost use Rattle.horn_rules.specs.Fact.{atoms_at};
ghost use Rattle.horn_rules.specs.Stored.{instance_of};
ghost use Rattle.annotation_form.specs.Annotation.{group_of, instances_of};
ghost use Rattle.annotation_form.specs.Passes.{ProvesCheck};
ghost use Rattle.annotation_form.specs.Whole.{IsWhole};
ghost use Rattle.annotation_check.specs.inside.Proving.{GivesFact, IsNumberOf, IsReady};

use crate::entailed::{entails_each, refutes};
use crate::stored_case::{StoredCase, case_of};
use annotation_form::{Annotation, Group};
use std::alloc::{AllocError, Global};
use thr_base::{Fact, Instance};
use transition_formula::Program;

/// Whether an instance gives a fact by these certificates, one for each of its atoms.
fn gives(
    alloc: Global,
    annotation: &Annotation,
    stored: &StoredCase,
    fact: Fact,
    certificates: &[u32],
) -> Result<bool, AllocError>
    requires home { HasHome annotation.now.sets fact.home.0 }
    requires held { fact.held < 2 ^ length (set_at annotation.now.sets fact.home.0) }
    requires one_each { length certificates.now ≡ length (atoms_at (set_at annotation.now.sets fact.home.0) (positions fact.held)) }
    requires numbers { AllByRecursion (IsNumberOf annotation.now.certificates) certificates.now }
    requires within { fact.home.0 ≡ stored.now.home.0 → AllByRecursion (λ atom. stored.now.before + length atom.coefficients ≤ stored.now.rows.columns) (set_at annotation.now.sets fact.home.0) }
    ensures { IfOk result (λ given. IsTrue given ↔ GivesFact annotation.now stored.now certificates.now fact) }
{
    if fact.home.0 != stored.home.0 {
        return Ok(false);
    }
    let set = annotation.sets().at(fact.home)?;
    entails_each(
        alloc,
        annotation,
        stored,
        set.atoms(),
        fact.held,
        certificates,
    )
}

/// Whether a group proves the check of an instance.
pub(crate) fn proves(
    alloc: Global,
    program: &Program,
    annotation: &Annotation,
    instance: Instance,
    group: &Group,
) -> Result<bool, AllocError>
    requires whole { IsWhole program.now annotation.now }
    requires instance { Contains (instances_of program.now annotation.now) (instance_of instance) }
    requires ready { IsReady program.now annotation.now (group_of group.now) }
    ensures { IfOk result (λ proved. IsTrue proved ↔ ProvesCheck program.now annotation.now (instance_of instance) (group_of group.now)) }
{
    let stored = case_of(alloc, program, annotation, instance)?;
    match group {
        Group::Refuted(c) => Ok(refutes(annotation, &stored, *c)),
        Group::Fact(n, certificates) => {
            let fact = annotation.facts()[*n as usize - 1];
            gives(alloc, annotation, &stored, fact, certificates.as_slice())
        }
    }
}
