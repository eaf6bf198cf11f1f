ghost use Rattle.std.specs.Prelude.{◌≡◌, ◌↔◌, map, IfOk};
ghost use Rattle.horn_rules.specs.Cover.{NoRunFails};
ghost use Rattle.horn_rules.specs.Stored.{instance_of};
ghost use Rattle.annotation_form.specs.Annotation.{instances_of};
ghost use Rattle.annotation_form.specs.Passes.{Passes};
ghost use Rattle.annotation_form.specs.Whole.{IsWhole};
ghost use Rattle.annotation_check.specs.Checks.{IsCheckAnswer};
ghost use Rattle.annotation_check.specs.inside.Proving.{IsFirst};

use crate::answer::{CheckAnswer, CheckRule, instance_rule};
use crate::facts::none_fails;
use crate::proving::proves;
use annotation_form::{Annotation, instances, passing_annotations_are_safe};
use std::alloc::{AllocError, Global};
use thr_base::Instance;
use transition_formula::Program;

/// The place, from 0, of the first instance whose check is not proved.
fn first_unproved(
    alloc: Global,
    program: &Program,
    annotation: &Annotation,
    instances: &[Instance],
) -> Result<Option<usize>, AllocError>
    requires whole { IsWhole program.now annotation.now }
    requires instances { map instance_of instances.now ≡ instances_of program.now annotation.now }
    ensures { IfOk result (IsFirst program.now annotation.now) }
{
    let groups = annotation.groups();
    for place in 0..instances.len() {
        if !proves(alloc, program, annotation, instances[place], &groups[place])? {
            return Ok(Some(place));
        }
    }
    Ok(None)
}

/// Whether an annotation passes, and else which check is the first that is not proved: those of instances in their order, and the last
/// one, that no fact is at location 0 of a thread.
pub fn check(
    alloc: Global,
    program: &Program,
    annotation: &Annotation,
) -> Result<CheckAnswer, AllocError>
    requires { IsWhole program.now annotation.now }
    ensures answer { IfOk result (IsCheckAnswer program.now annotation.now) }
    ensures accepted { IfOk result (λ answer. (answer ≡ CheckAnswer.Accepted) ↔ Passes program.now annotation.now) }
    ensures safe { IfOk result (λ answer. answer ≡ CheckAnswer.Accepted → NoRunFails program.now) }
{
    passing_annotations_are_safe();
    let _ = program.threads(); // its contract says that `program` is one
    let instances = instances(alloc, program, annotation)?;
    let count = annotation.groups().len();
    let first = first_unproved(alloc, program, annotation, instances.as_slice())?;
    if let Some(place) = first {
        return Ok(CheckAnswer::Rejected {
            rule: instance_rule(instances[place]),
            number: place as u32 + 1,
        });
    }
    if none_fails(program, annotation.facts()) {
        Ok(CheckAnswer::Accepted)
    } else {
        Ok(CheckAnswer::Rejected {
            rule: CheckRule::Assertion,
            number: count as u32 + 1,
        })
    }
}
