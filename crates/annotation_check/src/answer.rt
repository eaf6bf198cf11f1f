ghost use Rattle.std.specs.Prelude.{◌≡◌};
ghost use Rattle.horn_rules.specs.Stored.{instance_of};
ghost use Rattle.annotation_check.specs.Checks.{instance_rule};

use thr_base::Instance;

/// What a check is of: a thread's start, its own step, what that gives to the other threads, what steps of others leave, and that no
/// fact is at a failing location.
#[derive(Clone, Copy, Debug, PartialEq, Eq)]
pub enum CheckRule {
    Initiation,
    Sequential,
    Guarantee,
    Interference,
    Assertion,
}

/// An annotation passes, or the check with this number, from 1 among all, is the first that is not proved.
#[derive(Clone, Copy, Debug, PartialEq, Eq)]
pub enum CheckAnswer {
    Accepted,
    Rejected { rule: CheckRule, number: u32 },
}

/// The rule of an instance's check.
pub(crate) fn instance_rule(instance: Instance) -> CheckRule
    ensures { result ≡ instance_rule (instance_of instance) }
{
    match instance {
        Instance::Init(_) => CheckRule::Initiation,
        Instance::Own(..) => CheckRule::Sequential,
        Instance::Guar(..) => CheckRule::Guarantee,
        Instance::Env(..) | Instance::Inter(..) => CheckRule::Interference,
    }
}
