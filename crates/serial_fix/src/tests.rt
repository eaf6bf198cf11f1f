use super::*;
use horn_rules::{home_count, two_bare_threads};
use predicate_sets::Sets;
use std::alloc::{AllocError, Global};
use std::test::Fail;
use thr_base::{DEFAULT_LIMITS, Limits};

/// How a run without predicates ends on two threads, with the number of its facts.
#[derive(Clone, Copy, Debug, PartialEq, Eq)]
enum End {
    Facts(usize),
    Leaves,
    TooManyFacts,
    TooManyJobs,
}

fn ends(alloc: Global, facts: u32, jobs: u32) -> Result<End, AllocError> {
    let program = two_bare_threads(alloc)?;
    let sets = Sets::new(alloc, home_count(&program))?;
    let limits = Limits {
        facts,
        jobs,
        ..DEFAULT_LIMITS
    };
    let answer = least(alloc, &program, &sets, limits)?;
    Ok(match answer {
        LeastAnswer::Facts(found) => End::Facts(found.len()),
        LeastAnswer::Leaves => End::Leaves,
        LeastAnswer::TooManyFacts => End::TooManyFacts,
        LeastAnswer::TooManyJobs => End::TooManyJobs,
    })
}

#[test]
fn a_run_ends_within_its_limits(rt: HostRuntime) -> Result<(), Fail> {
    let alloc = rt.alloc();
    assert_eq!(rt; ends(alloc, 4_096, 200_000)?, End::Facts(8));
    assert_eq!(rt; ends(alloc, 8, 15)?, End::Facts(8));
    Ok(())
}

#[test]
fn a_further_fact_ends_a_run(rt: HostRuntime) -> Result<(), Fail> {
    let alloc = rt.alloc();
    assert_eq!(rt; ends(alloc, 7, 200_000)?, End::TooManyFacts);
    assert_eq!(rt; ends(alloc, 1, 2)?, End::TooManyFacts);
    Ok(())
}

#[test]
fn a_further_instance_ends_a_run(rt: HostRuntime) -> Result<(), Fail> {
    let alloc = rt.alloc();
    assert_eq!(rt; ends(alloc, 4_096, 14)?, End::TooManyJobs);
    assert_eq!(rt; ends(alloc, 1, 1)?, End::TooManyJobs);
    Ok(())
}
