use super::*;
use core_steps::Reason;
use std::test::Fail;
use thr_base::{EdgeNo, FactId, Home, Instance, Loc, ThreadNo};

#[test]
fn words_of_instances(rt: HostRuntime) -> Result<(), Fail> {
    let mut out = Vec::new(rt.alloc());
    push_instance(&mut out, Instance::Init(ThreadNo(2)))?;
    push_instance(&mut out, Instance::Own(FactId(3), EdgeNo(1)))?;
    push_instance(&mut out, Instance::Guar(FactId(12), EdgeNo(4)))?;
    push_instance(&mut out, Instance::Env(FactId(5), FactId(6)))?;
    push_instance(&mut out, Instance::Inter(FactId(7), FactId(8), EdgeNo(9)))?;
    assert!(rt; out.as_slice() == b"init 2own 3 1guar 12 4env 5 6inter 7 8 9".as_slice());
    Ok(())
}

#[test]
fn words_of_reasons(rt: HostRuntime) -> Result<(), Fail> {
    let mut out = Vec::new(rt.alloc());
    push_reason(&mut out, &Reason::Facts(40))?;
    push_reason(&mut out, &Reason::Jobs(7))?;
    push_reason(&mut out, &Reason::Refinements(0))?;
    push_reason(
        &mut out,
        &Reason::Predicates(Home::State(ThreadNo(1), Loc(0))),
    )?;
    push_reason(&mut out, &Reason::Memory)?;
    assert!(rt; out.as_slice() == b"facts 40jobs 7refinements 0predicates s 1 0memory".as_slice());
    Ok(())
}
