ghost use Rattle.std.specs.Prelude.{◌≡◌, ◌+◌, ◌-◌, ◌^◌, ◌<◌, ◌++◌, length, map, IfOk, OnOk};
ghost use Rattle.std.specs.List.{AllByRecursion};
ghost use Rattle.transition_formula.specs.Stored.{edge_of};
ghost use Rattle.horn_rules.specs.Home.{by_number, IsHomeOf};
ghost use Rattle.horn_rules.specs.Instance.{Guar, Inter, Own};
ghost use Rattle.horn_rules.specs.Instances.{edges_from, init_instances, number_from};
ghost use Rattle.horn_rules.specs.Stored.{home_numbered, home_of, instance_of, HasItsHome};
ghost use Rattle.annotation_form.specs.Annotation.{instances_of};
ghost use Rattle.annotation_form.specs.Passes.{IsOfProgram};
ghost use Rattle.annotation_form.specs.inside.Listing.{env_at, guar_at, instances_at, inter_at, own_at};

use crate::annotation::Annotation;
use horn_rules::{named, of_another, tells_another};
use std::alloc::{AllocError, Global};
use thr_base::{EdgeNo, Fact, FactId, Home, Instance, Loc, RuleName, ThreadNo};
use transition_formula::{Edge, Program};

/// Appends the number of an edge, if it leads on from the location.
fn push_if_from(found: &mut Vec<EdgeNo>, e: EdgeNo, edge: &Edge, l: Loc) -> Result<(), AllocError>
    ensures { OnOk result (map (λ e. e.0) found.new.items ≡ map (λ e. e.0) found.old.items ++ number_from l.0 e.0 (edge_of edge.now)) }
{
    if edge.from != l {
        return Ok(());
    }
    found.push(e)?;
    Ok(())
}

/// The numbers of the edges that lead on from a location. More than can be numbered count as want of memory.
fn edges_on(alloc: Global, edges: &[Edge], l: Loc) -> Result<Vec<EdgeNo>, AllocError>
    ensures { IfOk result (λ found. map (λ e. e.0) found.items ≡ by_number (number_from l.0) 1 (map edge_of edges.now)) }
{
    if edges.len() >= u32::MAX as usize {
        return Err(AllocError);
    }
    let mut found = Vec::new(alloc);
    for place in 0..edges.len() {
        push_if_from(&mut found, EdgeNo(place as u32 + 1), &edges[place], l)?;
    }
    Ok(found)
}

/// The numbers of the edges that lead on from a home.
fn edges_from(alloc: Global, program: &Program, home: Home) -> Result<Vec<EdgeNo>, AllocError>
    requires { IsHomeOf program.now (home_of home) }
    ensures { IfOk result (λ found. map (λ e. e.0) found.items ≡ edges_from program.now (home_of home)) }
{
    match home {
        Home::State(i, l) => edges_on(alloc, program.edges(i), l),
        Home::Env(..) => Ok(Vec::new(alloc)),
    }
}

/// Appends the starts of all threads.
fn push_inits(out: &mut Vec<Instance>, program: &Program) -> Result<(), AllocError>
    ensures { OnOk result (map instance_of out.new.items ≡ map instance_of out.old.items ++ init_instances program.now) }
{
    for i in 0..program.threads() {
        out.push(Instance::Init(ThreadNo(i + 1)))?;
    }
    Ok(())
}

fn push_own(out: &mut Vec<Instance>, n: FactId, edges: &[EdgeNo]) -> Result<(), AllocError>
    ensures { OnOk result (map instance_of out.new.items ≡ map instance_of out.old.items ++ map (Own n.0) (map (λ e. e.0) edges.now)) }
{
    for e in edges {
        out.push(Instance::Own(n, *e))?;
    }
    Ok(())
}

fn push_guar(out: &mut Vec<Instance>, n: FactId, edges: &[EdgeNo]) -> Result<(), AllocError>
    ensures { OnOk result (map instance_of out.new.items ≡ map instance_of out.old.items ++ map (Guar n.0) (map (λ e. e.0) edges.now)) }
{
    for e in edges {
        out.push(Instance::Guar(n, *e))?;
    }
    Ok(())
}

fn push_inter(
    out: &mut Vec<Instance>,
    n: FactId,
    m: FactId,
    edges: &[EdgeNo],
) -> Result<(), AllocError>
    ensures { OnOk result (map instance_of out.new.items ≡ map instance_of out.old.items ++ map (Inter n.0 m.0) (map (λ e. e.0) edges.now)) }
{
    for e in edges {
        out.push(Instance::Inter(n, m, *e))?;
    }
    Ok(())
}

/// Appends the own steps of all facts.
fn push_owns(
    alloc: Global,
    out: &mut Vec<Instance>,
    program: &Program,
    homes: &[Home],
) -> Result<(), AllocError>
    requires few { length homes.now < 2 ^ 32 - 1 }
    requires homes { AllByRecursion (λ home. IsHomeOf program.now (home_of home)) homes.now }
    ensures { OnOk result (map instance_of out.new.items ≡ map instance_of out.old.items ++ by_number (own_at program.now) 1 (map home_of homes.now)) }
{
    for place in 0..homes.len() {
        let edges = edges_from(alloc, program, homes[place])?;
        push_own(out, FactId(place as u32 + 1), edges.as_slice())?;
    }
    Ok(())
}

/// Appends those steps as the other threads see them.
fn push_guars(
    alloc: Global,
    out: &mut Vec<Instance>,
    program: &Program,
    homes: &[Home],
) -> Result<(), AllocError>
    requires few { length homes.now < 2 ^ 32 - 1 }
    requires homes { AllByRecursion (λ home. IsHomeOf program.now (home_of home)) homes.now }
    ensures { OnOk result (map instance_of out.new.items ≡ map instance_of out.old.items ++ by_number (guar_at program.now) 1 (map home_of homes.now)) }
{
    for place in 0..homes.len() {
        let edges = edges_from(alloc, program, homes[place])?;
        push_guar(out, FactId(place as u32 + 1), edges.as_slice())?;
    }
    Ok(())
}

/// Appends what is left of a step at a fact, if it is told of another thread.
fn push_if_told(
    out: &mut Vec<Instance>,
    n: FactId,
    home: Home,
    m: FactId,
    told: Home,
) -> Result<(), AllocError>
    ensures { OnOk result (map instance_of out.new.items ≡ map instance_of out.old.items ++ env_at n.0 (home_of home) m.0 (home_of told)) }
{
    if !tells_another(home, told) {
        return Ok(());
    }
    out.push(Instance::Env(n, m))?;
    Ok(())
}

/// Appends what told steps leave at a fact.
fn push_env(
    out: &mut Vec<Instance>,
    n: FactId,
    home: Home,
    homes: &[Home],
) -> Result<(), AllocError>
    requires few { length homes.now < 2 ^ 32 - 1 }
    ensures { OnOk result (map instance_of out.new.items ≡ map instance_of out.old.items ++ by_number (env_at n.0 (home_of home)) 1 (map home_of homes.now)) }
{
    for place in 0..homes.len() {
        push_if_told(out, n, home, FactId(place as u32 + 1), homes[place])?;
    }
    Ok(())
}

/// Appends what told steps leave at all facts.
fn push_envs(out: &mut Vec<Instance>, homes: &[Home]) -> Result<(), AllocError>
    requires few { length homes.now < 2 ^ 32 - 1 }
    ensures { OnOk result (map instance_of out.new.items ≡ map instance_of out.old.items ++ by_number (λ n home. by_number (env_at n home) 1 (map home_of homes.now)) 1 (map home_of homes.now)) }
{
    for place in 0..homes.len() {
        push_env(out, FactId(place as u32 + 1), homes[place], homes)?;
    }
    Ok(())
}

/// Appends what is left of steps from another fact at a fact, if they are of two threads.
fn push_if_apart(
    alloc: Global,
    out: &mut Vec<Instance>,
    program: &Program,
    n: FactId,
    home: Home,
    m: FactId,
    other: Home,
) -> Result<(), AllocError>
    requires { IsHomeOf program.now (home_of other) }
    ensures { OnOk result (map instance_of out.new.items ≡ map instance_of out.old.items ++ inter_at program.now n.0 (home_of home) m.0 (home_of other)) }
{
    if !of_another(home, other) {
        return Ok(());
    }
    let edges = edges_from(alloc, program, other)?;
    push_inter(out, n, m, edges.as_slice())
}

/// Appends what the steps from the other facts leave at a fact.
fn push_inters_at(
    alloc: Global,
    out: &mut Vec<Instance>,
    program: &Program,
    n: FactId,
    home: Home,
    homes: &[Home],
) -> Result<(), AllocError>
    requires few { length homes.now < 2 ^ 32 - 1 }
    requires homes { AllByRecursion (λ home. IsHomeOf program.now (home_of home)) homes.now }
    ensures { OnOk result (map instance_of out.new.items ≡ map instance_of out.old.items ++ by_number (inter_at program.now n.0 (home_of home)) 1 (map home_of homes.now)) }
{
    for place in 0..homes.len() {
        let m = FactId(place as u32 + 1);
        push_if_apart(alloc, out, program, n, home, m, homes[place])?;
    }
    Ok(())
}

/// Appends what the steps from facts leave at all facts.
fn push_inters(
    alloc: Global,
    out: &mut Vec<Instance>,
    program: &Program,
    homes: &[Home],
) -> Result<(), AllocError>
    requires few { length homes.now < 2 ^ 32 - 1 }
    requires homes { AllByRecursion (λ home. IsHomeOf program.now (home_of home)) homes.now }
    ensures { OnOk result (map instance_of out.new.items ≡ map instance_of out.old.items ++ by_number (λ n home. by_number (inter_at program.now n home) 1 (map home_of homes.now)) 1 (map home_of homes.now)) }
{
    for place in 0..homes.len() {
        push_inters_at(
            alloc,
            out,
            program,
            FactId(place as u32 + 1),
            homes[place],
            homes,
        )?;
    }
    Ok(())
}

/// All instances of a rule over facts at these homes.
pub(crate) fn instances_at(
    alloc: Global,
    program: &Program,
    rule: RuleName,
    homes: &[Home],
) -> Result<Vec<Instance>, AllocError>
    requires few { length homes.now < 2 ^ 32 - 1 }
    requires homes { AllByRecursion (λ home. IsHomeOf program.now (home_of home)) homes.now }
    ensures { IfOk result (λ instances. map instance_of instances.items ≡ instances_at program.now rule (map home_of homes.now)) }
{
    let mut out = Vec::new(alloc);
    push_inits(&mut out, program)?;
    push_owns(alloc, &mut out, program, homes)?;
    match rule {
        RuleName::Rg => {
            push_guars(alloc, &mut out, program, homes)?;
            push_envs(&mut out, homes)?;
        }
        RuleName::Og => push_inters(alloc, &mut out, program, homes)?,
    }
    Ok(out)
}

/// The homes of facts.
fn homes_of(alloc: Global, program: &Program, facts: &[Fact]) -> Result<Vec<Home>, AllocError>
    requires { AllByRecursion (HasItsHome program.now) facts.now }
    ensures { IfOk result (λ found. map home_of found.items ≡ map (λ fact. home_numbered program.now fact.home.0) facts.now) }
{
    let mut found = Vec::new(alloc);
    for fact in facts {
        found.push(named(program, fact.home))?;
    }
    Ok(found)
}

/// The instances of an annotation's rule over its facts, in their order: there is a check for each.
pub fn instances(
    alloc: Global,
    program: &Program,
    annotation: &Annotation,
) -> Result<Vec<Instance>, AllocError>
    requires { IsOfProgram program.now annotation.now }
    ensures { IfOk result (λ found. map instance_of found.items ≡ instances_of program.now annotation.now) }
{
    let homes = homes_of(alloc, program, annotation.facts())?;
    let found = instances_at(alloc, program, annotation.rule(), homes.as_slice())?;
    Ok(found)
}
