ghost use Rattle.std.specs.Prelude.{◌≡◌, ◌≤◌, ◌<◌, ◌+◌, ◌^◌, Some, None, IsSome, length, option_map};
ghost use Rattle.horn_rules.specs.Stored.{home_of, instance_of};
ghost use Rattle.horn_rules.specs.Target.{target_at};
ghost use Rattle.derivation_tree.specs.Facts.{home_at, AreKept};
ghost use Rattle.derivation_tree.specs.Kept.{kept_facts_of};
ghost use Rattle.derivation_tree.specs.Tree.{thread_of, place_of};
ghost use Rattle.cex_tree.specs.Grown.{IsGrowAnswer};
ghost use Rattle.cex_tree.specs.inside.Flat.{shape_of};
ghost use Rattle.cex_tree.specs.inside.Growing.{StandsWith, Stands, tree_at, IsInitNode, IsStepNode, IsBesideNode, IsAppended, IsPushAnswer};

use crate::node::{Kind, Node};
use crate::stops::GrowStop;
use crate::tree::Tree;
use derivation_tree::Kept;
use horn_rules::target;
use std::alloc::Global;
use thr_base::{EdgeNo, Fact, FactId, Home, Instance, ThreadNo};
use transition_formula::Program;

/// The instance that gave a fact.
fn instance_at(facts: &[(FactId, Fact, Instance)], id: FactId) -> Instance
    requires { Stands facts.now id.0 }
    ensures { StandsWith facts.now id.0 result }
{
    for entry in facts {
        if entry.0 == id {
            return entry.2;
        }
    }
    unreachable!()
}

fn thread_of(home: Home) -> ThreadNo
    ensures { result.0 ≡ thread_of (home_of home) }
{
    match home {
        Home::State(thread, _) => thread,
        Home::Env(thread, _) => thread,
    }
}

/// The location of a home, or the edge.
fn place_of(home: Home) -> u32
    ensures { result ≡ place_of (home_of home) }
{
    match home {
        Home::State(_, location) => location.0,
        Home::Env(_, edge) => edge.0,
    }
}

/// The home of which an instance gives a fact, where its premises stand at these homes.
fn home_over(
    program: &Program,
    instance: Instance,
    first: Option<Home>,
    second: Option<Home>,
) -> Home
    requires { IsSome (target_at program.now (instance_of instance) (option_map home_of first) (option_map home_of second)) }
    ensures { target_at program.now (instance_of instance) (option_map home_of first) (option_map home_of second) ≡ Some (home_of result) }
{
    match target(program, instance, first, second) {
        Some(home) => home,
        None => unreachable!(),
    }
}

/// The node of a thread's start.
fn init_node(program: &Program, instance: Instance, i: ThreadNo) -> Node
    requires { IsSome (target_at program.now (instance_of instance) None None) }
    ensures { IsInitNode program.now (instance_of instance) i.0 (shape_of result) }
{
    Node {
        kind: Kind::Init,
        home: home_over(program, instance, None, None),
        thread: i,
        edge: EdgeNo(0),
        size: 1,
    }
}

/// The node of a step of the premise's thread.
fn step_node(program: &Program, kind: Kind, instance: Instance, first: &Node, edge: EdgeNo) -> Node
    requires target { IsSome (target_at program.now (instance_of instance) (Some (home_of first.now.home)) None) }
    requires room { first.now.size + 1 < 2 ^ 32 }
    ensures { IsStepNode program.now kind (instance_of instance) (shape_of first.now) edge.0 (shape_of result) }
{
    Node {
        kind,
        home: home_over(program, instance, Some(first.home), None),
        thread: thread_of(first.home),
        edge,
        size: first.size + 1,
    }
}

/// The node of a thread that stays where it is in a step of the second premise's thread.
fn beside_node(
    program: &Program,
    kind: Kind,
    instance: Instance,
    first: &Node,
    second: &Node,
    edge: EdgeNo,
) -> Node
    requires target { IsSome (target_at program.now (instance_of instance) (Some (home_of first.now.home)) (Some (home_of second.now.home))) }
    requires room { first.now.size + second.now.size + 1 < 2 ^ 32 }
    ensures { IsBesideNode program.now kind (instance_of instance) (shape_of first.now) (shape_of second.now) edge.0 (shape_of result) }
{
    Node {
        kind,
        home: home_over(program, instance, Some(first.home), Some(second.home)),
        thread: thread_of(second.home),
        edge,
        size: first.size + second.size + 1,
    }
}

fn push_node(nodes: &mut Vec<Node>, node: Node) -> Result<Node, GrowStop>
    ensures { IsAppended nodes.old.items nodes.new.items node result }
{
    match nodes.push(node) {
        Ok(()) => Ok(node),
        Err(_) => Err(GrowStop::Memory),
    }
}

/// Appends the nodes of the tree of a fact, where with those and so many that are owed behind them they are within the limit. Answers the
/// root.
fn push_tree(
    nodes: &mut Vec<Node>,
    program: &Program,
    facts: &[(FactId, Fact, Instance)],
    id: FactId,
    owed: u32,
    limit: u32,
) -> Result<Node, GrowStop>
    requires kept { AreKept program.now (kept_facts_of program.now facts.now) }
    requires there { IsSome (home_at (kept_facts_of program.now facts.now) id.0) }
    requires room { length nodes.old.items + owed ≤ limit }
    ensures { IsPushAnswer program.now (tree_at (kept_facts_of program.now facts.now) id.0) owed limit nodes.old.items nodes.new.items result }
{
    if nodes.len() + owed as usize >= limit as usize {
        return Err(GrowStop::TooLarge);
    }
    let instance = instance_at(facts, id);
    match instance {
        Instance::Init(i) => push_node(nodes, init_node(program, instance, i)),
        Instance::Own(f, e) => {
            let first = push_tree(nodes, program, facts, f, owed + 1, limit)?;
            push_node(nodes, step_node(program, Kind::Own, instance, &first, e))
        }
        Instance::Guar(f, e) => {
            let first = push_tree(nodes, program, facts, f, owed + 1, limit)?;
            push_node(nodes, step_node(program, Kind::Guar, instance, &first, e))
        }
        Instance::Env(f, t) => {
            let first = push_tree(nodes, program, facts, f, owed + 1, limit)?;
            let second = push_tree(nodes, program, facts, t, owed + 1, limit)?;
            let edge = EdgeNo(place_of(second.home));
            let node = beside_node(program, Kind::Env, instance, &first, &second, edge);
            push_node(nodes, node)
        }
        Instance::Inter(f, g, e) => {
            let first = push_tree(nodes, program, facts, f, owed + 1, limit)?;
            let second = push_tree(nodes, program, facts, g, owed + 1, limit)?;
            let node = beside_node(program, Kind::Inter, instance, &first, &second, e);
            push_node(nodes, node)
        }
    }
}

/// The tree of a claimed fact, where it has at most so many nodes.
pub fn grow<'p>(
    alloc: Global,
    program: &'p Program,
    kept: &Kept<'_>,
    limit: u32,
) -> Result<Tree<'p>, GrowStop>
    requires { program.now ≡ kept.now.program }
    ensures { IsGrowAnswer kept.now limit result }
{
    let mut nodes = Vec::new(alloc);
    push_tree(&mut nodes, program, kept.facts(), kept.root(), 0, limit)?;
    Ok(Tree { program, nodes })
}
