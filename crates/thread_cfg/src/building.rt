//! The program of a plan, or the first reason why there is none.

ghost use Rattle.std.specs.Prelude.{◌≡◌, ◌+◌, ◌<◌, ℕ, List, filter, length, IfOk, slice_get, Some, take};
ghost use Rattle.thr_base.specs.Limits.{most_threads};
ghost use Rattle.c_tree.specs.Plain as plain;
ghost use Rattle.c_tree.specs.declared.item.Tree.{Tree};
ghost use Rattle.c_tree.specs.Seen.{plain_tree};
ghost use Rattle.thread_cfg.specs.Threads.{threads_running};
ghost use Rattle.thread_cfg.specs.Graph.{IsBuildAnswer};
ghost use Rattle.c_check.specs.Columns.{columns_of};
ghost use Rattle.c_check.specs.WellFormed.{is_variable};
ghost use Rattle.thread_cfg.specs.inside.Meant.{frame_of};
ghost use Rattle.thread_cfg.specs.Read.{IsPlanOfText};
ghost use Rattle.thread_cfg.specs.inside.Built.{AreFound};
ghost use Rattle.thread_cfg.specs.inside.Known.{IsKnownPlan};

use crate::columns::{program_columns, variable_count};
use crate::frame::Frame;
use crate::thread::find_edges;
use c_check::{Plan, Thread, earlier};
use std::alloc::{AllocError, Global};
use thr_base::{Refusal, Stop, ThreadNo};
use transition_formula::{Program, ThreadGraph};

/// What is found of the threads of a plan, one after another.
#[derive(Drop)]
struct Graphs {
    graphs: Vec<ThreadGraph>,
    /// The first of those that are found.
    refusal: Option<Refusal>,
}

/// What the i-th thread is among the columns, from 0.
fn frame_of(plan: &Plan, i: usize, thread: Thread) -> Frame
    requires { i < most_threads }
    ensures { frame_of result ≡ record { thread = i + 1; first = thread.first; variables = length (filter (λ c. is_variable c.kind) plan.now.columns) } }
{
    Frame {
        thread: ThreadNo(i as u32 + 1),
        first: thread.first,
        variables: variable_count(plan.columns.as_slice()),
    }
}

/// One thread more.
fn push_graph(
    alloc: Global,
    plan: &Plan,
    i: usize,
    thread: Thread,
    found: &mut Graphs,
) -> Result<(), AllocError>
    requires known { (tree : plain.Tree) × IsKnownPlan tree plan.now }
    requires there { slice_get plan.now.threads i ≡ Some thread }
    ensures { IfOk result (λ _. (tree : plain.Tree) → IsKnownPlan tree plan.now
        → AreFound (length (columns_of tree)) (length (threads_running tree)) (take i (threads_running tree)) found.old.graphs.items found.old.refusal
        → AreFound (length (columns_of tree)) (length (threads_running tree)) (take (i + 1) (threads_running tree)) found.new.graphs.items found.new.refusal) }
{
    let columns = plan.columns.len() as u32;
    let frame = frame_of(plan, i, thread);
    let function = &plan.functions.as_slice()[thread.function];
    let more = find_edges(alloc, columns, &frame, function)?;
    let graph = ThreadGraph {
        counter: columns - plan.threads.len() as u32 + i as u32,
        locations: more.locations,
        edges: more.edges,
    };
    found.graphs.push(graph)?;
    found.refusal = earlier(found.refusal, more.refusal);
    Ok(())
}

/// What is found of all threads of a plan.
fn find_graphs(alloc: Global, plan: &Plan) -> Result<Graphs, AllocError>
    requires { (tree : plain.Tree) × IsKnownPlan tree plan.now }
    ensures { IfOk result (λ found. (tree : plain.Tree) → IsKnownPlan tree plan.now
        → AreFound (length (columns_of tree)) (length (threads_running tree)) (threads_running tree) found.graphs.items found.refusal) }
{
    let mut found = Graphs {
        graphs: Vec::new(alloc),
        refusal: None,
    };
    let mut i = 0;
    for thread in plan.threads.as_slice() {
        push_graph(alloc, plan, i, *thread, &mut found)?;
        i += 1;
    }
    Ok(found)
}

/// The program of a plan that `check` gives for the tree of a text. Refused is the first of the limits that are passed, rule 11, at
/// the name of a function with too many locations or at the first word of an atomic block with too many paths, and of the expressions
/// and comparisons with a product or sum that does not fit, rule 13, at their first tokens.
pub fn build(alloc: Global, plan: &Plan) -> Result<Program, Stop>
    requires { (text : List ℕ) × (tree : Tree) × IsPlanOfText text tree plan.now }
    ensures { (text : List ℕ) (tree : Tree) → IsPlanOfText text tree plan.now → IsBuildAnswer (plain_tree tree) result }
{
    let found = find_graphs(alloc, plan)?;
    match found.refusal {
        Some(refusal) => Err(Stop::Refused(refusal)),
        None => {
            let columns = program_columns(alloc, plan.columns.as_slice())?;
            Ok(Program::new(columns, found.graphs))
        }
    }
}
