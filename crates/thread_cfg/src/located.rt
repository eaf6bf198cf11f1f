//! Where the actions of a plan's threads stand in its text.

ghost use Rattle.std.specs.Prelude.{◌≡◌, ◌+◌, ◌≤◌, ℕ, List, length, IfOk};
ghost use Rattle.c_check.specs.Check.{stored_function};
ghost use Rattle.c_tree.specs.Seen.{plain_tree};
ghost use Rattle.c_tree.specs.declared.item.Tree.{Tree};
ghost use Rattle.thread_cfg.specs.Threads as threads;
ghost use Rattle.thread_cfg.specs.Places as places;
ghost use Rattle.thread_cfg.specs.Read.{IsPlanOfText};

use crate::places::places_of_code;
use c_check::{Function, Plan};
use std::alloc::{AllocError, Global};
use thr_base::ThreadNo;

/// The place of the first token of the action at each location of a thread that runs the function, from location 1 on.
pub(crate) fn function_places(alloc: Global, function: &Function) -> Result<Vec<u32>, AllocError>
    ensures { (t : threads.Running) → function.now ≡ stored_function t.function → IfOk result (λ found. found.items ≡ places.location_places t) }
{
    places_of_code(alloc, function.body.as_slice())
}

/// The byte place of the first token of the action at each location of a thread of a plan, from location 1 on. There is none at location
/// 0, where a thread has failed, and at the last one, where it has ended.
pub fn location_places(alloc: Global, plan: &Plan, thread: ThreadNo) -> Result<Vec<u32>, AllocError>
    requires of_text { (text : List ℕ) × (tree : Tree) × IsPlanOfText text tree plan.now }
    requires there { (1 ≤ thread.0) × (thread.0 ≤ length plan.now.threads) }
    ensures { (text : List ℕ) (tree : Tree) → IsPlanOfText text tree plan.now
        → IfOk result (λ found. places.ArePlacesOf (plain_tree tree) thread.0 found.items) }
{
    let i = thread.0 as usize - 1;
    let running = plan.threads.as_slice()[i];
    let function = &plan.functions.as_slice()[running.function];
    function_places(alloc, function)
}
