ghost use Rattle.std.specs.Prelude.{◌≡◌, length, IsSome};
ghost use Rattle.transition_formula.specs.Program.{Thread, Edge, IsThreadOf, IsEdgeOf, at_number};
ghost use Rattle.step_meaning.specs.Outcome.{outcome_of};
ghost use Rattle.step_meaning.specs.Answer.{answer_in, buffer_in};

use crate::look::first_stop;
use crate::step_answer::StepAnswer;
use crate::write::write_after;
use thr_base::{EdgeNo, ThreadNo};
use transition_formula::Program;

/// What an edge does to a state with these inputs. The counter, the tests and the sets are looked at in this order, all at the
/// state before, and the first that does not go through is told. At `Next` the next state is in `next`, which is else as it was.
pub fn step(
    program: &Program,
    state: &[i128],
    thread: ThreadNo,
    edge: EdgeNo,
    inputs: &[i128],
    next: &mut [i128],
) -> StepAnswer
    requires thread { IsSome (at_number program.now.threads thread.0) }
    requires edge { (of_thread : Thread) → IsThreadOf program.now thread.0 of_thread → IsSome (at_number of_thread.edges edge.0) }
    requires state { length state.now ≡ length program.now.columns }
    requires inputs { (of_thread : Thread) (by_edge : Edge) → IsEdgeOf program.now thread.0 edge.0 of_thread by_edge → length inputs.now ≡ by_edge.inputs }
    requires next { length next.old ≡ length program.now.columns }
    ensures answer { (of_thread : Thread) (by_edge : Edge) → IsEdgeOf program.now thread.0 edge.0 of_thread by_edge → result ≡ answer_in (outcome_of of_thread by_edge state.now inputs.now) }
    ensures next { (of_thread : Thread) (by_edge : Edge) → IsEdgeOf program.now thread.0 edge.0 of_thread by_edge → next.new ≡ buffer_in (outcome_of of_thread by_edge state.now inputs.now) next.old }
{
    let columns = program.columns() as usize;
    prove!(state.len() == columns);
    let counter = program.counter(thread);
    let by_edge = program.edge(thread, edge);
    match first_stop(counter, by_edge, state, inputs) {
        Some(true) => {
            write_after(counter, by_edge, state, inputs, next);
            StepAnswer::Next
        }
        Some(false) => StepAnswer::Blocked,
        None => StepAnswer::Overflow,
    }
}
