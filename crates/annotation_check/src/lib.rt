//! Whether an annotation passes. No solver is run: the rows of each instance are made once, and the certificates that its group
//! names are checked over them. The layers above learn that an annotation that is accepted passes, so that no run of the program
//! fails, and else which check is the first that is not proved.
#![tactic(auto)]

mod answer;
mod checking;
mod entailed;
mod facts;
mod proving;
mod stored_case;

pub use answer::{CheckAnswer, CheckRule};
pub use checking::check;
