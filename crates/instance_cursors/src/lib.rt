//! Which instances of the rules are open, told by cursors that go over live facts by rising id, each with its head. The layers above
//! learn that something is chosen wherever something is open, and exactly what a taken instance, a fact that comes, and changed homes
//! do to what is open.
#![tactic(auto)]

mod choosing;
mod cursors;
mod early;
mod finding;
mod heads;
mod instances;
mod key;
mod layout;
mod moving;
mod start;
mod turns;

pub use choosing::Next;
pub use cursors::Cursors;
pub use early::Early;
pub use key::{Head, Key};
pub use layout::{EdgeHomes, HomeKind, HomeOf, Layout};
pub use start::Start;
pub use turns::{Cursor, Series, Turn};
