//! What a program does: every name resolved, every condition a choice or one tree of comparisons; or the first rule that it breaks.
#![tactic(auto)]

mod arithmetic;
mod assignments;
mod body;
mod breaks;
mod calls;
mod checking;
mod columns;
mod conditions;
mod first;
mod instruction;
mod items;
mod laws;
mod locals;
mod lookups;
mod loops;
mod main_form;
mod meaning;
mod operation;
mod place;
mod plan;
mod scopes;
mod statements;
mod test;
mod uses;

pub use checking::check;
pub use columns::OwnVariables;
pub use first::{earlier, firsts_are_first};
pub use instruction::{Assignment, Instruction};
pub use laws::{
    accepted_plans_are_well_formed, checks_are_exact, numbers_are_of_declarations,
    plans_have_items_of_texts, temporaries_are_least,
};
pub use main_form::Phase;
pub use meaning::{Meaning, Variable};
pub use operation::{Mark, Operation};
pub use place::Place;
pub use plan::{Column, ColumnKind, Function, Plan, Thread};
pub use test::{Comparison, Condition, TestOperation};
pub use uses::{Kind, Use};

#[cfg(test)]
mod tests;
