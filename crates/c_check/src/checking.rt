//! Finds the plan of a text, or the first rule that it breaks.

ghost use Rattle.std.specs.Prelude.{◌≡◌, ◌+◌, ◌-◌, ◌^◌, ◌≤◌, length, min, IfOk, IfNone, MatchOption};
ghost use Rattle.thr_base.specs.Limits.{most_columns};
ghost use Rattle.c_tree.specs.Plain as plain;
ghost use Rattle.c_tree.specs.Seen.{plain_tree};
ghost use Rattle.c_check.specs.Check.{IsAccepted, IsCheckAnswer, IsPlanOf, IsRefused};
ghost use Rattle.c_check.specs.inside.Walked.{IsWalked, plan_from};

use crate::columns::{count_columns, push_counters, push_threads, threads};
use crate::items::{Walk, walk_items};
use crate::plan::Plan;
use c_tree::Tree;
use sqlite_items::Items;
use std::alloc::{AllocError, Global};
use thr_base::{MOST_COLUMNS, NO_THREAD, Refusal, Stop, TOO_MANY};

/// The plan of a text's tree. Refused is the rule that is broken at the lowest place, at one place that with the lowest
/// code; only where none is broken, that `main` creates no thread or that the columns are too many, at the word `main`.
pub fn check(alloc: Global, tree: &Tree) -> Result<Plan, Stop>
    ensures { IsCheckAnswer (plain_tree tree.now) result }
{
    let found = walk_items(alloc, tree.items.as_slice(), tree.end)?;
    if let Some(refusal) = refusal(&found) {
        return Err(Stop::Refused(refusal));
    }
    Ok(plan(alloc, found)?)
}

/// How many columns there are, or the greatest number, where there are more.
fn column_count(found: &Walk) -> usize
    ensures { result ≡ min (length (plan_from found.now).columns) (2 ^ 64 - 1) }
{
    let shared = found.variables.len().saturating_add(found.locks.len());
    count_columns(shared, found.owns.as_slice(), found.created.as_slice())
}

/// Why the text that was gone through is refused, if it is.
fn refusal(found: &Walk) -> Option<Refusal>
    ensures answer { (tree : plain.Tree) → IsWalked tree found.now → MatchOption result (IsAccepted tree) (IsRefused tree) }
    ensures few { IfNone result (length (plan_from found.now).columns ≤ most_columns) }
{
    let place = found.main.unwrap_or(0);
    let too_many = column_count(found) > MOST_COLUMNS as usize;
    if found.refusal.is_some() {
        return found.refusal;
    }
    if found.created.is_empty() {
        return Some(Refusal {
            code: NO_THREAD,
            place,
        });
    }
    if too_many {
        return Some(Refusal {
            code: TOO_MANY,
            place,
        });
    }
    None
}

/// The plan of the text that was gone through.
fn plan(alloc: Global, found: Walk) -> Result<Plan, AllocError>
    requires { length (plan_from found).columns ≤ most_columns }
    ensures { IfOk result (λ plan. plan ≡ plan_from found) }
{
    let created = found.created.as_slice();
    let owns = found.owns.as_slice();
    let first = found.variables.len() + found.locks.len();
    let threads = threads(alloc, owns, first, created)?;
    let mut own = Vec::new(alloc);
    push_threads(&mut own, owns, created)?;
    push_counters(&mut own, created)?;
    let mut columns = found.variables;
    columns.append(found.locks)?;
    columns.append(Items::from_vec(own))?;
    Ok(Plan {
        columns,
        functions: found.functions,
        threads: Items::from_vec(threads),
    })
}
