//! The columns of a program, and the threads that have them.

ghost use Rattle.std.specs.Prelude.{◌≡◌, ◌+◌, ◌-◌, ◌^◌, ◌≤◌, ◌++◌, ◌∷◌, [], pos, length, filter, slice_get, min, bytes_eq, IfOk, OnOk};
ghost use Rattle.thr_base.specs.Limits.{most_columns};
ghost use Rattle.thr_base.specs.Number.{number_text};
ghost use Rattle.c_tree.specs.Seen.{plain_gname};
ghost use Rattle.c_check.specs.Columns as specs;

use crate::plan::{Column, ColumnKind, Thread};
use c_tree::{Gname, Name};
use sqlite_items::{Items, at};
use std::alloc::{AllocError, Global};
use thr_base::{ThreadNo, push_number};

/// What a thread that runs a function has of its own, beside its counter.
#[derive(Drop)]
pub struct OwnVariables {
    /// The names of the locals, in the order of the text.
    pub locals: Items<Items<u8>>,
    pub temporaries: usize,
}

// ---- what all threads share

pub fn variable_column(alloc: Global, variable: &Gname) -> Result<Column, AllocError>
    ensures { IfOk result (λ column. column ≡ specs.variable_column (plain_gname variable.now)) }
{
    let start = match &variable.start {
        Some(start) => start.number(),
        None => 0,
    };
    Ok(Column {
        kind: ColumnKind::Variable,
        text: Items::from_slice(alloc, variable.name.text.as_slice())?,
        owner: None,
        start: Some(start),
    })
}

pub fn lock_column(alloc: Global, name: &Name) -> Result<Column, AllocError>
    ensures { IfOk result (λ column. column ≡ specs.lock_column name.now) }
{
    Ok(Column {
        kind: ColumnKind::Lock,
        text: Items::from_slice(alloc, name.text.as_slice())?,
        owner: None,
        start: Some(0),
    })
}

// ---- what a thread has of its own

fn own_column(
    alloc: Global,
    i: ThreadNo,
    kind: ColumnKind,
    name: &[u8],
    start: Option<i128>,
) -> Result<Column, AllocError>
    ensures { IfOk result (λ column. column ≡ specs.own_column i kind name.now start) }
{
    let mut text = Vec::from_slice(alloc, b"t")?;
    push_number(&mut text, i128::from(i.0))?;
    text.extend_from_slice(b".")?;
    text.extend_from_slice(name)?;
    Ok(Column {
        kind,
        text: Items::from_vec(text),
        owner: Some(i),
        start,
    })
}

/// A word with a number behind it, that of what stands behind so many others.
fn with_number(alloc: Global, word: &[u8], earlier: usize) -> Result<Vec<u8>, AllocError>
    ensures { IfOk result (λ text. text.items ≡ word.now ++ number_text (pos (earlier + 1))) }
{
    let mut text = Vec::from_slice(alloc, word)?;
    push_number(&mut text, (earlier as u128 + 1) as i128)?;
    Ok(text)
}

/// How many of the names are this one.
fn count_of(names: &[Items<u8>], name: &[u8]) -> usize
    ensures { result ≡ length (filter (bytes_eq name.now) names.now) }
{
    names
        .iter()
        .filter(|other| name == other.as_slice())
        .count()
}

/// The name of a local in its column, behind so many of its name.
fn local_name(alloc: Global, earlier: usize, name: &[u8]) -> Result<Vec<u8>, AllocError>
    ensures { IfOk result (λ text. text.items ≡ specs.local_name earlier name.now) }
{
    let mut text = Vec::from_slice(alloc, name)?;
    if earlier > 0 {
        text.extend_from_slice(&with_number(alloc, b"#", earlier)?)?;
    }
    Ok(text)
}

fn push_locals(
    columns: &mut Vec<Column>,
    i: ThreadNo,
    locals: &[Items<u8>],
) -> Result<(), AllocError>
    ensures { OnOk result (columns.new.items ≡ columns.old.items ++ specs.local_columns i [] locals.now) }
{
    let alloc = *columns.allocator();
    for (at, local) in locals.iter().enumerate() {
        let earlier = count_of(&locals[..at], local.as_slice());
        let name = local_name(alloc, earlier, local.as_slice())?;
        columns.push(own_column(alloc, i, ColumnKind::Local, &name, None)?)?;
    }
    Ok(())
}

fn push_temporaries(columns: &mut Vec<Column>, i: ThreadNo, count: usize) -> Result<(), AllocError>
    ensures { OnOk result (columns.new.items ≡ columns.old.items ++ specs.temporary_columns i 0 count) }
{
    let alloc = *columns.allocator();
    for earlier in 0..count {
        let name = with_number(alloc, b"$", earlier)?;
        columns.push(own_column(alloc, i, ColumnKind::Temporary, &name, None)?)?;
    }
    Ok(())
}

// ---- threads, by the numbers of their functions

/// How many columns a thread has of its own, beside its counter; or the greatest number, where there are more.
fn own_count(owns: &[OwnVariables], function: usize) -> usize
    ensures { result ≡ min (specs.own_count owns.now function) (2 ^ 64 - 1) }
{
    match at(owns, function) {
        Some(own) => own.locals.len().saturating_add(own.temporaries),
        None => 0,
    }
}

/// How many columns there are, of which so many are shared; or the greatest number, where there are more.
pub fn count_columns(shared: usize, owns: &[OwnVariables], created: &[usize]) -> usize
    ensures { result ≡ min (shared + (length (specs.own_columns_from owns.now 1 created.now) + length created.now)) (2 ^ 64 - 1) }
{
    let mut count = shared.saturating_add(created.len());
    for function in created {
        count = count.saturating_add(own_count(owns, *function));
    }
    count
}

/// The threads, the first of which has its first column of its own here.
pub fn threads(
    alloc: Global,
    owns: &[OwnVariables],
    first: usize,
    created: &[usize],
) -> Result<Vec<Thread>, AllocError>
    requires { first + length (specs.own_columns_from owns.now 1 created.now) ≤ most_columns }
    ensures { IfOk result (λ threads. threads.items ≡ specs.threads_from owns.now first created.now) }
{
    let mut threads = Vec::new(alloc);
    let mut first = first;
    for function in created {
        threads.push(Thread {
            function: *function,
            first,
        })?;
        first += own_count(owns, *function);
    }
    Ok(threads)
}

fn push_own(columns: &mut Vec<Column>, i: ThreadNo, own: &OwnVariables) -> Result<(), AllocError>
    ensures { OnOk result (columns.new.items ≡ columns.old.items ++ specs.thread_columns i own.now) }
{
    push_locals(columns, i, own.locals.as_slice())?;
    push_temporaries(columns, i, own.temporaries)
}

fn push_if(
    columns: &mut Vec<Column>,
    i: ThreadNo,
    owns: &[OwnVariables],
    function: usize,
) -> Result<(), AllocError>
    ensures { OnOk result (columns.new.items ≡ columns.old.items ++ specs.columns_if i (slice_get owns.now function)) }
{
    match at(owns, function) {
        Some(own) => push_own(columns, i, own),
        None => Ok(()),
    }
}

/// Appends the columns of the threads' own, without their counters.
pub fn push_threads(
    columns: &mut Vec<Column>,
    owns: &[OwnVariables],
    created: &[usize],
) -> Result<(), AllocError>
    requires { length created.now ≤ most_columns }
    ensures { OnOk result (columns.new.items ≡ columns.old.items ++ specs.own_columns_from owns.now 1 created.now) }
{
    let mut i = 1;
    for function in created {
        push_if(columns, ThreadNo(i), owns, *function)?;
        i += 1;
    }
    Ok(())
}

fn push_counter(columns: &mut Vec<Column>, i: ThreadNo) -> Result<(), AllocError>
    ensures { OnOk result (columns.new.items ≡ columns.old.items ++ specs.counter_column i ∷ []) }
{
    let alloc = *columns.allocator();
    columns.push(own_column(alloc, i, ColumnKind::Counter, b"$pc", Some(1))?)?;
    Ok(())
}

/// Appends the counters of the threads.
pub fn push_counters(columns: &mut Vec<Column>, created: &[usize]) -> Result<(), AllocError>
    requires { length created.now ≤ most_columns }
    ensures { OnOk result (columns.new.items ≡ columns.old.items ++ specs.counters_from 1 created.now) }
{
    let mut i = 1;
    for _function in created {
        push_counter(columns, ThreadNo(i))?;
        i += 1;
    }
    Ok(())
}
