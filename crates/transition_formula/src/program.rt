ghost use Rattle.std.specs.Prelude.{◌≡◌, ◌<◌, ◌≤◌, Some, length, map, option_map, slice_get, IsSome};
ghost use Rattle.transition_formula.specs.Program.{Thread, IsProgram, IsThreadOf, at_number};
ghost use Rattle.transition_formula.specs.Rows.{is_kept};
ghost use Rattle.transition_formula.specs.Stored.{column_of, edge_of, program_of, thread_of};

use crate::edges::{edge_at, is_kept};
use crate::graph::{Column, Edge, ThreadGraph};
use std::marker::Model;
use thr_base::{EdgeNo, ThreadNo};

/// A program: its columns, and its threads as graphs.
#[derive(Debug, Drop)]
pub struct Program {
    columns: Vec<Column>,
    threads: Vec<ThreadGraph>,
}

impl Model for Program {
    ghost use Rattle.transition_formula.specs.Program as specs;

    ghost Value = { specs.Program };

    ghost use Rattle.transition_formula.specs.Stored.{program_of};

    ghost view = { λ inside. program_of inside.columns.items inside.threads.items };

    ghost invariant = { λ inside. specs.IsProgram (program_of inside.columns.items inside.threads.items) };
}

impl Program {
    pub fn new(columns: Vec<Column>, threads: Vec<ThreadGraph>) -> Program
        requires { IsProgram (program_of columns.items threads.items) }
        ensures { result ≡ program_of columns.items threads.items }
    {
        Program { columns, threads }
    }

    /// The number of threads.
    pub fn threads(&self) -> u32
        ensures threads { result ≡ length self.now.threads }
        ensures program { IsProgram self.now }
    {
        self.threads.len() as u32
    }

    /// The number of columns.
    pub fn columns(&self) -> u32
        ensures columns { result ≡ length self.now.columns }
        ensures program { IsProgram self.now }
    {
        self.columns.len() as u32
    }

    pub fn column(&self, column: u32) -> &Column
        requires { column < length self.now.columns }
        ensures { slice_get self.now.columns column ≡ Some (column_of result.now) }
    {
        &self.columns[column as usize]
    }

    /// The thread that owns a column, or none where it is shared.
    pub fn owner(&self, column: u32) -> Option<ThreadNo>
        requires { column < length self.now.columns }
        ensures { option_map (λ found. found.owner) (slice_get self.now.columns column) ≡ Some (option_map (λ thread. thread.0) result) }
    {
        self.columns[column as usize].owner
    }

    pub(crate) fn thread(&self, i: ThreadNo) -> &ThreadGraph
        requires { IsSome (at_number self.now.threads i.0) }
        ensures thread { at_number self.now.threads i.0 ≡ Some (thread_of result.now) }
        ensures program { IsProgram self.now }
    {
        &self.threads[i.0 as usize - 1]
    }

    /// The column of a thread's counter.
    pub fn counter(&self, i: ThreadNo) -> u32
        requires { IsSome (at_number self.now.threads i.0) }
        ensures counter { option_map (λ thread. thread.counter) (at_number self.now.threads i.0) ≡ Some result }
        ensures within { result < length self.now.columns }
    {
        self.thread(i).counter
    }

    /// How many locations a thread has, the failing one and the exit among them.
    pub fn locations(&self, i: ThreadNo) -> u32
        requires { IsSome (at_number self.now.threads i.0) }
        ensures { option_map (λ thread. thread.locations) (at_number self.now.threads i.0) ≡ Some result }
    {
        self.thread(i).locations
    }

    /// The edges of a thread, in the order of their numbers.
    pub fn edges(&self, i: ThreadNo) -> &[Edge]
        requires { IsSome (at_number self.now.threads i.0) }
        ensures { option_map (λ thread. thread.edges) (at_number self.now.threads i.0) ≡ Some (map edge_of result.now) }
    {
        self.thread(i).edges.as_slice()
    }

    /// An edge of a thread.
    pub fn edge(&self, i: ThreadNo, e: EdgeNo) -> &Edge
        requires thread { IsSome (at_number self.now.threads i.0) }
        requires edge { (thread : Thread) → IsThreadOf self.now i.0 thread → IsSome (at_number thread.edges e.0) }
        ensures { (thread : Thread) → IsThreadOf self.now i.0 thread → at_number thread.edges e.0 ≡ Some (edge_of result.now) }
    {
        edge_at(self.thread(i), e)
    }

    /// Whether each step by an edge keeps a column: it is not the thread's counter, and the edge does not set it.
    pub fn keeps(&self, i: ThreadNo, e: EdgeNo, column: u32) -> bool
        requires thread { IsSome (at_number self.now.threads i.0) }
        requires edge { (thread : Thread) → IsThreadOf self.now i.0 thread → IsSome (at_number thread.edges e.0) }
        ensures { (thread : Thread) → IsThreadOf self.now i.0 thread → option_map (λ edge. is_kept thread.counter edge column) (at_number thread.edges e.0) ≡ Some result }
    {
        is_kept(self.counter(i), self.edge(i, e), column)
    }
}
