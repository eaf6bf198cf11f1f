//! What every layer stands on: the outside world as stores and sinks that count their faults, the names
//! of threads, locations, facts and rules, the ways in which work stops, and the one text of a number.
#![tactic(auto)]

mod failing_calls;
mod file_store;
mod held;
mod honest_store;
mod limits;
mod mem_files;
mod mem_sink;
mod mem_store;
mod names;
mod number;
mod open_gate;
mod out_sink;
mod outside;
mod reading;
mod recorded;
mod refusals;
mod room;
mod room_sink;
mod stops;
mod zero_sink;

pub use file_store::FileStore;
pub use held::{holds, positions_are_those_held, positions_of, with_position};
pub use honest_store::HonestStore;
pub use limits::{
    ANNOTATION_LIMIT, DEFAULT_LIMITS, Limits, MOST_COLUMNS, MOST_EDGES, MOST_ELIMINATION_ROWS,
    MOST_GENERATED, MOST_INPUTS, MOST_LEVELS, MOST_LIMITS, MOST_LOCATIONS, MOST_PATHS,
    MOST_PREDICATES, MOST_TESTS, MOST_THREADS, MOST_TREE_COLUMNS, MOST_TREE_ROWS, MOST_WORKERS,
    TEXT_LIMIT, limits_are_as_defined,
};
pub use mem_sink::MemSink;
pub use mem_store::MemStore;
pub use names::{EdgeNo, Epoch, Fact, FactId, Home, HomeNo, Instance, Loc, RuleName, ThreadNo};
pub use number::{number_text_is_decimal, parse_number, push_number};
pub use open_gate::OpenGate;
pub use out_sink::OutSink;
pub use outside::{Failed, Gate, Sink, Store};
pub use reading::{read_all, write_all};
pub use recorded::Recorded;
pub use refusals::{
    ATOMIC_BODY, BAD_BYTE, BAD_MAIN, BAD_NUMBER, COEFFICIENT, EXPECTED, NO_THREAD, NOT_IN_PROFILE,
    NOT_LINEAR, NOT_TEXT, TOO_MANY, TWICE_NAMED, UNKNOWN_NAME, codes_are_as_defined, is_earlier,
    order_is_tested,
};
pub use room_sink::RoomSink;
pub use stops::{LineStop, ReadStop, Refusal, Stop};
pub use zero_sink::ZeroSink;

#[cfg(test)]
mod tests;
