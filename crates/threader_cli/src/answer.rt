ghost use Rattle.std.specs.Prelude.{◌≡◌, ◌≤◌, ◌++◌, map, length, codes, decimal, string_bytes, IfOk};
ghost use Rattle.thr_base.specs.Limits.{text_limit};
ghost use Rattle.thr_base.specs.Reading.{KeepsFiles};
ghost use Rattle.horn_rules.specs.Stored.{AreStoredSetsOf};
ghost use Rattle.threader_cli.specs.Answer as specs;
ghost use Rattle.threader_cli.specs.Answer.{predicates_text, no_predicates, limit_text, AnswersFiles, AnswersPredicates, AnswersProgram, AnswersProgramText, AnswersTables, AnswersText, Ends, Frame, TablesTellSafety};
ghost use Rattle.threader_cli.specs.inside.Parts.{names, IsReadText, Wrote};

use crate::words::{Asked, tables_asked};
use annotation_form::read_predicates;
use horn_rules::{home_count, table, where_nothing_fails_no_run_does};
use itoa::Buffer;
use predicate_sets::Sets;
use serial_fix::{LeastAnswer, least};
use std::alloc::{AllocError, Global};
use thr_base::{
    Failed, Limits, LineStop, ReadStop, Refusal, Sink, Stop, Store, TEXT_LIMIT, read_all, write_all,
};
use thread_cfg::{read_program, texts_fail_alike};
use transition_formula::Program;

/// All that the program does for its words: the answer goes to the sink, and the result is the status.
pub fn threader_serial<S: Store, K: Sink>(
    alloc: Global,
    words: &[String],
    store: &mut S,
    out: &mut K,
) -> u8
    ensures ends { Ends (map string_bytes words.now) (S.meaning store.old) (S.meaning store.new) (K.meaning out.old) (K.meaning out.new) result }
    ensures frame { Frame (S.meaning store.old) (S.meaning store.new) (K.meaning out.old) (K.meaning out.new) }
{
    let Some(asked) = tables_asked(words) else {
        return write(
            out,
            2,
            b"usage: threader verify|tables|check|replay|generate|bench|help\n",
        );
    };
    match answer_files(alloc, &asked, store) {
        Ok(answer) => write(out, answer.status, &answer.text),
        Err(AllocError) => 7,
    }
}

/// Writes an answer, and returns its status, or that of a write fault.
fn write<K: Sink>(out: &mut K, status: u8, text: &[u8]) -> u8
    ensures { Wrote (K.meaning out.old) text.now (K.meaning out.new) status result }
{
    match write_all(out, text) {
        Ok(()) => status,
        Err(Failed) => 6,
    }
}

/// A status, and the text that goes with it.
#[derive(Drop)]
struct Answer {
    status: u8,
    text: Vec<u8>,
}

fn text_answer(alloc: Global, status: u8, text: &[u8]) -> Result<Answer, AllocError>
    ensures { IfOk result (λ answer. (answer.status ≡ status) × (answer.text.items ≡ text.now)) }
{
    let text = Vec::from_slice(alloc, text)?;
    Ok(Answer { status, text })
}

/// The bytes of a file, or the answer where it is not read whole.
enum Text {
    Whole(Vec<u8>),
    Unread(Answer),
}

/// Reads a file with a text of the kind that has this label in answers and at most so many bytes.
fn read_text<S: Store>(
    alloc: Global,
    store: &mut S,
    label: &str,
    limit: u32,
    name: &str,
) -> Result<Text, AllocError>
    ensures read { IfOk result (IsReadText (record { label = label.now; limit = limit }) name.now (S.meaning store.old) (S.meaning store.new)) }
    ensures kept { KeepsFiles (S.meaning store.old) (S.meaning store.new) }
{
    match read_all(alloc, store, name, limit) {
        Ok(bytes) => Ok(Text::Whole(bytes)),
        Err(ReadStop::Fault) => Ok(Text::Unread(text_answer(alloc, 5, b"read fault\n")?)),
        Err(ReadStop::TooLong) => Ok(Text::Unread(too_long(alloc, label)?)),
        Err(ReadStop::Memory) => Err(AllocError),
    }
}

fn too_long(alloc: Global, label: &str) -> Result<Answer, AllocError>
    ensures { IfOk result (λ answer. (answer.status ≡ 3) × (answer.text.items ≡ label.now ++ codes " long\n")) }
{
    let mut text = Vec::from_slice(alloc, label.as_bytes())?;
    text.extend_from_slice(b" long\n")?;
    Ok(Answer { status: 3, text })
}

/// The answer to the files of these names.
fn answer_files<S: Store>(
    alloc: Global,
    asked: &Asked<'_>,
    store: &mut S,
) -> Result<Answer, AllocError>
    ensures answer { IfOk result (λ answer. AnswersFiles asked.now.limits (S.meaning store.old) (S.meaning store.new) asked.now.program.now (names asked.now.predicates) answer.status answer.text.items) }
    ensures kept { KeepsFiles (S.meaning store.old) (S.meaning store.new) }
{
    let text = read_text(alloc, store, "program", TEXT_LIMIT, asked.program)?;
    match text {
        Text::Whole(bytes) => answer_program(alloc, &bytes, asked.predicates, asked.limits, store),
        Text::Unread(answer) => Ok(answer),
    }
}

/// The answer to the bytes of a program's text and the name of a file of predicates.
fn answer_program<S: Store>(
    alloc: Global,
    bytes: &[u8],
    predicates: Option<&str>,
    limits: Limits,
    store: &mut S,
) -> Result<Answer, AllocError>
    requires { length bytes.now ≤ text_limit }
    ensures answer { IfOk result (λ answer. AnswersProgramText (AnswersTables limits (S.meaning store.old) (S.meaning store.new) (names predicates.entry)) bytes.now answer.status answer.text.items) }
    ensures kept { KeepsFiles (S.meaning store.old) (S.meaning store.new) }
{
    match read_program(alloc, bytes) {
        Ok(program) => {
            tables_tell_safety();
            answer_tables(alloc, &program, predicates, limits, store)
        }
        Err(Stop::Refused(refusal)) => refusal_answer(alloc, refusal),
        Err(Stop::Memory) => Err(AllocError),
    }
}

/// A table without a line at a location 0 says that no interleaving of the text's threads fails: a law, and no code.
fn tables_tell_safety()
    ensures { TablesTellSafety }
{
    where_nothing_fails_no_run_does();
    texts_fail_alike();
}

fn refusal_answer(alloc: Global, refusal: Refusal) -> Result<Answer, AllocError>
    ensures { IfOk result (λ answer. (answer.status ≡ 3) × (answer.text.items ≡ specs.refusal_text refusal)) }
{
    let mut text = Vec::from_slice(alloc, b"program E")?;
    text.extend_from_slice(Buffer::new().format(refusal.code).as_bytes())?;
    text.extend_from_slice(b" ")?;
    text.extend_from_slice(Buffer::new().format(refusal.place).as_bytes())?;
    text.extend_from_slice(b"\n")?;
    Ok(Answer { status: 3, text })
}

/// The answer to a program and the name of a file of predicates.
fn answer_tables<S: Store>(
    alloc: Global,
    program: &Program,
    predicates: Option<&str>,
    limits: Limits,
    store: &mut S,
) -> Result<Answer, AllocError>
    ensures answer { IfOk result (λ answer. AnswersTables limits (S.meaning store.old) (S.meaning store.new) (names predicates.entry) program.now answer.status answer.text.items) }
    ensures kept { KeepsFiles (S.meaning store.old) (S.meaning store.new) }
{
    match predicates {
        None => alone(alloc, program, limits),
        Some(name) => second(alloc, program, name, limits, store),
    }
}

/// The answer to a program without predicates.
fn alone(alloc: Global, program: &Program, limits: Limits) -> Result<Answer, AllocError>
    ensures { IfOk result (λ answer. AnswersProgram limits program.now (no_predicates program.now) answer.status answer.text.items) }
{
    let sets = Sets::new(alloc, home_count(program))?;
    tables(alloc, program, &sets, limits)
}

/// The answer to a program with the predicates in a file of this name.
fn second<S: Store>(
    alloc: Global,
    program: &Program,
    name: &str,
    limits: Limits,
    store: &mut S,
) -> Result<Answer, AllocError>
    ensures answer { IfOk result (λ answer. AnswersText predicates_text (AnswersPredicates limits program.now) name.now (S.meaning store.old) (S.meaning store.new) answer.status answer.text.items) }
    ensures kept { KeepsFiles (S.meaning store.old) (S.meaning store.new) }
{
    let text = read_text(alloc, store, "predicates", TEXT_LIMIT, name)?;
    match text {
        Text::Whole(bytes) => with_predicates(alloc, program, &bytes, limits),
        Text::Unread(answer) => Ok(answer),
    }
}

/// The answer to a program with the predicates that the bytes are the text of.
fn with_predicates(
    alloc: Global,
    program: &Program,
    bytes: &[u8],
    limits: Limits,
) -> Result<Answer, AllocError>
    requires { length bytes.now ≤ text_limit }
    ensures { IfOk result (λ answer. AnswersPredicates limits program.now bytes.now answer.status answer.text.items) }
{
    match read_predicates(alloc, program, bytes) {
        Ok(sets) => tables(alloc, program, &sets, limits),
        Err(LineStop::BadLine(line)) => bad_line(alloc, "predicates", line),
        Err(LineStop::Memory) => Err(AllocError),
    }
}

fn bad_line(alloc: Global, label: &str, line: u32) -> Result<Answer, AllocError>
    ensures { IfOk result (λ answer. (answer.status ≡ 3) × (answer.text.items ≡ label.now ++ codes " line " ++ decimal line ++ codes "\n")) }
{
    let mut text = Vec::from_slice(alloc, label.as_bytes())?;
    text.extend_from_slice(b" line ")?;
    text.extend_from_slice(Buffer::new().format(line).as_bytes())?;
    text.extend_from_slice(b"\n")?;
    Ok(Answer { status: 3, text })
}

/// The table of the least set, where homes have these predicates.
fn tables(
    alloc: Global,
    program: &Program,
    sets: &Sets,
    limits: Limits,
) -> Result<Answer, AllocError>
    requires { AreStoredSetsOf program.now sets.now }
    ensures { IfOk result (λ answer. AnswersProgram limits program.now sets.now answer.status answer.text.items) }
{
    match least(alloc, program, sets, limits)? {
        LeastAnswer::Facts(facts) => Ok(Answer {
            status: 0,
            text: table(alloc, program, &facts)?,
        }),
        LeastAnswer::Leaves => text_answer(alloc, 4, b"UNKNOWN leaves\n"),
        LeastAnswer::TooManyFacts => too_low(alloc, "facts", limits.facts),
        LeastAnswer::TooManyJobs => too_low(alloc, "jobs", limits.jobs),
    }
}

/// That a run met its limit on what is named.
fn too_low(alloc: Global, what: &str, limit: u32) -> Result<Answer, AllocError>
    ensures { IfOk result (λ answer. (answer.status ≡ 4) × (answer.text.items ≡ limit_text what.now limit)) }
{
    let mut text = Vec::from_slice(alloc, b"UNKNOWN ")?;
    text.extend_from_slice(what.as_bytes())?;
    text.extend_from_slice(b" ")?;
    text.extend_from_slice(Buffer::new().format(limit).as_bytes())?;
    text.extend_from_slice(b"\n")?;
    Ok(Answer { status: 4, text })
}
