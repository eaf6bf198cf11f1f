ghost use Rattle.std.specs.Prelude.{◌≡◌, ◌↔◌, ◌++◌, map, codes, AllPairs, Contains, IfOk, OnOk, OnErr};
ghost use Rattle.std.specs.List.{AllByRecursion, flat_map};
ghost use Rattle.thr_base.specs.declared.names.RuleName.{RuleName};
ghost use Rattle.horn_rules.specs.Fact as rules;
ghost use Rattle.horn_rules.specs.Least.{Least};
ghost use Rattle.horn_rules.specs.Stored.{HasItsHome, fact_of, facts_of};
ghost use Rattle.horn_rules.specs.Table.{IsTable, IsTableOf, Precedes, fact_line, positions_text};
ghost use Rattle.horn_rules.specs.inside.Lines.{fact_of_line};

use crate::home_text::push_parts;
use crate::homes::named;
use std::alloc::{AllocError, Global};
use thr_base::{Fact, Home, positions_of, push_number};
use transition_formula::Program;

/// A fact as its line shows it.
#[derive(Drop, PartialEq, Eq, PartialOrd, Ord)]
struct Line {
    home: Home,
    held: Vec<u32>,
}

/// The text of facts: a line for each, by thread and location, then by thread and edge, then by positions; then `end`.
pub fn table(alloc: Global, program: &Program, facts: &[Fact]) -> Result<Vec<u8>, AllocError>
    requires { AllByRecursion (HasItsHome program.now) facts.now }
    ensures text { IfOk result (λ text. IsTableOf (Contains (facts_of program.now facts.now)) text.items) }
    ensures least { IfOk result (λ text. (rule : RuleName) (sets : rules.Sets) → ((fact : rules.Fact) → Contains (facts_of program.now facts.now) fact ↔ Least program.now rule sets fact) → IsTable program.now rule sets text.items) }
{
    let lines = lines_of(alloc, program, facts)?;
    let lines = in_order(lines)?;
    let mut text = Vec::new(alloc);
    push_lines(&mut text, &lines)?;
    text.extend_from_slice(b"end\n")?;
    Ok(text)
}

/// Appends the line of a fact, as a table has it. It is made apart, so that nothing of it stands there where memory is wanting.
pub fn push_fact(out: &mut Vec<u8>, program: &Program, fact: &Fact) -> Result<(), AllocError>
    requires { HasItsHome program.now fact.now }
    ensures ok { OnOk result (out.new.items ≡ out.old.items ++ fact_line (fact_of program.now fact.now)) }
    ensures err { OnErr result (out.new.items ≡ out.old.items) }
{
    let alloc = *out.allocator();
    let line = line_of(alloc, program, fact)?;
    let mut text = Vec::new(alloc);
    push_line(&mut text, &line)?;
    out.extend_from_slice(text.as_slice())
}

/// The lines of facts.
fn lines_of(alloc: Global, program: &Program, facts: &[Fact]) -> Result<Vec<Line>, AllocError>
    requires { AllByRecursion (HasItsHome program.now) facts.now }
    ensures { IfOk result (λ lines. map fact_of_line lines.items ≡ facts_of program.now facts.now) }
{
    let mut lines = Vec::new(alloc);
    for fact in facts {
        lines.push(line_of(alloc, program, fact)?)?;
    }
    Ok(lines)
}

/// The lines in the order of tables, each once.
fn in_order(mut lines: Vec<Line>) -> Result<Vec<Line>, AllocError>
    ensures rising { IfOk result (λ ordered. AllPairs Precedes (map fact_of_line ordered.items)) }
    ensures same { IfOk result (λ ordered. (fact : rules.Fact) → Contains (map fact_of_line ordered.items) fact ↔ Contains (map fact_of_line lines.items) fact) }
{
    lines.sort()?;
    lines.dedup();
    Ok(lines)
}

fn line_of(alloc: Global, program: &Program, fact: &Fact) -> Result<Line, AllocError>
    requires { HasItsHome program.now fact.now }
    ensures { IfOk result (λ line. fact_of_line line ≡ fact_of program.now fact.now) }
{
    Ok(Line {
        home: named(program, fact.home),
        held: positions_of(alloc, fact.held)?,
    })
}

fn push_lines(text: &mut Vec<u8>, lines: &[Line]) -> Result<(), AllocError>
    ensures { OnOk result (text.new.items ≡ text.old.items ++ flat_map fact_line (map fact_of_line lines.now)) }
{
    for line in lines {
        push_line(text, line)?;
    }
    Ok(())
}

fn push_line(text: &mut Vec<u8>, line: &Line) -> Result<(), AllocError>
    ensures { OnOk result (text.new.items ≡ text.old.items ++ fact_line (fact_of_line line.now)) }
{
    push_parts(text, line.home)?;
    text.extend_from_slice(b" :")?;
    push_positions(text, &line.held)?;
    text.extend_from_slice(b"\n")
}

fn push_positions(text: &mut Vec<u8>, held: &[u32]) -> Result<(), AllocError>
    ensures { OnOk result (text.new.items ≡ text.old.items ++ positions_text held.now) }
{
    for position in held {
        text.extend_from_slice(b" ")?;
        push_number(text, i128::from(*position))?;
    }
    Ok(())
}
