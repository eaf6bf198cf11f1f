ghost use Rattle.std.specs.Prelude.{◌≡◌, List, length, IfNone, IfOk, IfSome};
ghost use Rattle.transition_formula.specs.Program.{IsProgram};
ghost use Rattle.horn_rules.specs.Home.{homes, IsHomeOf};
ghost use Rattle.horn_rules.specs.Stored.{home_of};
ghost use Rattle.horn_rules.specs.Predicate.{Predicate};
ghost use Rattle.annotation_form.specs.Predicates.{lists_of};
ghost use Rattle.annotation_form.specs.inside.Reading.{IsAdded, IsLineOf, IsTakenAs};

use crate::head::{is_at_edge, read_head};
use horn_rules::{has_home, number};
use lin_rows::Atom;
use predicate_sets::{AddStop, Added, Sets};
use std::alloc::{AllocError, Global};
use thr_base::Home;
use transition_formula::{Program, read_atom};

/// Appends an atom to a home's list, unless it is there already or the list is full.
fn add(program: &Program, sets: &mut Sets, home: Home, atom: Atom) -> Result<bool, AllocError>
    requires home { IsHomeOf program.now (home_of home) }
    requires sets { length sets.old ≡ length (homes program.now) }
    ensures added { (before : List Predicate) → sets.old ≡ lists_of program.now before → IfOk result (λ added. IsAdded program.now before (record { home = home_of home; atom = atom }) added sets.new) }
    ensures length { length sets.new ≡ length sets.old }
{
    let number = number(program, home);
    match sets.add(number, atom) {
        Ok(Added::New(_)) => Ok(true),
        Ok(Added::Known(_)) => Ok(false),
        Err(AddStop::Full) => Ok(false),
        Err(AddStop::Memory) => Err(AllocError),
    }
}

/// The predicate of a line.
fn read_line(
    alloc: Global,
    program: &Program,
    line: &[u8],
) -> Result<Option<(Home, Atom)>, AllocError>
    requires { IsProgram program.now }
    ensures some { IfOk result (λ read. IfSome read (λ found. IsLineOf program.now (record { home = home_of found.0; atom = found.1 }) line.now)) }
    ensures only { IfOk result (λ read. IfSome read (λ found. (other : Predicate) → IsLineOf program.now other line.now → other ≡ record { home = home_of found.0; atom = found.1 })) }
    ensures none { IfOk result (λ read. IfNone read ((other : Predicate) → ¬ IsLineOf program.now other line.now)) }
{
    let Some((home, text)) = read_head(line) else {
        return Ok(None);
    };
    if !has_home(program, home) {
        return Ok(None);
    }
    match read_atom(alloc, program, text, is_at_edge(home))? {
        Some(atom) => Ok(Some((home, atom))),
        None => Ok(None),
    }
}

/// Adds the predicate of a line, if it is one's and may stand there.
pub(crate) fn take_line(
    alloc: Global,
    program: &Program,
    sets: &mut Sets,
    line: &[u8],
) -> Result<bool, AllocError>
    requires program { IsProgram program.now }
    requires sets { length sets.old ≡ length (homes program.now) }
    ensures taken { (before : List Predicate) → sets.old ≡ lists_of program.now before → IfOk result (λ taken. IsTakenAs program.now before line.now taken sets.new) }
    ensures length { length sets.new ≡ length sets.old }
{
    match read_line(alloc, program, line)? {
        Some((home, atom)) => add(program, sets, home, atom),
        None => Ok(false),
    }
}
