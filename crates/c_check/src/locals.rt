//! Declarations in functions.

ghost use Rattle.std.specs.Prelude.{◌≡◌, ◌∷◌, ◌++◌, [], map, length, OnOk, IfOk};
ghost use Rattle.c_tree.specs.Seen.{plain_first, plain_lname, plain_locals, plain_names};
ghost use Rattle.c_check.specs.Scope.{declare};
ghost use Rattle.c_check.specs.Broken as broken;
ghost use Rattle.c_check.specs.Resolve as resolve;
ghost use Rattle.c_check.specs.declared.meaning.Variable.TheVariants as variable;
ghost use Rattle.c_check.specs.declared.meaning.Meaning.TheVariants as meaning;
ghost use Rattle.c_check.specs.First.{first_of};
ghost use Rattle.c_check.specs.inside.Found.{first_found, local_found, locals_found, named, together};

use crate::body::Body;
use crate::breaks::{assign, start, twice};
use crate::first::earlier;
use crate::meaning::{Meaning, Variable};
use crate::scopes::Scopes;
use c_tree::{First, Handles, Lname, Local, Name};
use sqlite_items::Items;
use std::alloc::{AllocError, Global};
use thr_base::Refusal;

impl Body {
    // Adds the name of a local.
    fn push_name(&mut self, alloc: Global, x: &Name) -> Result<(), AllocError>
        ensures { OnOk result (self.new ≡ together self.old (named x.now)) }
    {
        let text = Items::from_slice(alloc, x.text.as_slice())?;
        self.locals.push(text)
    }

    // Declares a local, which is visible in what it starts with.
    fn local(&mut self, alloc: Global, scopes: &mut Scopes, l: &Lname) -> Result<(), AllocError>
        ensures scopes { OnOk result (scopes.new ≡ declare l.now.name (meaning.Integer (variable.Own (length self.old.locals))) scopes.old) }
        ensures body { OnOk result (self.new ≡ together self.old (local_found scopes.old (length self.old.locals) (plain_lname l.now))) }
    {
        let number = self.locals.len();
        self.note(twice(scopes, &l.name));
        scopes.declare(alloc, &l.name, Meaning::Integer(Variable::Own(number)))?;
        self.push_name(alloc, &l.name)?;
        self.note(start(scopes, &l.start));
        self.set_if(alloc, scopes, &l.name, &l.start)
    }

    // Declares the locals behind commas.
    fn more_locals(
        &mut self,
        alloc: Global,
        scopes: &mut Scopes,
        more: &[(u32, Lname)],
    ) -> Result<(), AllocError>
        ensures scopes { OnOk result (scopes.new ≡ resolve.with_locals scopes.old (length self.old.locals) (map (λ m. plain_lname m.1) more.now)) }
        ensures body { OnOk result (self.new ≡ together self.old (locals_found scopes.old (length self.old.locals) (map (λ m. plain_lname m.1) more.now))) }
    {
        for m in more {
            self.local(alloc, scopes, &m.1)?;
        }
        Ok(())
    }

    /// Declares locals.
    pub fn locals(
        &mut self,
        alloc: Global,
        scopes: &mut Scopes,
        l: &Local,
    ) -> Result<(), AllocError>
        ensures scopes { OnOk result (scopes.new ≡ resolve.with_locals scopes.old (length self.old.locals) (plain_locals l.now)) }
        ensures body { OnOk result (self.new ≡ together self.old (locals_found scopes.old (length self.old.locals) (plain_locals l.now))) }
    {
        self.local(alloc, scopes, &l.first)?;
        self.more_locals(alloc, scopes, l.more.as_slice())
    }

    /// Goes over the first part of a `for`.
    pub fn first(
        &mut self,
        alloc: Global,
        scopes: &mut Scopes,
        first: &First,
    ) -> Result<(), AllocError>
        ensures scopes { OnOk result (scopes.new ≡ resolve.with_first scopes.old (length self.old.locals) (plain_first first.now)) }
        ensures body { OnOk result (self.new ≡ together self.old (first_found scopes.old (length self.old.locals) (plain_first first.now))) }
    {
        match first {
            First::Local(l) => self.locals(alloc, scopes, l),
            First::Assign(a) => {
                self.note(assign(scopes, a));
                self.assign(alloc, scopes, a)
            }
            First::Empty(_) => Ok(()),
        }
    }
}

// Declares a handle.
fn handle(alloc: Global, scopes: &mut Scopes, x: &Name) -> Result<Option<Refusal>, AllocError>
    ensures scopes { OnOk result (scopes.new ≡ declare x.now meaning.Handle scopes.old) }
    ensures refusal { IfOk result (λ d. d ≡ first_of (broken.twice scopes.old x.now)) }
{
    let refusal = twice(scopes, x);
    scopes.declare(alloc, x, Meaning::Handle)?;
    Ok(refusal)
}

// Declares the handles behind commas.
fn more_handles(
    alloc: Global,
    scopes: &mut Scopes,
    more: &[(u32, Name)],
) -> Result<Option<Refusal>, AllocError>
    ensures scopes { OnOk result (scopes.new ≡ resolve.with_handles scopes.old (map (λ m. m.1) more.now)) }
    ensures refusal { IfOk result (λ d. d ≡ first_of (broken.handles_broken scopes.old (map (λ m. m.1) more.now))) }
{
    let mut refusal = None;
    for m in more {
        refusal = earlier(refusal, handle(alloc, scopes, &m.1)?);
    }
    Ok(refusal)
}

/// Declares handles, and says which of them is declared twice first.
pub fn declare_handles(
    alloc: Global,
    scopes: &mut Scopes,
    h: &Handles,
) -> Result<Option<Refusal>, AllocError>
    ensures scopes { OnOk result (scopes.new ≡ resolve.with_handles scopes.old (plain_names h.now)) }
    ensures refusal { IfOk result (λ d. d ≡ first_of (broken.handles_broken scopes.old (plain_names h.now))) }
{
    let first = handle(alloc, scopes, &h.first)?;
    let more = more_handles(alloc, scopes, h.more.as_slice())?;
    Ok(earlier(first, more))
}
