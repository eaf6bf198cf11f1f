//! The items of a text, in order: what they declare, the functions of its threads, and what `main` creates.

ghost use Rattle.std.specs.Prelude.{◌≡◌, ◌∷◌, ◌++◌, [], None, Some, is_some, map, OnOk, IfOk};
ghost use Rattle.std.specs.Option.{option_copied, option_to_list};
ghost use Rattle.thr_base.specs.Refusals.{bad_main};
ghost use Rattle.c_tree.specs.Plain as plain;
ghost use Rattle.c_tree.specs.Seen.{plain_block, plain_body, plain_gname, plain_items, plain_names, plain_typed, plain_untyped};
ghost use Rattle.c_check.specs.Program as program;
ghost use Rattle.c_check.specs.First.{first_of};
ghost use Rattle.c_check.specs.inside.Walked.{IsWalked, with_item, with_refusal};

use crate::breaks::twice;
use crate::columns::{OwnVariables, lock_column, variable_column};
use crate::first::{earlier, refusal_if};
use crate::locals::declare_handles;
use crate::main_form::main_body;
use crate::meaning::{Meaning, Variable};
use crate::plan::{Column, Function};
use crate::scopes::Scopes;
use crate::statements::function_body;
use c_tree::{Block, Body, Gname, Handles, Item, Mainfn, Mname, Name, Typed, Untyped};
use sqlite_items::Items;
use std::alloc::{AllocError, Global};
use thr_base::{BAD_MAIN, Refusal};

/// What was found of the items that were gone through.
#[derive(Drop)]
pub struct Walk {
    pub scopes: Scopes,
    /// The columns of the shared variables.
    pub variables: Items<Column>,
    /// The columns of the locks.
    pub locks: Items<Column>,
    /// What a thread of each function has of its own.
    pub owns: Items<OwnVariables>,
    pub functions: Items<Function>,
    /// The place of the first `main`.
    pub main: Option<u32>,
    /// The numbers of the functions that it creates threads of.
    pub created: Items<usize>,
    /// The first rule that is broken.
    pub refusal: Option<Refusal>,
}

impl Walk {
    fn note(&mut self, refusal: Option<Refusal>)
        ensures { self.new ≡ with_refusal self.old refusal }
    {
        self.refusal = earlier(self.refusal, refusal);
    }

    fn global(&mut self, alloc: Global, variable: &Gname) -> Result<(), AllocError>
        ensures { OnOk result (self.new ≡ with_item self.old (plain.Item.Globals (plain_gname variable.now ∷ []))) }
    {
        let number = self.variables.len();
        let again = twice(&self.scopes, &variable.name);
        self.note(again);
        self.scopes.declare(
            alloc,
            &variable.name,
            Meaning::Integer(Variable::Shared(number)),
        )?;
        self.variables.push(variable_column(alloc, variable)?)
    }

    fn more_globals(&mut self, alloc: Global, more: &[(u32, Gname)]) -> Result<(), AllocError>
        ensures { OnOk result (self.new ≡ with_item self.old (plain.Item.Globals (map (λ m. plain_gname m.1) more.now))) }
    {
        for variable in more {
            self.global(alloc, &variable.1)?;
        }
        Ok(())
    }

    fn lock(&mut self, alloc: Global, name: &Name) -> Result<(), AllocError>
        ensures { OnOk result (self.new ≡ with_item self.old (plain.Item.Locks (name.now ∷ []))) }
    {
        let number = self.locks.len();
        let again = twice(&self.scopes, name);
        self.note(again);
        self.scopes.declare(alloc, name, Meaning::Lock(number))?;
        self.locks.push(lock_column(alloc, name)?)
    }

    fn more_locks(&mut self, alloc: Global, more: &[(u32, Mname)]) -> Result<(), AllocError>
        ensures { OnOk result (self.new ≡ with_item self.old (plain.Item.Locks (map (λ m. m.1.name) more.now))) }
    {
        for lock in more {
            self.lock(alloc, &lock.1.name)?;
        }
        Ok(())
    }

    fn handles(&mut self, alloc: Global, handles: &Handles) -> Result<(), AllocError>
        ensures { OnOk result (self.new ≡ with_item self.old (plain.Item.Handles handles.now.from (plain_names handles.now))) }
    {
        let refusal = declare_handles(alloc, &mut self.scopes, handles)?;
        self.note(refusal);
        Ok(())
    }

    fn function(&mut self, alloc: Global, name: &Name, block: &Block) -> Result<(), AllocError>
        ensures { OnOk result (self.new ≡ with_item self.old (plain.Item.Thread name.now (plain_block block.now))) }
    {
        let number = self.functions.len();
        let again = twice(&self.scopes, name);
        self.scopes.declare(alloc, name, Meaning::Function(number))?;
        let body = function_body(alloc, &mut self.scopes, block)?;
        self.note(earlier(again, body.refusal));
        self.functions.push(Function {
            from: name.from,
            locals: body.locals.len(),
            temporaries: body.temporaries,
            body: body.code,
        })?;
        self.owns.push(OwnVariables {
            locals: body.locals,
            temporaries: body.temporaries,
        })
    }

    fn main_function(&mut self, alloc: Global, main: &Mainfn) -> Result<(), AllocError>
        ensures { OnOk result (self.new ≡ with_item self.old (plain.Item.Main main.now.from (plain_block main.now.body))) }
    {
        let is_second = self.main.is_some();
        let body = main_body(alloc, &mut self.scopes, &main.body)?;
        self.note(earlier(refusal_if(is_second, BAD_MAIN, main.from), body.refusal));
        if !is_second {
            self.main = Some(main.from);
            self.created.append(body.created)?;
        }
        Ok(())
    }

    fn typed(&mut self, alloc: Global, typed: &Typed) -> Result<(), AllocError>
        ensures { OnOk result (self.new ≡ with_item self.old (plain_typed typed.now)) }
    {
        match typed {
            Typed::Globals(globals) => {
                self.global(alloc, &globals.first)?;
                self.more_globals(alloc, globals.more.as_slice())
            }
            Typed::Main(main) => self.main_function(alloc, main),
            Typed::Proto(_) => Ok(()),
        }
    }

    fn untyped(&mut self, alloc: Global, untyped: &Untyped) -> Result<(), AllocError>
        ensures { OnOk result (self.new ≡ with_item self.old (plain_untyped untyped.now)) }
    {
        match untyped {
            Untyped::Thread(thread) => match &thread.body {
                Some(block) => self.function(alloc, &thread.name, block),
                None => Ok(()),
            },
            Untyped::Proto(_) => Ok(()),
            Untyped::Errfn(_) => Ok(()),
        }
    }

    fn item(&mut self, alloc: Global, item: &Item) -> Result<(), AllocError>
        ensures { OnOk result (self.new ≡ with_item self.old (plain_body item.now.body)) }
    {
        match &item.body {
            Body::Typed(_, typed) => self.typed(alloc, typed),
            Body::Void(_, untyped) => self.untyped(alloc, untyped),
            Body::Locks(locks) => {
                self.lock(alloc, &locks.first.name)?;
                self.more_locks(alloc, locks.more.as_slice())
            }
            Body::Handles(handles) => self.handles(alloc, handles),
        }
    }
}

/// The name of a thread function that has a body.
fn function_name(item: &Item) -> Option<&Name>
    ensures { option_to_list (option_copied result) ≡ program.functions_in (plain_body item.now.body ∷ []) }
{
    match &item.body {
        Body::Void(_, Untyped::Thread(thread)) => match &thread.body {
            Some(_) => Some(&thread.name),
            None => None,
        },
        _ => None,
    }
}

/// The scopes in front of a text.
fn first_scopes(alloc: Global, items: &[Item]) -> Result<Scopes, AllocError>
    ensures { IfOk result (λ scopes. scopes ≡ program.first_scopes (plain_items items.now)) }
{
    let mut scopes = Scopes::new(alloc);
    scopes.open()?;
    let mut number = 0;
    for item in items {
        if let Some(name) = function_name(item) {
            scopes.declare(alloc, name, Meaning::Function(number))?;
            number += 1;
        }
    }
    scopes.open()?;
    Ok(scopes)
}

/// What is found of all items of a text, which ends here.
pub fn walk_items(alloc: Global, items: &[Item], end: u32) -> Result<Walk, AllocError>
    ensures { IfOk result (IsWalked (record { items = plain_items items.now; end = end })) }
{
    let mut walk = Walk {
        scopes: first_scopes(alloc, items)?,
        variables: Items::new(alloc),
        locks: Items::new(alloc),
        owns: Items::new(alloc),
        functions: Items::new(alloc),
        main: None,
        created: Items::new(alloc),
        refusal: None,
    };
    for item in items {
        walk.item(alloc, item)?;
    }
    let has_none = walk.main.is_none();
    walk.note(refusal_if(has_none, BAD_MAIN, end));
    Ok(walk)
}
