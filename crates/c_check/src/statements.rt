//! The statements of a function.

ghost use Rattle.std.specs.Prelude.{◌≡◌, ◌++◌, [], true, false, length, option_map, OnOk, IfOk, map};
ghost use Rattle.c_tree.specs.Plain as plain;
ghost use Rattle.c_tree.specs.Seen.{plain_assign, plain_block, plain_call, plain_cond, plain_names, plain_stmt, plain_stmts};
ghost use Rattle.c_check.specs.Scope.{open_scope};
ghost use Rattle.c_check.specs.Plan as plan;
ghost use Rattle.c_check.specs.Resolve as resolve;
ghost use Rattle.c_check.specs.Temporaries as temporaries;
ghost use Rattle.c_check.specs.Broken as broken;
ghost use Rattle.c_check.specs.First.{first_of};
ghost use Rattle.c_check.specs.declared.instruction.Instruction.TheVariants as instruction;
ghost use Rattle.c_check.specs.inside.Found.{found, other_found, outside_atomic, refused, stmt_found, stmts_found, together};

use crate::body::Body;
use crate::breaks::{assign, call, only_in_main};
use crate::first::earlier;
use crate::instruction::Instruction;
use crate::locals::declare_handles;
use crate::place::Place;
use crate::scopes::Scopes;
use c_tree::{Assign, Block, Call, Cond, Handles, Stmt};
use sqlite_items::Boxed;
use std::alloc::{AllocError, Global};

impl Body {
    /// Goes over a statement. A declaration is visible behind it.
    #[cycle(statements)]
    pub fn statement(
        &mut self,
        alloc: Global,
        scopes: &mut Scopes,
        place: Place,
        s: &Stmt,
    ) -> Result<(), AllocError>
        ensures scopes { OnOk result (scopes.new ≡ resolve.behind scopes.old (length self.old.locals) (plain_stmt s.now)) }
        ensures body { OnOk result (self.new ≡ together self.old (stmt_found place scopes.old (length self.old.locals) (plain_stmt s.now))) }
    {
        match s {
            Stmt::Block(block) => self.block(alloc, scopes, place, block),
            Stmt::Empty(_) => Ok(()),
            Stmt::Local(local) => self.locals(alloc, scopes, local.get()),
            Stmt::Assign(a) => self.assign_statement(alloc, scopes, a.get()),
            Stmt::If(from, c, s, other) => {
                self.begin_if(alloc, scopes, *from, c.get())?;
                self.inside(alloc, scopes, place, s.get())?;
                self.push(Instruction::Else)?;
                self.otherwise(alloc, scopes, place, other)?;
                self.push(Instruction::EndIf)
            }
            Stmt::While(from, c, s) => self.repeat(alloc, scopes, place, *from, c.get(), s.get()),
            Stmt::For(from, first, c, last, s) => {
                self.enter_for(alloc, scopes, place, *from, first.get())?;
                self.begin_for(alloc, scopes, *from, c, last)?;
                self.inside(alloc, scopes, place, s.get())?;
                self.end_loop(alloc, scopes, last)?;
                scopes.close();
                Ok(())
            }
            Stmt::Break(from) => self.push_outside_atomic(place, *from, Instruction::Break(*from)),
            Stmt::Return(from, _) => self.exit(place, *from),
            Stmt::Call(c) => self.call_statement(alloc, scopes, place, c.get()),
            Stmt::Atomic(from, ss) => self.atomic(alloc, scopes, place, *from, ss.as_slice()),
            Stmt::Handles(handles) => self.handles(alloc, scopes, place, handles.get()),
        }
    }

    // Goes over what stands behind an `else`, if there is one.
    #[cycle(statements)]
    fn otherwise(
        &mut self,
        alloc: Global,
        scopes: &mut Scopes,
        place: Place,
        other: &Option<Boxed<Stmt>>,
    ) -> Result<(), AllocError>
        ensures scopes { OnOk result (scopes.new ≡ scopes.old) }
        ensures body { OnOk result (self.new ≡ together self.old (other_found place (open_scope scopes.old) (length self.old.locals) (option_map plain_stmt other.now))) }
    {
        match other {
            None => Ok(()),
            Some(s) => self.inside(alloc, scopes, place, s.get()),
        }
    }

    // Goes over a `while`.
    #[cycle(statements)]
    fn repeat(
        &mut self,
        alloc: Global,
        scopes: &mut Scopes,
        place: Place,
        from: u32,
        c: &Cond,
        s: &Stmt,
    ) -> Result<(), AllocError>
        ensures scopes { OnOk result (scopes.new ≡ scopes.old) }
        ensures body { OnOk result (self.new ≡ together self.old (stmt_found place scopes.old (length self.old.locals) (plain.Stmt.While from (plain_cond c.now) (plain_stmt s.now)))) }
    {
        self.begin_while(alloc, scopes, place, from, c)?;
        self.inside(alloc, scopes, place, s)?;
        self.end_loop(alloc, scopes, &None)
    }

    // Goes over the statements of an atomic block. They have no scope of their own.
    #[cycle(statements)]
    fn atomic(
        &mut self,
        alloc: Global,
        scopes: &mut Scopes,
        place: Place,
        from: u32,
        ss: &[Stmt],
    ) -> Result<(), AllocError>
        ensures scopes { OnOk result (scopes.new ≡ resolve.behind_all scopes.old (length self.old.locals) (plain_stmts ss.now)) }
        ensures body { OnOk result (self.new ≡ together self.old (stmt_found place scopes.old (length self.old.locals) (plain.Stmt.Atomic from (plain_stmts ss.now)))) }
    {
        let temporaries = self.temporaries;
        self.push_outside_atomic(place, from, Instruction::Atomic(from))?;
        self.statements(alloc, scopes, place.in_atomic(), ss)?;
        self.end_atomic(temporaries)
    }

    // Goes over statements, one after another.
    #[cycle(statements)]
    fn statements(
        &mut self,
        alloc: Global,
        scopes: &mut Scopes,
        place: Place,
        ss: &[Stmt],
    ) -> Result<(), AllocError>
        ensures scopes { OnOk result (scopes.new ≡ resolve.behind_all scopes.old (length self.old.locals) (plain_stmts ss.now)) }
        ensures body { OnOk result (self.new ≡ together self.old (stmts_found place scopes.old (length self.old.locals) (plain_stmts ss.now))) }
    {
        for s in ss {
            self.statement(alloc, scopes, place, s)?;
        }
        Ok(())
    }

    // Goes over a statement that is a part of another one, and so a scope of its own.
    #[cycle(statements)]
    fn inside(
        &mut self,
        alloc: Global,
        scopes: &mut Scopes,
        place: Place,
        s: &Stmt,
    ) -> Result<(), AllocError>
        ensures scopes { OnOk result (scopes.new ≡ scopes.old) }
        ensures body { OnOk result (self.new ≡ together self.old (stmt_found place (open_scope scopes.old) (length self.old.locals) (plain_stmt s.now))) }
    {
        scopes.open()?;
        self.statement(alloc, scopes, place, s)?;
        scopes.close();
        Ok(())
    }

    /// Goes over a block, which is a scope.
    #[cycle(statements)]
    pub fn block(
        &mut self,
        alloc: Global,
        scopes: &mut Scopes,
        place: Place,
        block: &Block,
    ) -> Result<(), AllocError>
        ensures scopes { OnOk result (scopes.new ≡ scopes.old) }
        ensures body { OnOk result (self.new ≡ together self.old (stmts_found place (open_scope scopes.old) (length self.old.locals) (plain_block block.now))) }
    {
        scopes.open()?;
        self.statements(alloc, scopes, place, block.stmts.as_slice())?;
        scopes.close();
        Ok(())
    }

    fn assign_statement(
        &mut self,
        alloc: Global,
        scopes: &Scopes,
        a: &Assign,
    ) -> Result<(), AllocError>
        ensures { OnOk result (self.new ≡ together self.old (found [] (resolve.assign scopes.now (plain_assign a.now)) (broken.assign_broken scopes.now (plain_assign a.now)))) }
    {
        self.note(assign(scopes, a));
        self.assign(alloc, scopes, a)
    }

    fn call_statement(
        &mut self,
        alloc: Global,
        scopes: &Scopes,
        place: Place,
        c: &Call,
    ) -> Result<(), AllocError>
        ensures { OnOk result (self.new ≡ together self.old (found [] (resolve.call scopes.now (plain_call c.now)) (broken.call_broken place scopes.now (plain_call c.now)))) }
    {
        self.note(call(place, scopes, c));
        self.call(alloc, scopes, c)
    }

    // The thread ends.
    fn exit(&mut self, place: Place, from: u32) -> Result<(), AllocError>
        ensures { OnOk result (self.new ≡ together self.old (outside_atomic place from (instruction.Exit from))) }
    {
        self.push_outside_atomic(place, from, Instruction::Exit(from))
    }

    // Declares handles of threads, which `main` alone may do.
    fn handles(
        &mut self,
        alloc: Global,
        scopes: &mut Scopes,
        place: Place,
        h: &Handles,
    ) -> Result<(), AllocError>
        ensures scopes { OnOk result (scopes.new ≡ resolve.with_handles scopes.old (plain_names h.now)) }
        ensures body { OnOk result (self.new ≡ together self.old (refused (first_of (broken.only_in_main place h.now.from ++ broken.handles_broken scopes.old (plain_names h.now))))) }
    {
        let twice = declare_handles(alloc, scopes, h)?;
        self.note(earlier(only_in_main(place, h.from), twice));
        Ok(())
    }
}

/// Goes over the body of a thread function.
pub fn function_body(alloc: Global, scopes: &mut Scopes, block: &Block) -> Result<Body, AllocError>
    ensures scopes { OnOk result (scopes.new ≡ scopes.old) }
    ensures locals { IfOk result (λ b. b.locals ≡ map (λ l. l.name.text) (resolve.stmts_locals (plain_block block.now))) }
    ensures temporaries { IfOk result (λ b. b.temporaries ≡ temporaries.need (resolve.stmts (open_scope scopes.old) 0 (plain_block block.now))) }
    ensures code { IfOk result (λ b. b.code ≡ plan.code (resolve.stmts (open_scope scopes.old) 0 (plain_block block.now))) }
    ensures refusal { IfOk result (λ b. b.refusal ≡ first_of (broken.stmts_broken (record { is_in_thread = true; is_in_atomic = false }) (open_scope scopes.old) 0 (plain_block block.now))) }
{
    let place = Place {
        is_in_thread: true,
        is_in_atomic: false,
    };
    let mut body = Body::new(alloc);
    body.block(alloc, scopes, place, block)?;
    Ok(body)
}
