//! Statements over those one level deeper, whose parser is a parameter, so that each is proved by itself.

ghost use Rattle.std.specs.Prelude.{◌≡◌};
ghost use Rattle.c_tree.specs.inside.Input.{Reads};
ghost use Rattle.c_tree.specs.inside.Many.{many};
ghost use Rattle.c_tree.specs.inside.Stmt as stmt_spec;
ghost use Rattle.c_tree.specs.inside.NestsStmt.{NestsStmt};

use crate::heads::{
    assign_stmt, break_stmt, call_stmt, condition, first_part, handles_stmt, last_part, local_stmt,
    middle_part, return_stmt, word_end,
};
use crate::stmt::{Around, Block, Stmt};
use crate::term::Term;
use crate::tokens::Tokens;
use sqlite_items::{Boxed, Items};
use std::alloc::Global;
use thr_base::Stop;

#[derive(Clone, Copy)]
pub struct Statements<F> {
    pub alloc: Global,
    /// How many levels may still be opened.
    pub levels: u32,
    pub stmt: F,
}

impl<F: Fn(Global, &mut Tokens<'_, '_>, u32, Around) -> Result<Stmt, Stop>> Statements<F> {
    fn inner(&self, tokens: &mut Tokens<'_, '_>, around: Around) -> Result<Stmt, Stop>
        requires { NestsStmt self.now.levels (F.pre self.now.stmt) (F.post self.now.stmt) }
        ensures { Reads (stmt_spec.stmt self.now.levels around tokens.old) result tokens.new }
    {
        (self.stmt)(self.alloc, tokens, self.levels, around)
    }

    // Statements up to a token that ends them, which is not taken.
    fn stmts(
        &self,
        tokens: &mut Tokens<'_, '_>,
        end: Term,
        around: Around,
    ) -> Result<Items<Stmt>, Stop>
        requires { NestsStmt self.now.levels (F.pre self.now.stmt) (F.post self.now.stmt) }
        ensures { Reads (many end (stmt_spec.stmt self.now.levels around) tokens.old) result tokens.new }
    {
        let mut all = Items::new(self.alloc);
        while !tokens.sees(end) {
            let item = self.inner(tokens, around)?;
            all.push(item)?;
        }
        Ok(all)
    }

    #[tactic(auto, unfolding(crate::specs::inside::Stmt::block))]
    pub fn block(&self, tokens: &mut Tokens<'_, '_>, around: Around) -> Result<Block, Stop>
        requires { NestsStmt self.now.levels (F.pre self.now.stmt) (F.post self.now.stmt) }
        ensures { Reads (stmt_spec.block self.now.levels (stmt_spec.stmt self.now.levels) around tokens.old) result tokens.new }
    {
        let from = tokens.expect(Term::LeftBrace)?;
        let stmts = self.stmts(tokens, Term::RightBrace, around)?;
        tokens.expect(Term::RightBrace)?;
        Ok(Block { from, stmts })
    }

    fn boxed(&self, tokens: &mut Tokens<'_, '_>, around: Around) -> Result<Boxed<Stmt>, Stop>
        requires { NestsStmt self.now.levels (F.pre self.now.stmt) (F.post self.now.stmt) }
        ensures { Reads (stmt_spec.stmt self.now.levels around tokens.old) result tokens.new }
    {
        let stmt = self.inner(tokens, around)?;
        Ok(Boxed::new(self.alloc, stmt)?)
    }

    #[tactic(auto, unfolding(crate::specs::inside::Stmt::if_stmt))]
    fn if_stmt(&self, tokens: &mut Tokens<'_, '_>, around: Around) -> Result<Stmt, Stop>
        requires { NestsStmt self.now.levels (F.pre self.now.stmt) (F.post self.now.stmt) }
        ensures { Reads (stmt_spec.if_stmt self.now.levels (stmt_spec.stmt self.now.levels) around tokens.old) result tokens.new }
    {
        let from = tokens.take();
        let cond = condition(self.alloc, tokens, self.levels)?;
        let inside = self.boxed(tokens, around)?;
        let otherwise = if tokens.eat(Term::Else) {
            Some(self.boxed(tokens, around)?)
        } else {
            None
        };
        Ok(Stmt::If(from, cond, inside, otherwise))
    }

    #[tactic(auto, unfolding(crate::specs::inside::Stmt::while_stmt))]
    fn while_stmt(&self, tokens: &mut Tokens<'_, '_>) -> Result<Stmt, Stop>
        requires { NestsStmt self.now.levels (F.pre self.now.stmt) (F.post self.now.stmt) }
        ensures { Reads (stmt_spec.while_stmt self.now.levels (stmt_spec.stmt self.now.levels) tokens.old) result tokens.new }
    {
        let from = tokens.take();
        let cond = condition(self.alloc, tokens, self.levels)?;
        let body = self.boxed(tokens, Around::Loop)?;
        Ok(Stmt::While(from, cond, body))
    }

    #[tactic(auto, unfolding(crate::specs::inside::Stmt::for_stmt))]
    fn for_stmt(&self, tokens: &mut Tokens<'_, '_>) -> Result<Stmt, Stop>
        requires { NestsStmt self.now.levels (F.pre self.now.stmt) (F.post self.now.stmt) }
        ensures { Reads (stmt_spec.for_stmt self.now.levels (stmt_spec.stmt self.now.levels) tokens.old) result tokens.new }
    {
        let from = tokens.take();
        tokens.expect(Term::LeftParen)?;
        let first = first_part(self.alloc, tokens, self.levels)?;
        let cond = middle_part(self.alloc, tokens, self.levels)?;
        tokens.expect(Term::Semicolon)?;
        let last = last_part(self.alloc, tokens, self.levels)?;
        tokens.expect(Term::RightParen)?;
        let body = self.boxed(tokens, Around::Loop)?;
        Ok(Stmt::For(from, first, cond, last, body))
    }

    #[tactic(auto, unfolding(crate::specs::inside::Stmt::atomic_stmt))]
    fn atomic_stmt(&self, tokens: &mut Tokens<'_, '_>, around: Around) -> Result<Stmt, Stop>
        requires { NestsStmt self.now.levels (F.pre self.now.stmt) (F.post self.now.stmt) }
        ensures { Reads (stmt_spec.atomic_stmt self.now.levels (stmt_spec.stmt self.now.levels) around tokens.old) result tokens.new }
    {
        let from = tokens.take();
        word_end(tokens)?;
        let stmts = self.stmts(tokens, Term::AtomicEnd, around)?;
        tokens.expect(Term::AtomicEnd)?;
        word_end(tokens)?;
        Ok(Stmt::Atomic(from, stmts))
    }

    /// A statement, where a further level may be opened.
    #[tactic(auto, unfolding(crate::specs::inside::Stmt::stmt_over))]
    pub fn stmt(&self, tokens: &mut Tokens<'_, '_>, around: Around) -> Result<Stmt, Stop>
        requires { NestsStmt self.now.levels (F.pre self.now.stmt) (F.post self.now.stmt) }
        ensures { Reads (stmt_spec.stmt_over self.now.levels (stmt_spec.stmt self.now.levels) around tokens.old) result tokens.new }
    {
        match tokens.peek() {
            Term::LeftBrace => Ok(Stmt::Block(self.block(tokens, around)?)),
            Term::Semicolon => Ok(Stmt::Empty(tokens.take())),
            Term::Static | Term::Volatile | Term::Extern | Term::Int | Term::Long => {
                local_stmt(self.alloc, tokens, self.levels)
            }
            Term::Name | Term::Increment | Term::Decrement => {
                assign_stmt(self.alloc, tokens, self.levels)
            }
            Term::If => self.if_stmt(tokens, around),
            Term::While => self.while_stmt(tokens),
            Term::For => self.for_stmt(tokens),
            Term::Break => break_stmt(tokens, around),
            Term::Return => return_stmt(tokens),
            Term::AtomicBegin => self.atomic_stmt(tokens, around),
            Term::HandleType => handles_stmt(self.alloc, tokens),
            _ => call_stmt(self.alloc, tokens, self.levels),
        }
    }
}
