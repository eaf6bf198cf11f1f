//! Each level of expressions over that of operands, whose parser is a parameter, so that each is proved by itself.

ghost use Rattle.std.specs.Prelude.{◌≡◌, Some};
ghost use Rattle.c_tree.specs.inside.Chain.{more_of, mark_at, past};
ghost use Rattle.c_tree.specs.inside.Expr as spec;
ghost use Rattle.c_tree.specs.inside.Input.{Reads};
ghost use Rattle.c_tree.specs.inside.Nests.{Nests};

use crate::expr::{
    Conjunction, Equality, EqualityKind, EqualityMark, Expr, Product, Relation, RelationKind,
    RelationMark, Sum, SumKind, SumMark, Unary, UnaryKind,
};
use crate::more::more_of;
use crate::operand::{name_operand, number_operand};
use crate::term::Term;
use crate::tokens::Tokens;
use sqlite_items::{Boxed, Items};
use std::alloc::Global;
use thr_base::Stop;

#[derive(Clone, Copy)]
pub struct Levels<F> {
    pub alloc: Global,
    /// How many levels may still be opened.
    pub levels: u32,
    pub unary: F,
}

fn product_mark(tokens: &mut Tokens<'_, '_>) -> Option<u32>
    ensures mark { result ≡ mark_at spec.product_mark tokens.old }
    ensures after { tokens.new ≡ past (mark_at spec.product_mark tokens.old) tokens.old }
{
    match tokens.peek() {
        Term::Star => Some(tokens.take()),
        _ => None,
    }
}

fn sum_mark(tokens: &mut Tokens<'_, '_>) -> Option<SumMark>
    ensures mark { result ≡ mark_at spec.sum_mark tokens.old }
    ensures after { tokens.new ≡ past (mark_at spec.sum_mark tokens.old) tokens.old }
{
    let kind = match tokens.peek() {
        Term::Plus => SumKind::Plus,
        Term::Minus => SumKind::Minus,
        _ => return None,
    };
    let from = tokens.take();
    Some(SumMark { from, kind })
}

fn relation_mark(tokens: &mut Tokens<'_, '_>) -> Option<RelationMark>
    ensures mark { result ≡ mark_at spec.relation_mark tokens.old }
    ensures after { tokens.new ≡ past (mark_at spec.relation_mark tokens.old) tokens.old }
{
    let kind = match tokens.peek() {
        Term::Less => RelationKind::Less,
        Term::AtMost => RelationKind::AtMost,
        Term::Greater => RelationKind::Greater,
        Term::AtLeast => RelationKind::AtLeast,
        _ => return None,
    };
    let from = tokens.take();
    Some(RelationMark { from, kind })
}

fn equality_mark(tokens: &mut Tokens<'_, '_>) -> Option<EqualityMark>
    ensures mark { result ≡ mark_at spec.equality_mark tokens.old }
    ensures after { tokens.new ≡ past (mark_at spec.equality_mark tokens.old) tokens.old }
{
    let kind = match tokens.peek() {
        Term::Equal => EqualityKind::Equal,
        Term::Unequal => EqualityKind::Unequal,
        _ => return None,
    };
    let from = tokens.take();
    Some(EqualityMark { from, kind })
}

fn and_mark(tokens: &mut Tokens<'_, '_>) -> Option<u32>
    ensures mark { result ≡ mark_at spec.and_mark tokens.old }
    ensures after { tokens.new ≡ past (mark_at spec.and_mark tokens.old) tokens.old }
{
    match tokens.peek() {
        Term::And => Some(tokens.take()),
        _ => None,
    }
}

fn or_mark(tokens: &mut Tokens<'_, '_>) -> Option<u32>
    ensures mark { result ≡ mark_at spec.or_mark tokens.old }
    ensures after { tokens.new ≡ past (mark_at spec.or_mark tokens.old) tokens.old }
{
    match tokens.peek() {
        Term::Or => Some(tokens.take()),
        _ => None,
    }
}

impl<F: Fn(Global, &mut Tokens<'_, '_>, u32) -> Result<Unary, Stop>> Levels<F> {
    fn unary(&self, tokens: &mut Tokens<'_, '_>) -> Result<Unary, Stop>
        requires { Nests self.now.levels (F.pre self.now.unary) (F.post self.now.unary) }
        ensures { Reads (spec.unary self.now.levels tokens.old) result tokens.new }
    {
        (self.unary)(self.alloc, tokens, self.levels)
    }

    fn more_products(&self, tokens: &mut Tokens<'_, '_>) -> Result<Items<(u32, Unary)>, Stop>
        requires { Nests self.now.levels (F.pre self.now.unary) (F.post self.now.unary) }
        ensures { Reads (more_of spec.product_mark (spec.unary self.now.levels) tokens.old) result tokens.new }
    {
        more_of!(self.alloc, product_mark(tokens), self.unary(tokens))
    }

    #[tactic(auto, unfolding(crate::specs::inside::Expr::product))]
    fn product(&self, tokens: &mut Tokens<'_, '_>) -> Result<Product, Stop>
        requires { Nests self.now.levels (F.pre self.now.unary) (F.post self.now.unary) }
        ensures { Reads (spec.product (spec.unary self.now.levels) tokens.old) result tokens.new }
    {
        let from = tokens.place();
        let first = self.unary(tokens)?;
        let more = self.more_products(tokens)?;
        Ok(Product { from, first, more })
    }

    fn more_sums(&self, tokens: &mut Tokens<'_, '_>) -> Result<Items<(SumMark, Product)>, Stop>
        requires { Nests self.now.levels (F.pre self.now.unary) (F.post self.now.unary) }
        ensures { Reads (more_of spec.sum_mark (spec.product (spec.unary self.now.levels)) tokens.old) result tokens.new }
    {
        more_of!(self.alloc, sum_mark(tokens), self.product(tokens))
    }

    #[tactic(auto, unfolding(crate::specs::inside::Expr::sum))]
    fn sum(&self, tokens: &mut Tokens<'_, '_>) -> Result<Sum, Stop>
        requires { Nests self.now.levels (F.pre self.now.unary) (F.post self.now.unary) }
        ensures { Reads (spec.sum (spec.unary self.now.levels) tokens.old) result tokens.new }
    {
        let from = tokens.place();
        let first = self.product(tokens)?;
        let more = self.more_sums(tokens)?;
        Ok(Sum { from, first, more })
    }

    fn more_relations(
        &self,
        tokens: &mut Tokens<'_, '_>,
    ) -> Result<Items<(RelationMark, Sum)>, Stop>
        requires { Nests self.now.levels (F.pre self.now.unary) (F.post self.now.unary) }
        ensures { Reads (more_of spec.relation_mark (spec.sum (spec.unary self.now.levels)) tokens.old) result tokens.new }
    {
        more_of!(self.alloc, relation_mark(tokens), self.sum(tokens))
    }

    #[tactic(auto, unfolding(crate::specs::inside::Expr::relation))]
    fn relation(&self, tokens: &mut Tokens<'_, '_>) -> Result<Relation, Stop>
        requires { Nests self.now.levels (F.pre self.now.unary) (F.post self.now.unary) }
        ensures { Reads (spec.relation (spec.unary self.now.levels) tokens.old) result tokens.new }
    {
        let from = tokens.place();
        let first = self.sum(tokens)?;
        let more = self.more_relations(tokens)?;
        Ok(Relation { from, first, more })
    }

    fn more_equalities(
        &self,
        tokens: &mut Tokens<'_, '_>,
    ) -> Result<Items<(EqualityMark, Relation)>, Stop>
        requires { Nests self.now.levels (F.pre self.now.unary) (F.post self.now.unary) }
        ensures { Reads (more_of spec.equality_mark (spec.relation (spec.unary self.now.levels)) tokens.old) result tokens.new }
    {
        more_of!(self.alloc, equality_mark(tokens), self.relation(tokens))
    }

    #[tactic(auto, unfolding(crate::specs::inside::Expr::equality))]
    fn equality(&self, tokens: &mut Tokens<'_, '_>) -> Result<Equality, Stop>
        requires { Nests self.now.levels (F.pre self.now.unary) (F.post self.now.unary) }
        ensures { Reads (spec.equality (spec.unary self.now.levels) tokens.old) result tokens.new }
    {
        let from = tokens.place();
        let first = self.relation(tokens)?;
        let more = self.more_equalities(tokens)?;
        Ok(Equality { from, first, more })
    }

    fn more_conjunctions(&self, tokens: &mut Tokens<'_, '_>) -> Result<Items<(u32, Equality)>, Stop>
        requires { Nests self.now.levels (F.pre self.now.unary) (F.post self.now.unary) }
        ensures { Reads (more_of spec.and_mark (spec.equality (spec.unary self.now.levels)) tokens.old) result tokens.new }
    {
        more_of!(self.alloc, and_mark(tokens), self.equality(tokens))
    }

    #[tactic(auto, unfolding(crate::specs::inside::Expr::conjunction))]
    fn conjunction(&self, tokens: &mut Tokens<'_, '_>) -> Result<Conjunction, Stop>
        requires { Nests self.now.levels (F.pre self.now.unary) (F.post self.now.unary) }
        ensures { Reads (spec.conjunction (spec.unary self.now.levels) tokens.old) result tokens.new }
    {
        let from = tokens.place();
        let first = self.equality(tokens)?;
        let more = self.more_conjunctions(tokens)?;
        Ok(Conjunction { from, first, more })
    }

    fn more_exprs(&self, tokens: &mut Tokens<'_, '_>) -> Result<Items<(u32, Conjunction)>, Stop>
        requires { Nests self.now.levels (F.pre self.now.unary) (F.post self.now.unary) }
        ensures { Reads (more_of spec.or_mark (spec.conjunction (spec.unary self.now.levels)) tokens.old) result tokens.new }
    {
        more_of!(self.alloc, or_mark(tokens), self.conjunction(tokens))
    }

    #[tactic(auto, unfolding(crate::specs::inside::Expr::expr_over))]
    pub fn expr(&self, tokens: &mut Tokens<'_, '_>) -> Result<Expr, Stop>
        requires { Nests self.now.levels (F.pre self.now.unary) (F.post self.now.unary) }
        ensures { Reads (spec.expr_over (spec.unary self.now.levels) tokens.old) result tokens.new }
    {
        let from = tokens.place();
        let first = self.conjunction(tokens)?;
        let more = self.more_exprs(tokens)?;
        Ok(Expr { from, first, more })
    }

    // An operand behind an operator.
    fn operated(&self, tokens: &mut Tokens<'_, '_>, kind: UnaryKind) -> Result<Unary, Stop>
        requires { Nests self.now.levels (F.pre self.now.unary) (F.post self.now.unary) }
        ensures { Reads (spec.operated (Some (spec.unary self.now.levels)) kind tokens.old) result tokens.new }
    {
        let from = tokens.take();
        let operand = self.unary(tokens)?;
        Ok(Unary::Operator(from, kind, Boxed::new(self.alloc, operand)?))
    }

    fn parenthesized(&self, tokens: &mut Tokens<'_, '_>) -> Result<Unary, Stop>
        requires { Nests self.now.levels (F.pre self.now.unary) (F.post self.now.unary) }
        ensures { Reads (spec.parenthesized (Some (spec.unary self.now.levels)) tokens.old) result tokens.new }
    {
        let from = tokens.take();
        let inner = self.expr(tokens)?;
        tokens.expect(Term::RightParen)?;
        Ok(Unary::Paren(from, Boxed::new(self.alloc, inner)?))
    }

    /// An operand, where a further level may be opened.
    #[tactic(auto, unfolding(crate::specs::inside::Expr::unary_with))]
    pub fn operand(&self, tokens: &mut Tokens<'_, '_>) -> Result<Unary, Stop>
        requires { Nests self.now.levels (F.pre self.now.unary) (F.post self.now.unary) }
        ensures { Reads (spec.unary_with (Some (spec.unary self.now.levels)) tokens.old) result tokens.new }
    {
        match tokens.peek() {
            Term::Minus => self.operated(tokens, UnaryKind::Minus),
            Term::Plus => self.operated(tokens, UnaryKind::Plus),
            Term::Not => self.operated(tokens, UnaryKind::Not),
            Term::LeftParen => self.parenthesized(tokens),
            Term::Number => number_operand(tokens),
            Term::Name => name_operand(self.alloc, tokens),
            _ => Err(tokens.refuse()),
        }
    }
}
