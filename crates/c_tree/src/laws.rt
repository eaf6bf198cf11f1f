//! What the grammar says, and that reading gives just that.

ghost use Rattle.std.specs.Prelude.{◌≡◌, ◌<◌, ◌⊎◌, ℕ, List, [], length, Ok};
ghost use Rattle.c_lex.specs.Tokens.{Lexeme, lexed};
ghost use Rattle.c_tree.specs.Grammar.{IsExpr, StartsAt, binds};
ghost use Rattle.c_tree.specs.GrammarItem.{IsTreeOf};
ghost use Rattle.c_tree.specs.GrammarSimple.{IsAssign, IsCall};
ghost use Rattle.c_tree.specs.GrammarStmt.{IsStmt};
ghost use Rattle.c_tree.specs.Next.{term_at};
ghost use Rattle.c_tree.specs.Leaves.{expr_leaves, tree_leaves, AreLeaves, NamesAreOfC, NumbersFit, PlacesRise};
ghost use Rattle.c_tree.specs.Plain.{assign_place, call_place, expr_place, stmt_place};
ghost use Rattle.c_tree.specs.Seen.{plain_assign, plain_call, plain_expr, plain_stmt, plain_tree};
ghost use Rattle.c_tree.specs.Refused.{IsRefusalOf, too_many_in};
ghost use Rattle.c_tree.specs.declared.expr.Expr.{Expr};
ghost use Rattle.c_tree.specs.declared.simple.Assign.{Assign};
ghost use Rattle.c_tree.specs.declared.simple.Call.{Call};
ghost use Rattle.c_tree.specs.declared.stmt.Around.{Around};
ghost use Rattle.c_tree.specs.declared.stmt.Stmt.{Stmt};
ghost use Rattle.c_tree.specs.declared.item.Tree.{Tree};
ghost use Rattle.thr_base.specs.declared.stops.Refusal.{Refusal};

/// Tokens stand for one expression at most, in front of a token that does not go on with it.
pub fn expressions_are_unique()
    ensures { (levels : ℕ) (e f : Expr) (ts rest : List Lexeme) → IsExpr levels e ts rest → IsExpr levels f ts rest → binds (term_at rest) < 1 → e ≡ f }
{}

/// Expressions, assignments, calls and statements begin at the places that their plain trees have.
pub fn places_are_those_of_first_tokens()
    ensures exprs { (levels : ℕ) (e : Expr) (ts rest : List Lexeme) → IsExpr levels e ts rest → StartsAt (expr_place (plain_expr e)) ts }
    ensures assigns { (levels : ℕ) (a : Assign) (ts rest : List Lexeme) → IsAssign levels a ts rest → StartsAt (assign_place (plain_assign a)) ts }
    ensures calls { (levels : ℕ) (c : Call) (ts rest : List Lexeme) → IsCall levels c ts rest → StartsAt (call_place (plain_call c)) ts }
    ensures stmts { (levels : ℕ) (around : Around) (s : Stmt) (ts rest : List Lexeme) → IsStmt levels around s ts rest → StartsAt (stmt_place (plain_stmt s)) ts }
{}

/// What a tree says of tokens, it says of those of its text, in their order: the marks and signs of an expression, its numbers and
/// its names stand where the tree has them. So it is for a whole text, and each name is a C name.
pub fn leaves_are_tokens()
    ensures exprs { (levels : ℕ) (e : Expr) (ts rest : List Lexeme) → IsExpr levels e ts rest → AreLeaves (expr_leaves (plain_expr e)) ts }
    ensures trees { (text : List ℕ) (tree : Tree) (tokens : List Lexeme) → IsTreeOf text tree → lexed text ≡ Ok tokens → AreLeaves (tree_leaves (plain_tree tree)) tokens }
    ensures names { (text : List ℕ) (tree : Tree) → IsTreeOf text tree → NamesAreOfC (tree_leaves (plain_tree tree)) }
{}

/// A text has one tree, or one refusal, and never both. So what `parse` answers is what the text has.
pub fn trees_are_read_exactly()
    ensures one { (text : List ℕ) (t u : Tree) → IsTreeOf text t → IsTreeOf text u → t ≡ u }
    ensures one_refusal { (text : List ℕ) (d e : Refusal) → IsRefusalOf text d → IsRefusalOf text e → d ≡ e }
    ensures not_both { (text : List ℕ) (t : Tree) (d : Refusal) → IsTreeOf text t → ¬ IsRefusalOf text d }
    ensures either { (text : List ℕ) → ((t : Tree) × IsTreeOf text t) ⊎ ((d : Refusal) × IsRefusalOf text d) }
{}

/// A tree follows its text: no token opens a level too many, numbers are below 2^127, and the places of its tokens rise
/// within the text.
pub fn trees_follow_their_texts()
    ensures levels { (text : List ℕ) (tree : Tree) → IsTreeOf text tree → too_many_in tree.items ≡ [] }
    ensures numbers { (text : List ℕ) (tree : Tree) → IsTreeOf text tree → NumbersFit (tree_leaves (plain_tree tree)) }
    ensures places { (text : List ℕ) (tree : Tree) → IsTreeOf text tree → PlacesRise 0 (length text) (tree_leaves (plain_tree tree)) }
{}
