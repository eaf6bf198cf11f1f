//! What the plain tree says of each form of the code's tree: the equations by which a walk over the one is told by the other.

ghost use Rattle.std.specs.Prelude.{◌≡◌, ℕ, ℤ, List, Option, map, option_map};
ghost use Rattle.c_tree.specs.declared.expr.Conjunction.{Conjunction, out-Conjunction};
ghost use Rattle.c_tree.specs.declared.expr.Equality.{Equality, out-Equality};
ghost use Rattle.c_tree.specs.declared.expr.Expr.{Expr, out-Expr};
ghost use Rattle.c_tree.specs.declared.expr.Name.{Name};
ghost use Rattle.c_tree.specs.declared.expr.Product.{Product, out-Product};
ghost use Rattle.c_tree.specs.declared.expr.Relation.{Relation, out-Relation};
ghost use Rattle.c_tree.specs.declared.expr.Sum.{Sum, out-Sum};
ghost use Rattle.c_tree.specs.declared.expr.Unary.{Unary};
ghost use Rattle.c_tree.specs.declared.expr.Unary.TheVariants as unaries;
ghost use Rattle.c_tree.specs.declared.expr.UnaryKind.{UnaryKind};
ghost use Rattle.c_tree.specs.declared.simple.Assign.{Assign};
ghost use Rattle.c_tree.specs.declared.simple.Call.{Call};
ghost use Rattle.c_tree.specs.declared.simple.Cond.{Cond};
ghost use Rattle.c_tree.specs.declared.simple.Handles.{Handles};
ghost use Rattle.c_tree.specs.declared.simple.Local.{Local};
ghost use Rattle.c_tree.specs.declared.simple.Nil.{Nil};
ghost use Rattle.c_tree.specs.declared.stmt.Block.{Block, out-Block};
ghost use Rattle.c_tree.specs.declared.stmt.First.{First};
ghost use Rattle.c_tree.specs.declared.stmt.Stmt.{Stmt};
ghost use Rattle.c_tree.specs.declared.stmt.Stmt.TheVariants as stmts;
ghost use Rattle.c_tree.specs.Plain as plain;
ghost use Rattle.c_tree.specs.Seen.{and_mark, equality_mark, if_layer, left_to_right, or_mark, plain_assign, plain_block, plain_call, plain_cond, plain_conjunction, plain_equality, plain_expr, plain_first, plain_locals, plain_names, plain_product, plain_relation, plain_stmt, plain_stmts, plain_sum, plain_unary, product_mark, relation_mark, sum_mark};

/// The plain expression of each form of an expression.
pub fn plain_expressions_go_by_form()
    ensures operator { (from : ℕ) (kind : UnaryKind) (operand : Unary) → plain_unary (unaries.Operator from kind operand) ≡ plain.Expr.Prefixed from kind (plain_unary operand) }
    ensures paren { (from : ℕ) (inner : Expr) → plain_unary (unaries.Paren from inner) ≡ plain.Expr.Parens from (plain_expr inner) }
    ensures number { (from : ℕ) (value : ℤ) → plain_unary (unaries.Number from value) ≡ plain.Expr.Number from value }
    ensures name { (name : Name) → plain_unary (unaries.Name name) ≡ plain.Expr.Named name }
    ensures product { (x : Product) → plain_product x ≡ left_to_right product_mark (plain_unary (out-Product x).first) (map (λ m. (m.0, plain_unary m.1)) (out-Product x).more) }
    ensures sum { (x : Sum) → plain_sum x ≡ left_to_right sum_mark (plain_product (out-Sum x).first) (map (λ m. (m.0, plain_product m.1)) (out-Sum x).more) }
    ensures relation { (x : Relation) → plain_relation x ≡ left_to_right relation_mark (plain_sum (out-Relation x).first) (map (λ m. (m.0, plain_sum m.1)) (out-Relation x).more) }
    ensures equality { (x : Equality) → plain_equality x ≡ left_to_right equality_mark (plain_relation (out-Equality x).first) (map (λ m. (m.0, plain_relation m.1)) (out-Equality x).more) }
    ensures conjunction { (x : Conjunction) → plain_conjunction x ≡ left_to_right and_mark (plain_equality (out-Conjunction x).first) (map (λ m. (m.0, plain_equality m.1)) (out-Conjunction x).more) }
    ensures expr { (x : Expr) → plain_expr x ≡ left_to_right or_mark (plain_conjunction (out-Expr x).first) (map (λ m. (m.0, plain_conjunction m.1)) (out-Expr x).more) }
{}

/// The plain statement of each form of a statement.
pub fn plain_statements_go_by_form()
    ensures block { (b : Block) → plain_stmt (stmts.Block b) ≡ plain.Stmt.Block (out-Block b).from (plain_block b) }
    ensures empty { (from : ℕ) → plain_stmt (stmts.Empty from) ≡ plain.Stmt.Empty from }
    ensures local { (l : Local) → plain_stmt (stmts.Local l) ≡ plain.Stmt.Locals l.from (plain_locals l) }
    ensures assign { (a : Assign) → plain_stmt (stmts.Assign a) ≡ plain.Stmt.Assigns (plain_assign a) }
    ensures if_else { (from : ℕ) (c : Cond) (s : Stmt) (otherwise : Option Stmt) → plain_stmt (stmts.If from c s otherwise) ≡ if_layer from (plain_cond c) (plain_stmt s) (option_map plain_stmt otherwise) }
    ensures while_loop { (from : ℕ) (c : Cond) (s : Stmt) → plain_stmt (stmts.While from c s) ≡ plain.Stmt.While from (plain_cond c) (plain_stmt s) }
    ensures for_loop { (from : ℕ) (first : First) (c : Option Cond) (last : Option Assign) (s : Stmt) → plain_stmt (stmts.For from first c last s) ≡ plain.Stmt.For from (plain_first first) (option_map plain_cond c) (option_map plain_assign last) (plain_stmt s) }
    ensures break_out { (from : ℕ) → plain_stmt (stmts.Break from) ≡ plain.Stmt.Break from }
    ensures return_from { (from : ℕ) (value : Option Nil) → plain_stmt (stmts.Return from value) ≡ plain.Stmt.Return from }
    ensures call { (c : Call) → plain_stmt (stmts.Call c) ≡ plain.Stmt.Calls (plain_call c) }
    ensures atomic { (from : ℕ) (ss : List Stmt) → plain_stmt (stmts.Atomic from ss) ≡ plain.Stmt.Atomic from (plain_stmts ss) }
    ensures handles { (h : Handles) → plain_stmt (stmts.Handles h) ≡ plain.Stmt.Handles h.from (plain_names h) }
{}
