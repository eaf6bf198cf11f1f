use crate::node::Node;
use std::marker::Model;
use transition_formula::Program;

/// The tree of a failing fact: the derivation that was kept of it, unfolded. Its nodes stand in the order of their numbers, each after its
/// premises' nodes.
#[derive(Drop)]
pub struct Tree<'p> {
    pub(crate) program: &'p Program,
    pub(crate) nodes: Vec<Node>,
}

impl<'p> Model for Tree<'p> {
    ghost use Rattle.std.specs.Prelude.{map};
    ghost use Rattle.cex_tree.specs.Grown.{GrownTree};
    ghost use Rattle.cex_tree.specs.inside.Flat.{shape_of, tree_in, AreNodes};

    ghost Value = { GrownTree };

    ghost use Rattle.std.specs.Coded.{codes};
    ghost use Rattle.cex_tree.specs.inside.TreeCode.{tree_code};

    ghost coded = { Prim.hlevel (codes, tree_code) };

    ghost view = { λ inside. record { program = inside.program.now; tree = tree_in (map shape_of inside.nodes.items) } };

    ghost invariant = { λ inside. AreNodes inside.program.now (map shape_of inside.nodes.items) (tree_in (map shape_of inside.nodes.items)) };
}
