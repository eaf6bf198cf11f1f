use farkas_cert::{Cert, LeaveKind};

/// Which of a tree's systems predicates come from: the one in which premises share the columns of their modular scopes alone, or
/// the full one.
#[derive(Clone, Copy, Debug, PartialEq, Eq)]
pub enum Scope {
    Modular,
    Full,
}

/// A system of a tree.
#[derive(Clone, Copy, Debug, PartialEq, Eq)]
pub enum System {
    Cut,
    Full,
    Chain,
}

/// Why a tree is left: it has more nodes than this; a system of it is too wide; a solver leaves a system; at a node, the first
/// such, the sum of a certificate does not fit or has no normal form; or the point of its chain is not whole.
#[derive(Debug, Drop)]
pub enum TreeLeft {
    Tree(u32),
    Wide(System),
    Leaves(System, LeaveKind),
    Interpolant(System, u32, Cert),
    Unrefinable,
}
