use thr_base::{EdgeNo, Home, ThreadNo};

/// What kind of instance a node is.
#[derive(Clone, Copy, Debug, PartialEq, Eq)]
pub(crate) enum Kind {
    Init,
    Own,
    Guar,
    Env,
    Inter,
}

/// A node of a tree, with the thread and the edge of its step, and the number of nodes of its subtree. Its premises stand before it: the
/// last node of the second one's subtree just before it, and that of the first one's before this subtree.
#[derive(Clone, Copy, Debug)]
pub(crate) struct Node {
    pub(crate) kind: Kind,
    pub(crate) home: Home,
    pub(crate) thread: ThreadNo,
    pub(crate) edge: EdgeNo,
    pub(crate) size: u32,
}
