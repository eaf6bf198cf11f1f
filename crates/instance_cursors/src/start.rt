use thr_base::{HomeNo, ThreadNo};

/// A thread's start, the instance without premises: whether it was taken.
#[derive(Clone, Copy, Debug, PartialEq, Eq)]
pub struct Start {
    pub thread: ThreadNo,
    pub home: HomeNo,
    pub taken: bool,
}
