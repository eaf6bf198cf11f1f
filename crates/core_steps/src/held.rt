use thr_base::{Epoch, HomeNo, Instance};

/// A job as a worker holds it.
#[derive(Clone, Copy, Debug, PartialEq, Eq)]
pub struct Held {
    pub(crate) instance: Instance,
    pub(crate) home: HomeNo,
    pub(crate) epoch: Epoch,
}
