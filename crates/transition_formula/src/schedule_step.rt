use lin_rows::NumberList;
use thr_base::{EdgeNo, ThreadNo};

/// A step of a schedule: the thread steps by its edge with these inputs.
#[derive(Debug, Drop)]
pub struct ScheduleStep {
    pub thread: ThreadNo,
    pub edge: EdgeNo,
    pub inputs: NumberList,
}
