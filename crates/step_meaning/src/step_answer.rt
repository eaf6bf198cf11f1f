/// What an edge does to a state: it leads to a next one, or has no step, or a product or a sum does not fit.
#[derive(Clone, Copy, PartialEq, Eq, Debug)]
pub enum StepAnswer {
    Next,
    Blocked,
    Overflow,
}
