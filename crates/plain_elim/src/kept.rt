use crate::line::Line;

/// What a stage kept for its column.
#[derive(Debug, Drop)]
pub enum Kept {
    /// An equality, for its lowest column.
    Solved(u32, Line),
    /// Inequalities, for the lowest column of all.
    Bounded(u32, Vec<Line>),
}
