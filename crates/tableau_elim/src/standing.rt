/// On which side of its bound a slack is.
#[derive(Clone, Copy, Debug)]
pub enum Side {
    High,
    Low,
}

/// What is found of a line.
#[derive(Clone, Copy, Debug)]
pub enum Standing {
    Within,
    Out(Side),
    /// A number that the comparison needs does not fit.
    Unfit,
}
