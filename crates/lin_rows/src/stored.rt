/// What stands behind the coefficients of a row that is held: `<= bound`, or `= bound` where `equal`.
#[derive(Clone, Copy, Debug)]
pub struct RightSide {
    pub equal: bool,
    pub bound: i128,
}
