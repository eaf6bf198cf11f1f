/// A row, borrowed: `coefficients . z <= bound`, or `=` where `equal`.
#[derive(Clone, Copy, Debug)]
pub struct RowView<'a> {
    pub equal: bool,
    pub coefficients: &'a [i128],
    pub bound: i128,
}
