/// Why no tree is grown: it has too many nodes, or memory is wanting.
#[derive(Clone, Copy, Debug, PartialEq, Eq)]
pub enum GrowStop {
    TooLarge,
    Memory,
}
