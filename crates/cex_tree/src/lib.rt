//! The trees of failing facts, node by node, and their systems of rows. The layers above learn that these are exactly the tree of what is
//! kept of a fact, and exactly its cut, full and chain systems.
#![tactic(auto)]

mod growing;
mod node;
mod stops;
mod tree;

pub use growing::grow;
pub use stops::GrowStop;
pub use tree::Tree;
