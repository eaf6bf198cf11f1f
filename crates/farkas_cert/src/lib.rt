//! Evidence about systems of rows: a certificate that refutes one, or a rational point of it, and checks of
//! both that run no solver and take no memory. The layers above learn that what is proved is refuted, and
//! that what is refuted has no point.
#![tactic(auto)]

mod answers;
mod cert;
mod columns;
mod combination;
mod elimination_laws;
mod laws;
mod named_rows;
mod numbers;
mod point;

pub use answers::{CertAnswer, Decided, LeaveKind, PointAnswer};
pub use cert::{Cert, check_cert, check_entails, check_named};
pub use combination::{combined_number, divide};
pub use elimination_laws::{certificate_proves, more_stages_change_nothing, point_is_a_point};
pub use laws::{
    points_meet_entailed, points_meet_weighted_sums, refuted_has_no_point, refutes_in_any_order,
};
pub use named_rows::NamedRows;
pub use numbers::{common_divisor, is_nonzero, number_at};
pub use point::check_point;

#[cfg(test)]
mod tests;
