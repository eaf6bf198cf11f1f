use crate::cert::Cert;
use lin_rows::NumberList;

/// What a check says of a certificate. `row` and `column` are those of the first product or partial sum that
/// does not fit; rows count from 1, columns from 0, and the bound is the last column.
#[derive(Clone, Copy, Debug, PartialEq, Eq)]
pub enum CertAnswer {
    Proves,
    Fails,
    Overflow { row: u32, column: u32 },
}

/// What a check says of a rational point, with the first row that fails or does not fit.
#[derive(Clone, Copy, Debug, PartialEq, Eq)]
pub enum PointAnswer {
    Meets,
    Fails { row: u32 },
    Overflow { row: u32, column: u32 },
}

/// Why a solver leaves a system undecided: a number does not fit, or there are too many rows.
#[derive(Clone, Copy, Debug, PartialEq, Eq)]
pub enum LeaveKind {
    Overflow,
    Rows,
}

/// What a solver finds of a system: a certificate that refutes it, or the numerators of a point and their one
/// denominator.
#[derive(Debug, Drop)]
pub enum Decided {
    Refuted(Cert),
    Point(NumberList, i128),
    Leaves { stage: u32, kind: LeaveKind },
}
