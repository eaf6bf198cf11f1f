ghost use Rattle.std.specs.Prelude.{◌≡◌};
ghost use Rattle.thr_base.specs.declared.stops.Stop.TheVariants.{Memory, Refused};
ghost use Rattle.thr_base.specs.declared.stops.LineStop.TheVariants.{Memory as NoMemory};
ghost use Rattle.thr_base.specs.declared.stops.ReadStop.TheVariants.{Memory as ReadNoMemory};

use std::alloc::{AllocError, AllocFailed};
use thiserror::Error;

/// Why a text is no program of the profile.
#[derive(Clone, Copy, Debug, PartialEq, Eq)]
pub struct Refusal {
    /// The number of the rule that the text breaks, as the program prints it behind an `E`.
    pub code: u8,
    /// The byte at which it does, from 0.
    pub place: u32,
}

/// Why a program was not read.
#[derive(Clone, Copy, Debug, Error, PartialEq, Eq)]
pub enum Stop {
    #[error("E{} at byte {}", .0.code, .0.place)]
    Refused(Refusal),
    #[error("out of memory")]
    Memory,
}

impl From<AllocError> for Stop {
    ghost from_gives = { λ _ stop. stop ≡ Memory };

    fn from(_error: AllocError) -> Stop {
        Stop::Memory
    }
}

impl<T: Drop> From<AllocFailed<T>> for Stop {
    ghost from_gives = { λ _ stop. stop ≡ Memory };

    fn from(_error: AllocFailed<T>) -> Stop {
        Stop::Memory
    }
}

impl From<Refusal> for Stop {
    ghost from_gives = { λ refusal stop. stop ≡ Refused refusal };

    fn from(refusal: Refusal) -> Stop {
        Stop::Refused(refusal)
    }
}

/// Why a text of lines was not read.
#[derive(Clone, Copy, Debug, Error, PartialEq, Eq)]
pub enum LineStop {
    /// The first line that the text's grammar does not allow, from 1.
    #[error("line {0} is not allowed")]
    BadLine(u32),
    #[error("out of memory")]
    Memory,
}

impl From<AllocError> for LineStop {
    ghost from_gives = { λ _ stop. stop ≡ NoMemory };

    fn from(_error: AllocError) -> LineStop {
        LineStop::Memory
    }
}

impl<T: Drop> From<AllocFailed<T>> for LineStop {
    ghost from_gives = { λ _ stop. stop ≡ NoMemory };

    fn from(_error: AllocFailed<T>) -> LineStop {
        LineStop::Memory
    }
}

/// Why a file was not read whole.
#[derive(Clone, Copy, Debug, Error, PartialEq, Eq)]
pub enum ReadStop {
    #[error("a read failed")]
    Fault,
    #[error("the file is too long")]
    TooLong,
    #[error("out of memory")]
    Memory,
}

impl From<AllocError> for ReadStop {
    ghost from_gives = { λ _ stop. stop ≡ ReadNoMemory };

    fn from(_error: AllocError) -> ReadStop {
        ReadStop::Memory
    }
}
