//! Where a statement stands.

ghost use Rattle.std.specs.Prelude.{◌≡◌};
ghost use Rattle.c_check.specs.Broken.{in_atomic};

/// Where a statement stands.
#[derive(Clone, Copy, Debug, PartialEq, Eq)]
pub struct Place {
    /// In a function that is not `main`.
    pub is_in_thread: bool,
    pub is_in_atomic: bool,
}

impl Place {
    pub fn in_atomic(self) -> Place
        ensures { result ≡ in_atomic self }
    {
        Place {
            is_in_atomic: true,
            ..self
        }
    }
}
