ghost use Rattle.std.specs.Prelude.{◌≡◌};

use std::marker::Model;

/// Numbers in a list that contracts see: the numerators of a point, the values of a state's columns, or a step's inputs.
#[derive(Debug, Drop)]
pub struct NumberList {
    numbers: Vec<i128>,
}

impl Model for NumberList {
    ghost use Rattle.std.specs.Prelude.{ℤ, List};

    ghost Value = { List ℤ };

    ghost view = { λ inside. inside.numbers.items };
}

impl NumberList {
    pub fn of(numbers: Vec<i128>) -> NumberList
        ensures { result ≡ numbers.items }
    {
        NumberList { numbers }
    }

    pub fn as_slice(&self) -> &[i128]
        ensures { result.now ≡ self.now }
    {
        self.numbers.as_slice()
    }

    pub fn into_vec(self) -> Vec<i128>
        ensures { result.items ≡ self }
    {
        self.numbers
    }
}
