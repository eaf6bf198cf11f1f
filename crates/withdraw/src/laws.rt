ghost use Rattle.withdraw.specs.Withdrawal.{InsertionsRestOnEarlier};

/// What comes into a table rests on what came before.
pub fn insertions_rest_on_earlier()
    ensures { InsertionsRestOnEarlier }
{}
