ghost use Rattle.std.specs.Prelude.{◌≡◌};
ghost use Rattle.tableau_elim.specs.Tableau as specs;

/// What stands for the left side of a row.
#[derive(Clone, Copy, Debug)]
pub struct Slack {
    /// The row's number, from 0.
    pub row: u32,
    pub equal: bool,
    pub bound: i128,
}

/// A variable of a tableau.
#[derive(Clone, Copy, Debug)]
pub enum Variable {
    Column(u32),
    Slack(Slack),
}

impl Variable {
    /// Whether both are the same column, or slacks of the same row.
    pub fn is_same(&self, other: &Variable) -> bool
        ensures { result ≡ specs.are_same self.now other.now }
    {
        match (self, other) {
            (Variable::Column(one), Variable::Column(another)) => *one == *another,
            (Variable::Slack(one), Variable::Slack(another)) => one.row == another.row,
            _ => false,
        }
    }

    /// Whether it is lower: columns come before slacks, and both in their order.
    pub fn comes_before(&self, other: &Variable) -> bool
        ensures { result ≡ specs.comes_before self.now other.now }
    {
        match (self, other) {
            (Variable::Column(one), Variable::Column(another)) => *one < *another,
            (Variable::Column(_), Variable::Slack(_)) => true,
            (Variable::Slack(_), Variable::Column(_)) => false,
            (Variable::Slack(one), Variable::Slack(another)) => one.row < another.row,
        }
    }

    /// The value at a place.
    pub fn value_at_place(&self) -> i128
        ensures { result ≡ specs.value_at_place self.now }
    {
        match self {
            Variable::Column(_) => 0,
            Variable::Slack(slack) => slack.bound,
        }
    }
}
