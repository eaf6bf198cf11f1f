//! What a mark asks for on each of its sides.

ghost use Rattle.std.specs.Prelude.{◌≡◌, ◌∷◌, option_to_list};
ghost use Rattle.thread_cfg.specs.Path as path;

use crate::relation::Relation;
use c_check::Mark;

/// The one or two relations, one of which a mark asks for.
#[derive(Clone, Copy)]
pub(crate) struct Relations {
    pub(crate) first: Relation,
    pub(crate) second: Option<Relation>,
}

impl Relations {
    /// What the mark asks for where it is true.
    pub(crate) fn when_true(mark: Mark) -> Relations
        ensures { result.first ∷ option_to_list result.second ≡ path.when_true mark }
    {
        let (first, second) = match mark {
            Mark::Equal => (Relation::Equal, None),
            Mark::Unequal => (Relation::Less, Some(Relation::Greater)),
            Mark::Less => (Relation::Less, None),
            Mark::AtMost => (Relation::AtMost, None),
            Mark::Greater => (Relation::Greater, None),
            Mark::AtLeast => (Relation::AtLeast, None),
        };
        Relations { first, second }
    }

    /// What holds where the mark is false.
    pub(crate) fn when_false(mark: Mark) -> Relations
        ensures { result.first ∷ option_to_list result.second ≡ path.when_false mark }
    {
        let (first, second) = match mark {
            Mark::Equal => (Relation::Less, Some(Relation::Greater)),
            Mark::Unequal => (Relation::Equal, None),
            Mark::Less => (Relation::AtLeast, None),
            Mark::AtMost => (Relation::Greater, None),
            Mark::Greater => (Relation::AtMost, None),
            Mark::AtLeast => (Relation::Less, None),
        };
        Relations { first, second }
    }
}
