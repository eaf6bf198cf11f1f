//! The paths through an atomic body, where they are not too many.

ghost use Rattle.std.specs.Prelude.{◌≡◌, ◌∷◌, [], map, option_to_list, Some, IfOk};
ghost use Rattle.thread_cfg.specs.inside.Few as specs;
ghost use Rattle.thread_cfg.specs.inside.Gone.{event_of, is_failing, path_of, ways_of};

use crate::event::{Event, Expression};
use crate::marks::Relations;
use crate::relation::Relation;
use c_check::Comparison;
use std::alloc::{AllocError, Global};
use thr_base::MOST_PATHS;

/// How a path ends.
#[derive(Clone, Copy, Debug, PartialEq, Eq)]
pub(crate) enum Ending {
    /// All is done.
    Through,
    /// At an assertion that is false.
    Failing,
}

/// What happens on a path, the last event first.
#[derive(Drop)]
pub(crate) struct Path<'a> {
    pub(crate) events: Vec<Event<'a>>,
    pub(crate) ending: Ending,
}

/// Paths, in the order of their edges.
#[derive(Drop)]
pub(crate) enum Ways<'a> {
    Few(Vec<Path<'a>>),
    /// They are too many.
    Many,
}

impl<'a> Path<'a> {
    /// The same path.
    fn copy(&self, alloc: Global) -> Result<Path<'a>, AllocError>
        ensures { IfOk result (λ path. path_of path ≡ path_of self.now) }
    {
        let events = Vec::from_slice(alloc, self.events.as_slice())?;
        Ok(Path {
            events,
            ending: self.ending,
        })
    }

    /// An event, and then the path.
    fn after(self, event: Event<'a>) -> Result<Path<'a>, AllocError>
        ensures { IfOk result (λ path. path_of path ≡ specs.after (event_of event.entry) (path_of self.entry)) }
    {
        let Path { mut events, ending } = self;
        events.push(event)?;
        Ok(Path { events, ending })
    }
}

/// What is asked of a comparison's numbers.
fn requirement<'a>(comparison: &'a Comparison, relation: Relation) -> Event<'a>
    ensures { event_of result ≡ specs.required comparison.now relation }
{
    Event::Requires {
        from: comparison.from,
        relation,
        left: Expression::Whole(comparison.left.as_slice()),
        right: Expression::Whole(comparison.right.as_slice()),
    }
}

/// The same paths.
fn copies<'a>(alloc: Global, paths: &[Path<'a>]) -> Result<Vec<Path<'a>>, AllocError>
    ensures { IfOk result (λ copies. map path_of copies.items ≡ map path_of paths.now) }
{
    let mut copies = Vec::new(alloc);
    'paths: for path in paths {
        copies.push(path.copy(alloc)?)?;
    }
    Ok(copies)
}

/// An event in front of each of the paths.
fn all_after<'a>(
    alloc: Global,
    event: Event<'a>,
    paths: Vec<Path<'a>>,
) -> Result<Vec<Path<'a>>, AllocError>
    ensures { IfOk result (λ made. map path_of made.items ≡ map (specs.after (event_of event.entry)) (map path_of paths.entry.items)) }
{
    let mut made = Vec::new(alloc);
    'paths: for path in paths {
        made.push(path.after(event)?)?;
    }
    Ok(made)
}

impl<'a> Ways<'a> {
    /// No path at all.
    pub(crate) fn none(alloc: Global) -> Ways<'a>
        ensures { ways_of result ≡ Some [] }
    {
        Ways::Few(Vec::new(alloc))
    }

    /// The path on which nothing happens, and which ends so.
    pub(crate) fn bare(alloc: Global, ending: Ending) -> Result<Ways<'a>, AllocError>
        ensures { IfOk result (λ ways. ways_of ways ≡ Some (specs.bare (is_failing ending) ∷ [])) }
    {
        let mut paths = Vec::new(alloc);
        paths.push(Path {
            events: Vec::new(alloc),
            ending,
        })?;
        Ok(Ways::Few(paths))
    }

    /// The same paths.
    pub(crate) fn copy(&self, alloc: Global) -> Result<Ways<'a>, AllocError>
        ensures { IfOk result (λ ways. ways_of ways ≡ ways_of self.now) }
    {
        match self {
            Ways::Few(paths) => Ok(Ways::Few(copies(alloc, paths.as_slice())?)),
            Ways::Many => Ok(Ways::Many),
        }
    }

    /// An event, and then one of the paths.
    pub(crate) fn after(self, alloc: Global, event: Event<'a>) -> Result<Ways<'a>, AllocError>
        ensures { IfOk result (λ ways. ways_of ways ≡ specs.all_after (event_of event.entry) (ways_of self.entry)) }
    {
        match self {
            Ways::Few(paths) => Ok(Ways::Few(all_after(alloc, event, paths)?)),
            Ways::Many => Ok(Ways::Many),
        }
    }

    /// The one and the other.
    pub(crate) fn and(self, other: Ways<'a>) -> Result<Ways<'a>, AllocError>
        ensures { IfOk result (λ ways. ways_of ways ≡ specs.both (ways_of self.entry) (ways_of other.entry)) }
    {
        match (self, other) {
            (Ways::Few(mut one), Ways::Few(mut other)) => {
                one.append(&mut other)?;
                if one.len() > MOST_PATHS as usize {
                    Ok(Ways::Many)
                } else {
                    Ok(Ways::Few(one))
                }
            }
            _ => Ok(Ways::Many),
        }
    }

    /// These, unless the others are too many.
    pub(crate) fn where_few(self, other: &Ways<'a>) -> Ways<'a>
        ensures { ways_of result ≡ specs.where_few (ways_of other.now) (ways_of self.entry) }
    {
        match other {
            Ways::Few(_) => self,
            Ways::Many => Ways::Many,
        }
    }

    /// One of the relations, and then one of the paths.
    fn pick(
        self,
        alloc: Global,
        comparison: &'a Comparison,
        relations: Relations,
    ) -> Result<Ways<'a>, AllocError>
        ensures { IfOk result (λ ways. ways_of ways ≡ specs.all_picked comparison.now (relations.first ∷ option_to_list relations.second) (ways_of self.entry)) }
    {
        let first = requirement(comparison, relations.first);
        match relations.second {
            None => self.after(alloc, first),
            Some(second) => {
                let more = self.copy(alloc)?;
                let one = self.after(alloc, first)?;
                let other = more.after(alloc, requirement(comparison, second))?;
                one.and(other)
            }
        }
    }

    /// The paths of a comparison, with those of its sides.
    pub(crate) fn of_comparison(
        alloc: Global,
        comparison: &'a Comparison,
        on_true: Ways<'a>,
        on_false: Ways<'a>,
    ) -> Result<Ways<'a>, AllocError>
        ensures { IfOk result (λ ways. ways_of ways ≡ specs.compared comparison.now (ways_of on_true.entry) (ways_of on_false.entry)) }
    {
        let mark = comparison.mark;
        let one = on_true.pick(alloc, comparison, Relations::when_true(mark))?;
        let other = on_false.pick(alloc, comparison, Relations::when_false(mark))?;
        one.and(other)
    }
}
