ghost use Rattle.std.specs.Prelude.{◌≡◌, IfSome, IfNone};
ghost use Rattle.derivation_tree.specs.Kept.{OfJob, OfTree, IsLeaving, IsOfJob, IsOfTree};

use crate::kept::Kept;
use crate::scope::TreeLeft;
use farkas_cert::LeaveKind;
use horn_rules::{Job, Posted};
use std::marker::Model;

/// What is left: a job, or the tree of a claimed fact.
#[derive(Drop)]
pub enum LeftCause<'p> {
    Job(Job<'p>, LeaveKind),
    Tree(Kept<'p>, TreeLeft),
}

/// What a solver, or a limit, leaves undecided.
#[derive(Drop)]
pub struct Left<'p> {
    cause: LeftCause<'p>,
}

impl<'p> Model for Left<'p> {
    ghost use Rattle.derivation_tree.specs.Kept.{Leaving, IsLeaving};
    ghost use Rattle.derivation_tree.specs.LeftCause.{leaving_of};

    ghost Value = { Leaving };

    ghost view = { λ inside. leaving_of inside.cause };

    ghost invariant = { λ inside. IsLeaving (leaving_of inside.cause) };
}

impl<'p> Left<'p> {
    pub fn of_job(job: Job<'p>, kind: LeaveKind) -> Left<'p>
        requires { IsLeaving (OfJob job kind) }
        ensures { result ≡ OfJob job.entry kind }
    {
        Left {
            cause: LeftCause::Job(job, kind),
        }
    }

    pub fn of_tree(kept: Kept<'p>, kind: TreeLeft) -> Left<'p>
        requires { IsLeaving (OfTree kept kind) }
        ensures { result ≡ OfTree kept.entry kind }
    {
        Left {
            cause: LeftCause::Tree(kept, kind),
        }
    }

    /// The job that is left and how; nothing where a tree is.
    pub fn job(&self) -> Option<(&Job<'p>, LeaveKind)>
        ensures some { IfSome result (λ found. self.now ≡ OfJob found.0.now found.1) }
        ensures none { IfNone result (IsOfTree self.now) }
        ensures left { IsLeaving self.now }
    {
        match &self.cause {
            LeftCause::Job(job, kind) => Some((job, *kind)),
            LeftCause::Tree(..) => None,
        }
    }

    /// The claim whose tree is left and how; nothing where a job is.
    pub fn tree(&self) -> Option<(&Kept<'p>, &TreeLeft)>
        ensures some { IfSome result (λ found. self.now ≡ OfTree found.0.now found.1.now) }
        ensures none { IfNone result (IsOfJob self.now) }
        ensures left { IsLeaving self.now }
    {
        match &self.cause {
            LeftCause::Job(..) => None,
            LeftCause::Tree(kept, kind) => Some((kept, kind)),
        }
    }
}
