ghost use Rattle.std.specs.Prelude.{◌≡◌, ◌↔◌, IsTrue};
ghost use Rattle.core_steps.specs.declared.answers.Published.TheVariants as told;
ghost use Rattle.serial_run.specs.Run.{IsIdle};
ghost use Rattle.abstract_post.specs.Left.{IsJobLeft};
ghost use Rattle.serial_run.specs.inside.Steps.{GoesFrom, HasJob, HoldsOwn};

use crate::asking::Poster;
use core_steps::{Core, Published, Reason, Taken};
use derivation_tree::Left;
use farkas_cert::LeaveKind;
use horn_rules::{Job, PostAnswer, Posted};
use std::alloc::{AllocError, Global};

/// Whether a run goes on.
#[derive(Clone, Copy, Debug, PartialEq, Eq)]
pub(crate) enum Went {
    On,
    Ended,
}

/// The one worker of the run.
const WORKER: u32 = 1;

/// Takes a job, posts and publishes it.
pub(crate) fn post_next<P: Poster>(alloc: Global, core: &mut Core<'_>, poster: &P) -> Went
    requires { IsIdle core.old }
    ensures { GoesFrom core.old result core.new }
{
    let _program = core.program(); // its contract says that there is a worker
    let Ok(taken) = core.take(WORKER) else {
        return stop_for_memory(core);
    };
    match taken {
        Taken::Job(job) => post_job(alloc, core, poster, job),
        Taken::NothingPending => Went::Ended,
        Taken::Stopped => Went::Ended,
        Taken::HoldsAlready => unreachable!(),
    }
}

/// Posts and publishes the job that was taken.
fn post_job<'p, P: Poster>(alloc: Global, core: &mut Core<'p>, poster: &P, job: Job<'p>) -> Went
    requires { HasJob core.old job }
    ensures { GoesFrom core.old result core.new }
{
    let program = core.program();
    let answer = poster.post(alloc, program, job);
    match answer {
        Err(AllocError) => stop_for_memory(core),
        Ok(PostAnswer::Posted(posted)) => publish(core, posted),
        Ok(PostAnswer::Left(job, kind)) => stop_for_left(core, job, kind),
    }
}

/// Publishes a post.
fn publish<'p>(core: &mut Core<'p>, posted: Posted<'p>) -> Went
    requires { HasJob core.old posted.job }
    ensures { GoesFrom core.old result core.new }
{
    let published = core.publish(posted);
    if is_stop(published) {
        return Went::Ended;
    }
    Went::On
}

/// Whether a publish answers that the run stopped.
fn is_stop(published: Published) -> bool
    ensures { IsTrue result ↔ published ≡ told.Stopped }
{
    matches!(published, Published::Stopped)
}

/// The run stops, since a job is left undecided.
fn stop_for_left<'p>(core: &mut Core<'p>, job: Job<'p>, kind: LeaveKind) -> Went
    requires has { HasJob core.old job }
    requires left { IsJobLeft core.old.program job kind }
    ensures { GoesFrom core.old result core.new }
{
    let _program = core.program(); // its contract says that there is a worker
    let _stopped = core.stop(WORKER, Reason::Left(Left::of_job(job, kind)));
    Went::Ended
}

/// The run stops for want of memory.
fn stop_for_memory(core: &mut Core<'_>) -> Went
    requires { HoldsOwn core.old }
    ensures { GoesFrom core.old result core.new }
{
    let _program = core.program(); // its contract says that there is a worker
    let _stopped = core.stop(WORKER, Reason::Memory);
    Went::Ended
}
