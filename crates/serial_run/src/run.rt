ghost use Rattle.serial_run.specs.Run.{IsIdle, Runs};

use crate::asking::Poster;
use crate::next::{Went, post_next};
use core_steps::Core;
use std::alloc::Global;

/// Takes, posts and publishes until nothing is pending or the run stops, as worker 1. Want of memory is a stop.
pub fn run_serial<P: Poster>(alloc: Global, core: &mut Core<'_>, poster: &P)
    requires { IsIdle core.old }
    ensures { Runs core.old core.new }
{
    loop {
        match post_next(alloc, core, poster) {
            Went::On => {}
            Went::Ended => return,
        }
    }
}
