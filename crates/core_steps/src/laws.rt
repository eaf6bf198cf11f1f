ghost use Rattle.core_steps.specs.Laws.{LiveFactsArePosts, LiveFactsAreLeast, DoneInstancesArePosted, InstancesAreDoneHeldOrPending, QuietStatesHaveTheLeastSet, QuietStatesCover, ClearStatesAreSafe, NoJobIsPublishedTwice, PublishesAreFew, HistoriesAreShort, WhatRemainsIsNotWithdrawn, EndsStay};

/// After a legal history each live fact is the post of its kept instance, and in the least set of the predicates that homes have: a
/// law, and no code.
pub fn live_facts_are_derived()
    ensures posts { LiveFactsArePosts }
    ensures least { LiveFactsAreLeast }
{}

/// What is done and has live premises has been posted, under the predicates that homes have: a law, and no code.
pub fn done_instances_are_posted()
    ensures { DoneInstancesArePosted }
{}

/// An instance with live premises is done, held or pending: a law, and no code.
pub fn instances_are_done_held_or_pending()
    ensures { InstancesAreDoneHeldOrPending }
{}

/// In a quiet state the live facts are exactly the least set, which covers all runs, and in a clear one no run fails: laws, and no code.
pub fn quiet_states_have_the_least_set()
    ensures least { QuietStatesHaveTheLeastSet }
    ensures covers { QuietStatesCover }
    ensures safe { ClearStatesAreSafe }
{}

/// No job is published twice: a law, and no code.
pub fn no_job_is_published_twice()
    ensures { NoJobIsPublishedTwice }
{}

/// There are few publishes: a law, and no code.
pub fn publishes_are_few()
    ensures { PublishesAreFew }
{}

/// Histories are short, so that room for all events can be reserved: a law, and no code.
pub fn histories_are_short()
    ensures { HistoriesAreShort }
{}

/// Where homes change, the facts that remain are exactly those that are not withdrawn: a law, and no code.
pub fn what_remains_is_not_withdrawn()
    ensures { WhatRemainsIsNotWithdrawn }
{}

/// A run that is clear or stopped stays so, whatever legal events follow: a law, and no code.
pub fn ends_stay()
    ensures { EndsStay }
{}
