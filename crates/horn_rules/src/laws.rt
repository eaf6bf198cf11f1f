ghost use Rattle.horn_rules.specs.Cover.{ClosedListsCover, ClosedLeastCovers, LeastIsClosed, CoveredListsDoNotFail, CoveredLeastDoesNotFail, CoveredListsAreSafe, CoveredLeastIsSafe};
ghost use Rattle.horn_rules.specs.Laws.{CasesAreUnique, JobsHaveOneCase, PremisesHaveHomes, CasesHaveTheirTarget, TargetsHaveCases, AtomsArePlaced, PostsAreUnique, FactsAreGiven, GivenAtomsHold, OpenInstancesGiveTheirHomes, BareInstancesAreOpen, EachInstanceGivesItsHome, InstancesAreExact, LocationsAreHomes, EdgesAreHomes, HomesHaveEdges, LeastHasWhatItGives, LeastIsSmallest, HomesAreDistinct, StoredFactsTellFacts, StoredSetsAreByNumber, TablesAreUnique};
ghost use Rattle.horn_rules.specs.Steps.{StartsAreDescribed, OwnStepsAreDescribed, OwnStepsAreTold, ToldStepsAreDescribed, InterferingStepsAreDescribed};

use thr_base::positions_are_those_held;
use transition_formula::runs_end_in_reached_states;

/// An instance comes to one case at most, and so does a job: a law, and no code.
pub fn cases_are_unique()
    ensures instances { CasesAreUnique }
    ensures jobs { JobsHaveOneCase }
{}

/// The premises of an instance that comes to a case stand at homes of the program: a law, and no code.
pub fn premises_have_homes()
    ensures { PremisesHaveHomes }
{}

/// How many columns stand in front of an atom, and that it stands within its case's system: a law, and no code.
pub fn atoms_are_placed()
    ensures { AtomsArePlaced }
{}

/// A case has one post at most: a law, and no code.
pub fn posts_are_unique()
    ensures { PostsAreUnique }
{}

/// What the fact of an instance says, the instance gives: a law, and no code.
pub fn facts_are_given()
    ensures { FactsAreGiven }
{}

/// The atoms of what an instance gives hold at each whole point of its system: a law, and no code.
pub fn given_atoms_hold()
    ensures { GivenAtomsHold }
{}

/// An instance comes to a case exactly where the homes of its premises give it a target: laws, and no code.
pub fn targets_are_by_homes()
    ensures targets { CasesHaveTheirTarget }
    ensures cases { TargetsHaveCases }
{}

/// Where no home has predicates, each instance that is not refuted gives exactly the bare fact of its home, and where no edge has a
/// test none is refuted: laws, and no code.
pub fn without_predicates_each_instance_gives_its_home()
    ensures open_ones { OpenInstancesGiveTheirHomes }
    ensures points { BareInstancesAreOpen }
    ensures each { EachInstanceGivesItsHome }
{}

/// What a thread's start gives describes each initial state: a law, and no code.
pub fn starts_are_described()
    ensures { StartsAreDescribed }
{}

/// Own steps lead from states that a statement describes to states that what they give describes: a law, and no code.
pub fn own_steps_are_described()
    ensures { OwnStepsAreDescribed }
{}

/// What an own step gives to the other threads tells of the step: a law, and no code.
pub fn own_steps_are_told()
    ensures { OwnStepsAreTold }
{}

/// A step that is told leads another thread's statement to one that describes the state after: a law, and no code.
pub fn told_steps_are_described()
    ensures { ToldStepsAreDescribed }
{}

/// A step from a state that statements of both threads describe leads the other thread's statement to one that describes the state
/// after: a law, and no code.
pub fn interfering_steps_are_described()
    ensures { InterferingStepsAreDescribed }
{}

/// What is closed under a rule describes every state that a run comes to: a law, and no code.
pub fn closed_sets_cover()
    ensures lists { ClosedListsCover }
    ensures least { ClosedLeastCovers }
{}

/// The least set has what its instances give, and nothing that a list with this property lacks; it is closed where they give their
/// facts: laws, and no code.
pub fn the_least_set_is_closed()
    ensures closed { LeastIsClosed }
    ensures gives { LeastHasWhatItGives }
    ensures smallest { LeastIsSmallest }
{}

/// Locations and edges are homes, and a home at an edge has its edge: laws, and no code.
pub fn locations_and_edges_are_homes()
    ensures locations { LocationsAreHomes }
    ensures edges { EdgesAreHomes }
    ensures told { HomesHaveEdges }
{}

/// A home has one number, what stands for the same fact is the same, and lists by number are predicates of their homes: laws, and no
/// code.
pub fn stored_values_tell_what_they_stand_for()
    ensures homes { HomesAreDistinct }
    ensures facts { StoredFactsTellFacts }
    ensures sets { StoredSetsAreByNumber }
{
    positions_are_those_held();
}

/// Where what covers all runs has nothing at the failing location of a thread, no run comes there; where it has none of any thread, no
/// run fails: a law, and no code.
pub fn where_nothing_fails_no_run_does()
    ensures lists { CoveredListsDoNotFail }
    ensures least { CoveredLeastDoesNotFail }
    ensures safe_lists { CoveredListsAreSafe }
    ensures safe_least { CoveredLeastIsSafe }
{
    runs_end_in_reached_states();
}

/// The list of instances over facts has exactly those that come to a case, each once: a law, and no code.
pub fn instances_are_exact()
    ensures { InstancesAreExact }
{}

/// The least set has one table at most: a law, and no code.
pub fn tables_are_unique()
    ensures { TablesAreUnique }
{}
