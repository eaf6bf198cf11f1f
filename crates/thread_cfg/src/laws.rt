//! What the graph says of its text: laws, and no code.

ghost use Rattle.thread_cfg.specs.EdgeLaws.{EdgesHappen, NeverEdgesDoNotHappen};
ghost use Rattle.thread_cfg.specs.Laws.{EdgesAreOfActions, ProgramsStepAlike, RunsGoAsInterleavings, TextsAreReadExactly, TextsFailAlike, ThreadsFailAlike};
ghost use Rattle.thread_cfg.specs.PickEdges.{EdgelessPathsHaveNoWay, PathEdgesTellWays};
ghost use Rattle.thread_cfg.specs.Picks.{PathsTellWays, PickedPathsAreThePaths, PicksDiffer, TakenArePicked, WaysTakePicks};

/// Each step of the source is a step by an edge, and each step by an edge is one of the source.
pub fn programs_step_alike()
    ensures { ProgramsStepAlike }
{}

/// A run of the program of a text fails exactly where an interleaving of the text's threads makes one of them fail.
pub fn texts_fail_alike()
    ensures { TextsFailAlike }
{}

/// A run of the program brings a thread to location 0 exactly where an interleaving makes that thread fail.
pub fn threads_fail_alike()
    ensures { ThreadsFailAlike }
{}

/// Each run of the program goes step by step as an interleaving of the text's threads does, and the other way round.
pub fn runs_go_as_interleavings()
    ensures { RunsGoAsInterleavings }
{}

/// A text has one program or one refusal, and never both. So what `read_program` answers is what the text has.
pub fn texts_are_read_exactly()
    ensures { TextsAreReadExactly }
{}

/// Each edge of the program is that of one way on from the action at its location, and within the bounds that the laws on edges ask for.
pub fn edges_are_of_actions()
    ensures { EdgesAreOfActions }
{}

/// A thread steps by an edge exactly where the events of its alternative happen.
pub fn edges_happen()
    ensures happen { EdgesHappen }
    ensures never { NeverEdgesDoNotHappen }
{}

/// A path of an atomic body is gone exactly where a way takes just what the path picks, with just its inputs.
pub fn paths_tell_ways()
    ensures paths { PickedPathsAreThePaths }
    ensures differ { PicksDiffer }
    ensures tell { PathsTellWays }
    ensures taken { TakenArePicked }
    ensures all { WaysTakePicks }
    ensures edges { PathEdgesTellWays }
    ensures edgeless { EdgelessPathsHaveNoWay }
{}
