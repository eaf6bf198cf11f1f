ghost use Rattle.derivation_tree.specs.Laws.{ChainPointsAreRuns, CutPointsHaveNoModularSolution, CutSumsAreModular, FactsHaveTrees, FullLessonsAreNeeded, FullPointsGiveChainPoints, FullPointsHaveNoSolution, ModularLessonsAreModular, SumsAreSolutions};

/// Each fact that is kept has a tree, which is one of the program and has the fact's home: a law, and no code.
pub fn facts_have_trees()
    ensures { FactsHaveTrees }
{}

/// The sums of a certificate that refutes the full system of a tree are a solution of it, and those of one that refutes its cut system
/// a modular one: laws, and no code.
pub fn sums_are_solutions()
    ensures full { SumsAreSolutions }
    ensures cut { CutSumsAreModular }
{}

/// A tree whose cut system has a rational point has no modular solution, and one whose full system has one has no solution at all: laws,
/// and no code.
pub fn points_have_no_solution()
    ensures cut { CutPointsHaveNoModularSolution }
    ensures full { FullPointsHaveNoSolution }
{}

/// What a tree teaches is of a solution of it: a modular one, or else the tree has none that is modular: laws, and no code.
pub fn lessons_are_of_solutions()
    ensures modular { ModularLessonsAreModular }
    ensures full { FullLessonsAreNeeded }
{}

/// Where a tree's full system has a rational point, so has that of its chain: a law, and no code.
pub fn full_points_give_chain_points()
    ensures { FullPointsGiveChainPoints }
{}

/// A whole point of a tree's chain tells a run that ends where the root's thread is at the root's location: a law, and no code.
pub fn chain_points_are_runs()
    ensures { ChainPointsAreRuns }
{}
