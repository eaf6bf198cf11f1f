ghost use Rattle.transition_formula.specs.FormLaws.{FormsAreMade, SumsAreExact, DifferencesAreExact, MultiplesAreExact, ProductsAreExact, CompositionsAreExact, ValuesAreExact};
ghost use Rattle.transition_formula.specs.TextLaws.{ColumnTextsAreWords, AtomTextsTellAtoms, AtomTextsArePrintable};
ghost use Rattle.transition_formula.specs.Laws.{InitRowsAreExact, EdgeRowsAreExact, RunsEndInReachedStates, FailingStatesEndRuns, FailingRunsReach};

/// The rows of the initial states hold at exactly these: a law, and no code.
pub fn init_rows_are_exact()
    ensures { InitRowsAreExact }
{}

/// The rows of an edge hold at exactly the steps by it: a law, and no code.
pub fn edge_rows_are_exact()
    ensures { EdgeRowsAreExact }
{}

/// A state is reached exactly where a run ends in it, and a run fails exactly where it comes to a state in which a thread is
/// at location 0: laws, and no code.
pub fn runs_end_in_reached_states()
    ensures ends { RunsEndInReachedStates }
    ensures failing_ends { FailingStatesEndRuns }
    ensures failing_runs { FailingRunsReach }
{}

/// Forms that are made of others, where they are given, are worth what they say over unbounded integers: laws, and no
/// code.
pub fn forms_are_exact()
    ensures made { FormsAreMade }
    ensures sums { SumsAreExact }
    ensures differences { DifferencesAreExact }
    ensures multiples { MultiplesAreExact }
    ensures products { ProductsAreExact }
    ensures compositions { CompositionsAreExact }
    ensures values { ValuesAreExact }
{}

/// A text is that of one atom at most, and stands in one line; the text of a column has no byte that parts of atoms
/// are joined by: laws, and no code.
pub fn atom_texts_tell_atoms()
    ensures atoms { AtomTextsTellAtoms }
    ensures printable { AtomTextsArePrintable }
    ensures columns { ColumnTextsAreWords }
{}
