ghost use Rattle.std.specs.Prelude.{◌≡◌, ◌↔◌, IsTrue};
ghost use Rattle.thr_base.specs.Limits.{text_limit, annotation_limit, most_levels, most_threads, most_columns, most_locations, most_paths, most_edges, most_inputs, most_tests, most_predicates, most_tree_columns, most_tree_rows, most_elimination_rows, most_generated, most_facts, most_jobs, most_refinements, most_nodes, most_workers, AreAllowed, default_facts, default_jobs, default_refinements, default_nodes};

/// What a run may use before it gives up. Each number is a count.
#[derive(Clone, Copy, Debug, PartialEq, Eq)]
pub struct Limits {
    /// Live facts, from 1 to 65,536.
    pub facts: u32,
    /// Publishes that were not stale, from 1 to 2,000,000.
    pub jobs: u32,
    /// Refinements, from 0 to 10,000.
    pub refinements: u32,
    /// Nodes of a counterexample tree, from 1 to 1,000.
    pub tree: u32,
}

impl Limits {
    /// Whether each number is within its bounds.
    pub fn are_allowed(&self) -> bool
        ensures { IsTrue result ↔ AreAllowed self.now }
    {
        1 <= self.facts
            && self.facts <= MOST_LIMITS.facts
            && 1 <= self.jobs
            && self.jobs <= MOST_LIMITS.jobs
            && self.refinements <= MOST_LIMITS.refinements
            && 1 <= self.tree
            && self.tree <= MOST_LIMITS.tree
    }
}

/// What a run may use where nothing else is asked.
pub const DEFAULT_LIMITS: Limits = Limits {
    facts: 4_096,
    jobs: 200_000,
    refinements: 200,
    tree: 200,
};

/// The most that a run may be allowed.
pub const MOST_LIMITS: Limits = Limits {
    facts: 65_536,
    jobs: 2_000_000,
    refinements: 10_000,
    tree: 1_000,
};

/// Bytes of a program, of predicates, or of a schedule.
pub const TEXT_LIMIT: u32 = 1_048_576;

/// Bytes of an annotation.
pub const ANNOTATION_LIMIT: u32 = 67_108_864;

/// Levels of statements, parentheses and unary operators of a text.
pub const MOST_LEVELS: u32 = 64;

/// Threads of a program.
pub const MOST_THREADS: u32 = 8;

/// Columns of a program that is read.
pub const MOST_COLUMNS: u32 = 64;

/// Locations of a thread, the failing one and the exit among them.
pub const MOST_LOCATIONS: u32 = 256;

/// Paths of an atomic block.
pub const MOST_PATHS: u32 = 64;

/// Edges of a thread.
pub const MOST_EDGES: u32 = 65_536;

/// Inputs of an edge.
pub const MOST_INPUTS: u32 = 1_048_576;

/// Tests of an edge.
pub const MOST_TESTS: u32 = 1_048_576;

/// Predicates of a home.
pub const MOST_PREDICATES: u32 = 128;

/// Columns of the system of a counterexample tree.
pub const MOST_TREE_COLUMNS: u32 = 512;

/// Rows of the system of a counterexample tree.
pub const MOST_TREE_ROWS: u32 = 2_048;

/// Rows that are given to one elimination and made by it.
pub const MOST_ELIMINATION_ROWS: u32 = 8_192;

/// Workers of a run, at least 1.
pub const MOST_WORKERS: u32 = 65_536;

/// Statements of a thread of a generated program, at least 1.
pub const MOST_GENERATED: u32 = 250;

/// The limits of the code are those that definitions cite.
pub fn limits_are_as_defined()
    ensures texts { (TEXT_LIMIT ≡ text_limit) × (ANNOTATION_LIMIT ≡ annotation_limit) }
    ensures levels { MOST_LEVELS ≡ most_levels }
    ensures threads { MOST_THREADS ≡ most_threads }
    ensures columns { MOST_COLUMNS ≡ most_columns }
    ensures locations { MOST_LOCATIONS ≡ most_locations }
    ensures paths { MOST_PATHS ≡ most_paths }
    ensures edges { (MOST_EDGES ≡ most_edges) × (MOST_INPUTS ≡ most_inputs) × (MOST_TESTS ≡ most_tests) }
    ensures predicates { MOST_PREDICATES ≡ most_predicates }
    ensures trees { (MOST_TREE_COLUMNS ≡ most_tree_columns) × (MOST_TREE_ROWS ≡ most_tree_rows) }
    ensures elimination { MOST_ELIMINATION_ROWS ≡ most_elimination_rows }
    ensures workers { MOST_WORKERS ≡ most_workers }
    ensures generated { MOST_GENERATED ≡ most_generated }
    ensures most { MOST_LIMITS ≡ record { facts = most_facts; jobs = most_jobs; refinements = most_refinements; tree = most_nodes } }
    ensures default { DEFAULT_LIMITS ≡ record { facts = default_facts; jobs = default_jobs; refinements = default_refinements; tree = default_nodes } }
{}
