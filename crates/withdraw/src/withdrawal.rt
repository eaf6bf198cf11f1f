ghost use Rattle.std.specs.Prelude.{◌≡◌, ◌+◌, ◌↔◌, ◌<◌, IsTrue, length, map};
ghost use Rattle.std.specs.List.{Contains};
ghost use Rattle.fact_table.specs.Live.{IsLive, NoneIsMarked};
ghost use Rattle.withdraw.specs.Withdrawal.{IsWithdrawn, IsWithout, RestOnEarlier};
ghost use Rattle.withdraw.specs.inside.Gone.{goes, looked_at, marked_among};

use fact_table::{LiveFact, Table};
use thr_base::{FactId, HomeNo, Instance};

/// Takes out the live facts at these homes and all that rest on them, and says how many. It takes no memory.
pub fn withdraw(table: &mut Table, homes: &[HomeNo]) -> u32
    requires unmarked { NoneIsMarked table.old.live }
    requires rest { RestOnEarlier table.old.live }
    ensures exactly { IsWithout (IsWithdrawn homes.now table.old.live) table.old.live table.new.live }
    ensures same { table.new ≡ record table.old { live = table.new.live } }
    ensures count { result + length table.new.live ≡ length table.old.live }
    ensures unmarked { NoneIsMarked table.new.live }
    ensures rest { RestOnEarlier table.new.live }
{
    for place in 0..table.facts().len() {
        let fact = table.facts()[place];
        mark_if_it_goes(table, homes, fact);
    }
    table.sweep()
}

fn mark_if_it_goes(table: &mut Table, homes: &[HomeNo], fact: LiveFact)
    requires { IsLive table.old.live fact.id }
    ensures { table.new ≡ looked_at homes.now table.old fact }
{
    if goes_now(table, homes, &fact) {
        table.mark(fact.id);
    }
}

/// Whether a fact goes, where the facts before it that go are marked.
fn goes_now(table: &Table, homes: &[HomeNo], fact: &LiveFact) -> bool
    ensures { result ≡ goes homes.now table.now.live fact.now }
{
    homes.contains(&fact.fact.home) || has_marked_premise(table, fact.kept)
}

fn has_marked_premise(table: &Table, kept: Instance) -> bool
    ensures { result ≡ marked_among table.now.live kept }
{
    match kept {
        Instance::Init(_) => false,
        Instance::Own(f, _) => table.marked(f),
        Instance::Guar(f, _) => table.marked(f),
        Instance::Env(f, t) => table.marked(f) || table.marked(t),
        Instance::Inter(f, g, _) => table.marked(f) || table.marked(g),
    }
}
