ghost use Rattle.std.specs.Prelude.{◌≡◌, map, IfOk};
ghost use Rattle.std.specs.List.{AllByRecursion};
ghost use Rattle.horn_rules.specs.Stored.{HasItsHome};
ghost use Rattle.horn_rules.specs.Table.{IsTableOf};
ghost use Rattle.core_steps.specs.Allowed.{IsLiveFact};
ghost use Rattle.core_steps.specs.Course.{state_of};

use crate::stored_core::Core;
use fact_table::LiveFact;
use horn_rules::table;
use std::alloc::{AllocError, Global};
use thr_base::Fact;

/// The text of the live facts.
pub fn print_tables(alloc: Global, core: &Core<'_>) -> Result<Vec<u8>, AllocError>
    ensures { IfOk result (λ text. IsTableOf (IsLiveFact (state_of core.now)) text.items) }
{
    let facts = facts_alone(alloc, core.table().facts())?;
    table(alloc, core.program(), &facts)
}

/// The facts without their ids and instances.
fn facts_alone(alloc: Global, live: &[LiveFact]) -> Result<Vec<Fact>, AllocError>
    ensures { IfOk result (λ facts. facts.items ≡ map (λ f. f.fact) live.now) }
{
    let mut facts = Vec::new(alloc);
    for f in live {
        facts.push(f.fact)?;
    }
    Ok(facts)
}
