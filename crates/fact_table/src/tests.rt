ghost use Rattle.std.specs.Prelude.{◌≡◌, ◌+◌, ◌<◌, ◌≤◌, ◌-◌, ◌^◌};
ghost use Rattle.fact_table.specs.Live.{NoneIsMarked};

use crate::{Inserted, Rank, Table};
use std::test::Fail;
use thr_base::{EdgeNo, Fact, FactId, HomeNo, Instance, ThreadNo};

const START: Instance = Instance::Init(ThreadNo(1));

fn fact(home: u32, held: u128) -> Fact
    ensures { result.home.0 ≡ home }
{
    Fact {
        home: HomeNo(home),
        held,
    }
}

#[test]
fn an_id_is_never_used_again(rt: HostRuntime) -> Result<(), Fail> {
    let mut table = Table::new(rt.alloc(), 2, 8)?;
    let first = table.insert(fact(1, 0), START);
    let second = table.insert(fact(2, 5), START);
    assert_eq!(rt; first, Inserted::New(FactId(1)));
    assert_eq!(rt; second, Inserted::New(FactId(2)));
    if let Inserted::New(id) = second {
        table.mark(id);
        assert!(rt; table.marked(id));
    }
    assert!(rt; !table.marked(FactId(1)));
    assert_eq!(rt; table.sweep(), 1);
    assert_eq!(rt; table.kept(FactId(2)), None);
    assert_eq!(rt; table.kept(FactId(1)), Some((fact(1, 0), START)));
    let third = table.insert(fact(2, 5), START);
    assert_eq!(rt; third, Inserted::New(FactId(3)));
    assert_eq!(rt; table.live(), [FactId(1), FactId(3)].as_slice());
    assert_eq!(rt; table.at(HomeNo(1)), [FactId(1)].as_slice());
    assert_eq!(rt; table.at(HomeNo(2)), [FactId(3)].as_slice());
    assert_eq!(rt; table.facts().len(), 2);
    Ok(())
}

#[test]
fn the_first_instance_is_kept(rt: HostRuntime) -> Result<(), Fail> {
    let mut table = Table::new(rt.alloc(), 2, 8)?;
    let first = table.insert(fact(1, 3), START);
    let again = table.insert(fact(1, 3), Instance::Init(ThreadNo(2)));
    assert_eq!(rt; first, Inserted::New(FactId(1)));
    assert_eq!(rt; again, Inserted::Same(FactId(1)));
    assert_eq!(rt; table.kept(FactId(1)), Some((fact(1, 3), START)));
    Ok(())
}

#[test]
fn a_full_table_stays_as_it_was(rt: HostRuntime) -> Result<(), Fail> {
    let mut table = Table::new(rt.alloc(), 2, 1)?;
    let first = table.insert(fact(1, 0), START);
    let further = table.insert(fact(2, 0), START);
    let again = table.insert(fact(1, 0), START);
    assert_eq!(rt; first, Inserted::New(FactId(1)));
    assert_eq!(rt; further, Inserted::Full);
    assert_eq!(rt; again, Inserted::Same(FactId(1)));
    assert_eq!(rt; table.live(), [FactId(1)].as_slice());
    assert_eq!(rt; table.at(HomeNo(2)), [].as_slice());
    Ok(())
}

#[test]
fn ranks_grow_with_derivations(rt: HostRuntime) -> Result<(), Fail> {
    let mut table = Table::new(rt.alloc(), 4, 8)?;
    if let Inserted::New(start) = table.insert(fact(1, 0), START) {
        if let Inserted::New(told) = table.insert(fact(3, 0), Instance::Guar(start, EdgeNo(1))) {
            assert_eq!(rt; rank_of_last(&table), Some(Rank { size: 2, chain: 0 }));
            if let Inserted::New(_) = table.insert(fact(2, 0), Instance::Own(told, EdgeNo(1))) {
                assert_eq!(rt; rank_of_last(&table), Some(Rank { size: 3, chain: 1 }));
            }
        }
    }
    assert_eq!(rt; table.live().len(), 3);
    Ok(())
}

fn rank_of_last(table: &Table) -> Option<Rank> {
    Some(table.facts().last()?.rank)
}

#[test]
fn a_table_holds_65536_facts(rt: HostRuntime) -> Result<(), Fail> {
    let mut table = Table::new(rt.alloc(), 8, 65_536)?;
    fill(&mut table, 65_536);
    assert_eq!(rt; table.live().len(), 65_536);
    let further = table.insert(fact(1, 0), START);
    assert_eq!(rt; further, Inserted::Full);
    assert_eq!(rt; table.at(HomeNo(1)).len(), 8_192);
    assert_eq!(rt; table.kept(FactId(65_536)), Some((fact(1, 65_536), START)));
    Ok(())
}

/// Puts in facts at eight homes in turn.
fn fill(table: &mut Table, count: u32)
    requires homes { table.old.homes ≡ 8 }
    requires unmarked { NoneIsMarked table.old.live }
    requires ids { table.old.given + count < 2 ^ 32 - 1 }
    ensures homes { table.new.homes ≡ 8 }
    ensures unmarked { NoneIsMarked table.new.live }
    ensures ids { table.new.given ≤ table.old.given + count }
{
    for n in 0..count {
        let _ = table.insert(fact((n + 1) % 8 + 1, n as u128 + 1), START);
    }
}
