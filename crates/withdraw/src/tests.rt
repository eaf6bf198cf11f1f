ghost use Rattle.std.specs.Prelude.{◌≡◌, ◌<◌, ◌≤◌, ◌+◌, ◌-◌, ◌^◌};
ghost use Rattle.fact_table.specs.Live.{ArePremisesLive, NoneIsMarked};
ghost use Rattle.fact_table.specs.Table.{HasHome, NamesLive};
ghost use Rattle.withdraw.specs.Withdrawal.{RestOnEarlier};

use crate::{insertions_rest_on_earlier, withdraw};
use fact_table::{Inserted, Table};
use std::test::Fail;
use thr_base::{EdgeNo, Fact, FactId, HomeNo, Instance, ThreadNo};

const START: Instance = Instance::Init(ThreadNo(1));

/// Puts a fact in, at a home by number.
fn put(table: &mut Table, home: u32, kept: Instance) -> Inserted
    requires home { HasHome table.old.homes home }
    requires premises { ArePremisesLive table.old.live kept }
    requires ids { table.old.given < 2 ^ 32 - 1 }
    requires unmarked { NoneIsMarked table.old.live }
    requires rest { RestOnEarlier table.old.live }
    ensures unmarked { NoneIsMarked table.new.live }
    ensures homes { table.new.homes ≡ table.old.homes }
    ensures given { table.new.given ≤ table.old.given + 1 }
    ensures rest { RestOnEarlier table.new.live }
    ensures live { NamesLive result table.new.live }
{
    insertions_rest_on_earlier();
    let _ = table.facts();
    table.insert(
        Fact {
            home: HomeNo(home),
            held: 0,
        },
        kept,
    )
}

#[test]
fn what_rests_on_a_changed_home_goes(rt: HostRuntime) -> Result<(), Fail> {
    let mut table = Table::new(rt.alloc(), 4, 8)?;
    if let Inserted::New(first) = put(&mut table, 1, START) {
        if let Inserted::New(second) = put(&mut table, 2, Instance::Own(first, EdgeNo(1))) {
            let _ = put(&mut table, 3, Instance::Own(second, EdgeNo(2)));
        }
    }
    let _ = put(&mut table, 4, START);
    assert_eq!(rt; table.live().len(), 4);
    assert_eq!(rt; withdraw(&mut table, &[HomeNo(2)]), 2);
    assert_eq!(rt; table.live(), [FactId(1), FactId(4)].as_slice());
    assert_eq!(rt; withdraw(&mut table, &[]), 0);
    assert_eq!(rt; withdraw(&mut table, &[HomeNo(3), HomeNo(4)]), 1);
    assert_eq!(rt; table.live(), [FactId(1)].as_slice());
    Ok(())
}
