ghost use Rattle.std.specs.Prelude.{◌≡◌, slice_get};
ghost use Rattle.instance_cursors.specs.Instances as specs;
ghost use Rattle.instance_cursors.specs.Layout as layouts;

use crate::layout::Layout;
use crate::turns::{Series, Turn};
use thr_base::{EdgeNo, FactId, HomeNo, Instance, RuleName, ThreadNo};

/// The instance of the rule that a turn of a series is.
pub fn instance_of(layout: &Layout, series: Series, turn: Turn) -> Instance
    ensures { result ≡ specs.instance_of layout.now series turn }
{
    match series {
        Series::Own(edge) => Instance::Own(turn.id, edge_number(layout, edge)),
        Series::Told(edge) => Instance::Guar(turn.id, edge_number(layout, edge)),
        Series::Beside(_, id) => beside(layout, id, turn),
    }
}

fn edge_number(layout: &Layout, edge: u32) -> EdgeNo
    ensures { result ≡ specs.edge_number layout.now edge }
{
    match layout.edge(edge) {
        Some(edge) => edge.edge,
        None => EdgeNo(0),
    }
}

fn beside(layout: &Layout, id: FactId, turn: Turn) -> Instance
    ensures { result ≡ specs.beside layout.now.rule layout.now id turn }
{
    match layout.rule() {
        RuleName::Rg => Instance::Env(id, turn.id),
        RuleName::Og => Instance::Inter(id, turn.id, step_number(layout, turn.step)),
    }
}

fn step_number(layout: &Layout, step: u32) -> EdgeNo
    ensures { result ≡ specs.step_number layout.now step }
{
    if step == 0 {
        EdgeNo(0)
    } else {
        edge_number(layout, step - 1)
    }
}

/// The home to which the instances of a series lead.
pub(crate) fn target_of(layout: &Layout, series: Series) -> HomeNo
    ensures { result ≡ layouts.target_of layout.now series }
{
    match series {
        Series::Own(edge) => target_at(layout, edge),
        Series::Told(edge) => told_at(layout, edge),
        Series::Beside(home, _) => home,
    }
}

fn target_at(layout: &Layout, edge: u32) -> HomeNo
    ensures { result ≡ layouts.target_in (slice_get layout.now.edges edge) }
{
    match layout.edge(edge) {
        Some(edge) => edge.target,
        None => HomeNo(0),
    }
}

fn told_at(layout: &Layout, edge: u32) -> HomeNo
    ensures { result ≡ layouts.told_in (slice_get layout.now.edges edge) }
{
    match layout.edge(edge) {
        Some(edge) => edge.told,
        None => HomeNo(0),
    }
}

/// The thread of a home.
pub(crate) fn thread_at(layout: &Layout, home: HomeNo) -> ThreadNo
    ensures { result ≡ layouts.thread_at layout.now home }
{
    match layout.home(home) {
        Some(home) => home.thread,
        None => ThreadNo(0),
    }
}
