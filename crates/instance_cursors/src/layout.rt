ghost use Rattle.std.specs.Prelude.{◌≡◌, ◌<◌, ◌^◌, length, slice_get};
ghost use Rattle.instance_cursors.specs.Layout as specs;
ghost use Rattle.instance_cursors.specs.Ways.{AreApart, Layout as Seen};

use std::marker::Model;
use thr_base::{EdgeNo, HomeNo, RuleName, ThreadNo};

/// Whether the facts at a home describe states of its thread, or steps of it as the other threads see them.
#[derive(Clone, Copy, Debug, PartialEq, Eq)]
pub enum HomeKind {
    State,
    Step,
}

/// A home's thread and kind.
#[derive(Clone, Copy, Debug, PartialEq, Eq)]
pub struct HomeOf {
    pub thread: ThreadNo,
    pub kind: HomeKind,
}

/// An edge with the homes of its source and of its target, the home at which its steps are told to the other threads, and how many
/// edges lead on from its target to an assertion that fails, the order's guess of what is worth looking at first.
#[derive(Clone, Copy, Debug, PartialEq, Eq)]
pub struct EdgeHomes {
    pub thread: ThreadNo,
    pub edge: EdgeNo,
    pub source: HomeNo,
    pub target: HomeNo,
    pub told: HomeNo,
    pub to_failing: u32,
}

/// What cursors need to know of a program: its rule, its homes by number, and all edges, of which no two lead on from one home with one
/// number.
#[derive(Drop)]
pub struct Layout {
    rule: RuleName,
    homes: Vec<HomeOf>,
    edges: Vec<EdgeHomes>,
}

impl Model for Layout {
    ghost use Rattle.std.specs.Prelude.{◌<◌, ◌^◌, length};
    ghost use Rattle.instance_cursors.specs.Ways.{AreApart, Layout as Seen};

    ghost Value = { Seen };

    ghost view = { λ inside. record {
      rule = inside.rule;
      homes = inside.homes.items;
      edges = inside.edges.items;
    } };

    ghost invariant = { λ inside. (length inside.edges.items < 2 ^ 32) × AreApart inside.edges.items };
}

impl Layout {
    pub fn new(rule: RuleName, homes: Vec<HomeOf>, edges: Vec<EdgeHomes>) -> Layout
        requires few { length edges.items < 2 ^ 32 }
        requires apart { AreApart edges.items }
        ensures { result ≡ record { rule = rule; homes = homes.items; edges = edges.items } }
    {
        Layout { rule, homes, edges }
    }

    pub fn rule(&self) -> RuleName
        ensures { result ≡ self.now.rule }
    {
        self.rule
    }

    /// How many edges there are.
    pub fn edge_count(&self) -> u32
        ensures count { result ≡ length self.now.edges }
        ensures apart { AreApart self.now.edges }
    {
        self.edges.len() as u32
    }

    /// The edge at a place, from 0.
    pub fn edge(&self, place: u32) -> Option<EdgeHomes>
        ensures { result ≡ slice_get self.now.edges place }
    {
        self.edges.get(place as usize).copied()
    }

    /// The home of a number, from 1.
    pub fn home(&self, home: HomeNo) -> Option<HomeOf>
        ensures { result ≡ specs.home_at self.now home.0 }
    {
        if home.0 == 0 {
            return None;
        }
        self.homes.get(home.0 as usize - 1).copied()
    }
}
