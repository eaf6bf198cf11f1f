ghost use Rattle.std.specs.Prelude.{◌≡◌, ◌↔◌, ◌+◌, ◌^◌, ◌<◌, ◌≤◌, [], ◌∷◌, ◌++◌, length, map, replicate, Any, Contains, IfOk, OnOk, IsTrue};
ghost use Rattle.serial_fix.specs.inside.Found.{FoundFacts, held_at};

use std::alloc::{AllocError, Global};
use std::marker::Model;
use thr_base::{Fact, HomeNo};

/// The facts that a run has found, in the order in which they came, and for each home the words that are held there; and how many
/// jobs it has counted.
#[derive(Drop)]
pub(crate) struct Found {
    facts: Vec<Fact>,
    at_home: Vec<Vec<u128>>,
    jobs: u32,
}

impl Model for Found {
    ghost use Rattle.std.specs.Prelude.{length, map};
    ghost use Rattle.serial_fix.specs.inside.Found.{FoundFacts, IsIndex};

    ghost Value = { FoundFacts };

    ghost view = { λ inside. record { homes = length inside.at_home.items; facts = inside.facts.items; jobs = inside.jobs } };

    ghost invariant = { λ inside. IsIndex (map (λ words. words.items) inside.at_home.items) inside.facts.items };
}

impl Found {
    pub(crate) fn new(alloc: Global, homes: u32) -> Result<Found, AllocError>
        ensures { IfOk result (λ found. found ≡ record { homes = homes; facts = []; jobs = 0 }) }
    {
        Ok(Found {
            facts: Vec::new(alloc),
            at_home: no_words(alloc, homes)?,
            jobs: 0,
        })
    }

    pub(crate) fn allocator(&self) -> Global {
        *self.facts.allocator()
    }

    pub(crate) fn jobs(&self) -> u32
        ensures { result ≡ self.now.jobs }
    {
        self.jobs
    }

    /// Counts one more job.
    pub(crate) fn count_job(&mut self)
        requires { self.old.jobs + 1 < 2 ^ 32 }
        ensures { self.new ≡ record self.old { jobs = self.old.jobs + 1 } }
    {
        self.jobs += 1;
    }

    pub(crate) fn facts(&self) -> &[Fact]
        ensures facts { result.now ≡ self.now.facts }
        ensures few { length self.now.facts < 2 ^ 32 }
    {
        self.facts.as_slice()
    }

    pub(crate) fn into_facts(self) -> Vec<Fact>
        ensures { result.items ≡ self.facts }
    {
        self.facts
    }

    /// The words that are held at a home.
    fn words(&self, home: HomeNo) -> &[u128]
        requires from_1 { 0 < home.0 }
        requires to_last { home.0 ≤ self.now.homes }
        ensures { result.now ≡ held_at home.0 self.now.facts }
    {
        &self.at_home[home.0 as usize - 1]
    }

    /// Whether a fact is there.
    pub(crate) fn holds(&self, fact: Fact) -> bool
        requires from_1 { 0 < fact.home.0 }
        requires to_last { fact.home.0 ≤ self.now.homes }
        ensures { IsTrue result ↔ Contains self.now.facts fact }
    {
        has(self.words(fact.home), fact.held)
    }

    /// Whether there is a fact at a home.
    pub(crate) fn stands_at(&self, home: HomeNo) -> bool
        requires from_1 { 0 < home.0 }
        requires to_last { home.0 ≤ self.now.homes }
        ensures { IsTrue result ↔ Any (λ fact. fact.home.0 ≡ home.0) self.now.facts }
    {
        !self.words(home).is_empty()
    }

    /// Appends a fact. More than can be numbered count as want of memory.
    pub(crate) fn push(&mut self, fact: Fact) -> Result<(), AllocError>
        requires from_1 { 0 < fact.home.0 }
        requires to_last { fact.home.0 ≤ self.old.homes }
        ensures { OnOk result (self.new ≡ record self.old { facts = self.old.facts ++ fact ∷ [] }) }
    {
        if self.facts.len() >= u32::MAX as usize {
            return Err(AllocError);
        }
        self.facts.push(fact)?;
        let place = fact.home.0 as usize - 1;
        if self.at_home[place].push(fact.held).is_err() {
            self.facts.pop();
            return Err(AllocError);
        }
        Ok(())
    }
}

fn has(words: &[u128], word: u128) -> bool
    ensures { IsTrue result ↔ Contains words.now word }
{
    words.contains(&word)
}

fn no_words(alloc: Global, homes: u32) -> Result<Vec<Vec<u128>>, AllocError>
    ensures { IfOk result (λ words. map (λ held. held.items) words.items ≡ replicate homes []) }
{
    let mut words = Vec::new(alloc);
    for _home in 0..homes {
        words.push(Vec::new(alloc))?;
    }
    Ok(words)
}
