ghost use Rattle.std.specs.Prelude.{◌≡◌, ◌-◌, ◌^◌, ◌<◌, ◌≤◌, ◌++◌, ◌∷◌, [], Some, length, map, IfOk, OnErr, OnOk};
ghost use Rattle.std.specs.List.{AllByRecursion};
ghost use Rattle.transition_formula.specs.Program.{at_number};
ghost use Rattle.annotation_form.specs.Annotation.{group_of};
ghost use Rattle.annotation_form.specs.Certificates.{AreListed, IsKept, NoneTwice};

use crate::certificates::Certificates;
use predicate_sets::Sets;
use std::alloc::{AllocError, Global};
use std::marker::Model;
use thr_base::{Fact, RuleName};

/// What is to prove a check: the number of a certificate that refutes its instance, or the number of a fact that the instance
/// gives, with the number of a certificate for each of its atoms.
#[derive(Debug, Drop)]
pub enum Group {
    Refuted(u32),
    Fact(u32, Vec<u32>),
}

/// What claims that no run of a program fails: the predicates of its homes, facts over them, and for each instance of a rule over
/// these facts a group, with certificates of which no two are alike. Facts, certificates and groups are numbered from 1.
#[derive(Drop)]
pub struct Annotation {
    rule: RuleName,
    sets: Sets,
    facts: Vec<Fact>,
    certificates: Certificates,
    groups: Vec<Group>,
}

impl Model for Annotation {
    ghost use Rattle.std.specs.Prelude.{◌<◌, ◌-◌, ◌^◌, length, map};
    ghost use Rattle.annotation_form.specs.Annotation as specs;
    ghost use Rattle.annotation_form.specs.inside.Places.{IsFew};

    ghost Value = { specs.Annotation };

    ghost view = { λ inside. record { rule = inside.rule; sets = inside.sets; facts = inside.facts.items; certificates = inside.certificates; groups = map specs.group_of inside.groups.items } };

    ghost invariant = { λ inside. IsFew (length inside.facts.items) (length inside.groups.items) };
}

impl Annotation {
    /// An annotation without certificates and groups.
    pub fn new(alloc: Global, rule: RuleName, sets: Sets, facts: Vec<Fact>) -> Annotation
        requires { length facts.items < 2 ^ 32 - 1 }
        ensures { result ≡ record { rule = rule; sets = sets; facts = facts.items; certificates = []; groups = [] } }
    {
        Annotation {
            rule,
            sets,
            facts,
            certificates: Certificates::new(alloc),
            groups: Vec::new(alloc),
        }
    }

    pub fn rule(&self) -> RuleName
        ensures { result ≡ self.now.rule }
    {
        self.rule
    }

    pub fn sets(&self) -> &Sets
        ensures { result.now ≡ self.now.sets }
    {
        &self.sets
    }

    pub fn facts(&self) -> &[Fact]
        ensures facts { result.now ≡ self.now.facts }
        ensures few { length self.now.facts < 2 ^ 32 - 1 }
    {
        self.facts.as_slice()
    }

    pub fn groups(&self) -> &[Group]
        ensures groups { map group_of result.now ≡ self.now.groups }
        ensures few { length self.now.groups < 2 ^ 32 - 1 }
    {
        self.groups.as_slice()
    }

    /// How many certificates there are.
    pub fn certificates(&self) -> usize
        ensures count { result ≡ length self.now.certificates }
        ensures listed { AllByRecursion (AreListed 0) self.now.certificates }
        ensures none_alike { NoneTwice self.now.certificates }
    {
        self.certificates.count()
    }

    /// The certificate of a number, from 1.
    pub fn cert(&self, n: u32) -> &[(u32, i128)]
        requires from_1 { 0 < n }
        requires there { n ≤ length self.now.certificates }
        ensures { at_number self.now.certificates n ≡ Some result.now }
    {
        self.certificates.at(n as usize - 1)
    }

    /// The number of the certificate with these pairs, which is added last where there is none.
    pub fn push_cert(&mut self, pairs: &[(u32, i128)]) -> Result<u32, AllocError>
        requires few { length self.old.certificates < 2 ^ 32 - 1 }
        requires listed { AreListed 0 pairs.now }
        ensures number { IfOk result (λ n. IsKept self.old.certificates pairs.now n self.new.certificates) }
        ensures rest { IfOk result (λ n. self.new ≡ record self.old { certificates = self.new.certificates }) }
        ensures err { OnErr result (self.new ≡ self.old) }
    {
        self.certificates.number_of(pairs)
    }

    /// Appends a group.
    pub fn push_group(&mut self, group: Group) -> Result<(), AllocError>
        requires { length self.old.groups < 2 ^ 32 - 2 }
        ensures ok { OnOk result (self.new ≡ record self.old { groups = self.old.groups ++ group_of group ∷ [] }) }
        ensures err { OnErr result (self.new ≡ self.old) }
    {
        self.groups.push(group)?;
        Ok(())
    }
}
