ghost use Rattle.std.specs.Prelude.{◌≡◌, ◌↔◌, ◌+◌, ◌-◌, ◌^◌, ◌<◌, ◌≤◌, ◌++◌, ◌∷◌, [], Some, length, slice_get, slice_range, IfNone, IfSome, IsTrue, OnErr, OnOk, IfOk};
ghost use Rattle.std.specs.List.{AllByRecursion, Contains};
ghost use Rattle.annotation_form.specs.Certificates.{AreListed, IsKept, NoneTwice};

use std::alloc::{AllocError, Global};
use std::marker::Model;

/// Where a certificate stands in the buffer.
#[derive(Clone, Copy, Drop)]
pub(crate) struct Place {
    from: usize,
    to: usize,
}

/// Certificates, no two alike, in one buffer. Each has a number, from 1 in the order in which they came.
#[derive(Drop)]
pub(crate) struct Certificates {
    pairs: Vec<(u32, i128)>,
    places: Vec<Place>,
}

impl Model for Certificates {
    ghost use Rattle.std.specs.Prelude.{List};
    ghost use Rattle.farkas_cert.specs.Cert.{Pairs};
    ghost use Rattle.annotation_form.specs.inside.Places.{AreKept, kept_at};

    ghost Value = { List Pairs };

    ghost view = { λ inside. kept_at inside.pairs.items inside.places.items };

    ghost invariant = { λ inside. AreKept inside.pairs.items inside.places.items };
}

fn is_same(one: &[(u32, i128)], other: &[(u32, i128)]) -> bool
    ensures { IsTrue result ↔ one.now ≡ other.now }
{
    one == other
}

/// A part of a buffer.
fn part(pairs: &[(u32, i128)], from: usize, to: usize) -> &[(u32, i128)]
    requires in_order { from ≤ to }
    requires within { to ≤ length pairs.now }
    ensures { result.now ≡ slice_range pairs.now from to }
{
    &pairs[from..to]
}

impl Certificates {
    pub(crate) fn new(alloc: Global) -> Certificates
        ensures { result ≡ [] }
    {
        Certificates {
            pairs: Vec::new(alloc),
            places: Vec::new(alloc),
        }
    }

    pub(crate) fn count(&self) -> usize
        ensures count { result ≡ length self.now }
        ensures listed { AllByRecursion (AreListed 0) self.now }
        ensures none_alike { NoneTwice self.now }
    {
        self.places.len()
    }

    /// The certificate at a place, from 0.
    pub(crate) fn at(&self, place: usize) -> &[(u32, i128)]
        requires { place < length self.now }
        ensures { slice_get self.now place ≡ Some result.now }
    {
        let found = self.places[place];
        part(self.pairs.as_slice(), found.from, found.to)
    }

    /// The place of a certificate, from 0.
    fn place_of(&self, pairs: &[(u32, i128)]) -> Option<usize>
        ensures some { IfSome result (λ place. slice_get self.now place ≡ Some pairs.now) }
        ensures none { IfNone result (¬ Contains self.now pairs.now) }
    {
        for place in 0..self.count() {
            if is_same(self.at(place), pairs) {
                return Some(place);
            }
        }
        None
    }

    /// Appends a certificate. Where there is no memory, pairs may be left behind that no place names.
    fn append(&mut self, pairs: &[(u32, i128)]) -> Result<(), AllocError>
        requires new { ¬ Contains self.old pairs.now }
        requires listed { AreListed 0 pairs.now }
        ensures ok { OnOk result (self.new ≡ self.old ++ pairs.now ∷ []) }
        ensures err { OnErr result (self.new ≡ self.old) }
    {
        let from = self.pairs.len();
        self.pairs.extend_from_slice(pairs)?;
        let to = self.pairs.len();
        self.places.push(Place { from, to })?;
        Ok(())
    }

    /// The number of a certificate, which is added where it is new.
    pub(crate) fn number_of(&mut self, pairs: &[(u32, i128)]) -> Result<u32, AllocError>
        requires few { length self.old < 2 ^ 32 - 1 }
        requires listed { AreListed 0 pairs.now }
        ensures ok { IfOk result (λ n. IsKept self.old pairs.now n self.new) }
        ensures err { OnErr result (self.new ≡ self.old) }
    {
        let count = self.count();
        if let Some(place) = self.place_of(pairs) {
            return Ok(place as u32 + 1);
        }
        self.append(pairs)?;
        Ok(count as u32 + 1)
    }
}
