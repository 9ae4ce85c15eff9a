//! A change of sets at places: what is to come and go is found first, with memory, and then done.
ghost use Rattle.std.specs.Prelude.{ℕ, ◌≡◌, ◌++◌, IfOk, OnErr, OnOk, map};
ghost use Rattle.closed_sets.specs.Families.{IsSet};
ghost use Rattle.kept_sets.specs.Lists.{AreDifferent};
ghost use Rattle.kept_sets.specs.Stored.{AreEmptied, IsFound, IsPrepared, IsStore, IsWider, at};

use crate::emptying::take_out;
use crate::entering::enter_all;
use crate::finding::{Holders, extended_places, holding_places};
use crate::rests::add_rests;
use sky_units::NoMemory;
use std::alloc::Global;

/// What a change will do.
#[derive(Drop)]
pub struct Prepared {
    /// The grown sets and the rests that stay. The index has them at the places behind the old sets.
    pub added: Vec<Vec<u32>>,
    /// The places of the old sets that hold an item that went.
    pub broken: Vec<u32>,
    /// The places of the old sets that are grown sets without what came.
    pub extended: Vec<u32>,
}

/// Finds what a change will do. The index gains entries.
pub fn prepare(
    alloc: Global,
    sets: &[Vec<u32>],
    index: &mut Vec<Holders>,
    went: &[u32],
    came: &[u32],
    grown: Vec<Vec<u32>>,
) -> Result<Prepared, NoMemory>
    requires store { IsStore (map (λ set. set.items) sets.now)
        (map (λ holders. holders.places.items) index.old.items) }
    requires sets { (place : ℕ) → IsSet (at (map (λ set. set.items) sets.now) place) }
    requires once { AreDifferent (map (λ set. set.items) grown.items) }
    requires went { IsSet went.now }
    requires came { IsSet came.now }
    ensures wider { IsWider (map (λ holders. holders.places.items) index.old.items)
        (map (λ holders. holders.places.items) index.new.items) }
    ensures found { IfOk result (λ prepared.
        IsFound (map (λ set. set.items) sets.now ++ map (λ set. set.items) prepared.added.items)
        (map (λ holders. holders.places.items) index.new.items)) }
    ensures prepared { IfOk result (λ prepared.
        IsPrepared (map (λ set. set.items) sets.now) went.now came.now
        (map (λ set. set.items) grown.items) prepared.broken.items prepared.extended.items
        (map (λ set. set.items) prepared.added.items)) }
{
    let broken = holding_places(alloc, sets, index.as_slice(), went)?;
    let extended = extended_places(alloc, sets, index.as_slice(), came, grown.as_slice())?;
    let mut added = grown;
    enter_all(alloc, index, added.as_slice(), sets.len())?;
    add_rests(alloc, sets, index, went, broken.as_slice(), &mut added)?;
    Ok(Prepared {
        added,
        broken,
        extended,
    })
}

/// Does what a change will do.
pub fn apply(
    alloc: Global,
    sets: &mut Vec<Vec<u32>>,
    index: &mut Vec<Holders>,
    prepared: Prepared,
) -> Result<(), NoMemory>
    requires { IsFound
        (map (λ set. set.items) sets.old.items ++ map (λ set. set.items) prepared.added.items)
        (map (λ holders. holders.places.items) index.old.items) }
    ensures found { IsFound (map (λ set. set.items) sets.new.items)
        (map (λ holders. holders.places.items) index.new.items) }
    ensures same { OnErr result (sets.new.items ≡ sets.old.items) }
    ensures emptied { OnOk result (AreEmptied
        (map (λ set. set.items) sets.old.items ++ map (λ set. set.items) prepared.added.items)
        prepared.broken.items prepared.extended.items (map (λ set. set.items) sets.new.items)) }
{
    let mut added = prepared.added;
    sets.append(&mut added)?;
    take_out(alloc, sets, index, prepared.broken.as_slice());
    take_out(alloc, sets, index, prepared.extended.as_slice());
    Ok(())
}
