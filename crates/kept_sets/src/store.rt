//! The sets that are kept, and what a change makes of them.
ghost use Rattle.std.specs.Prelude.{ℕ, ◌≡◌, ◌↔◌, List, [], OnErr, OnOk, map};
ghost use Rattle.std.specs.List.{Contains};
ghost use Rattle.closed_sets.specs.Families.{IsSet};
ghost use Rattle.kept_sets.specs.Changes.{AreReady, IsAfter};
ghost use Rattle.kept_sets.specs.Lists.{AreDifferent};
ghost use Rattle.kept_sets.specs.Stored.{IsStore, filled};

use crate::changing::{apply, prepare};
use crate::compacting::{drop_empty, index_of};
use crate::finding::Holders;
use crate::walk::Sets;
use sky_units::NoMemory;
use std::alloc::Global;
use std::marker::Model;

/// Sets of items, each once, seen as their list. An item is a small number that lasts.
#[derive(Drop)]
pub struct KeptSets {
    sets: Vec<Vec<u32>>,
    index: Vec<Holders>,
    /// How many places have lost their sets; a few may be counted twice.
    emptied: usize,
}

impl Model for KeptSets {
    ghost Value = { List (List ℕ) };

    ghost view = { λ kept. filled (map (λ set. set.items) kept.sets.items) };

    ghost invariant = { λ kept. IsStore (map (λ set. set.items) kept.sets.items)
        (map (λ holders. holders.places.items) kept.index.items) };
}

impl KeptSets {
    /// No sets.
    pub fn new(alloc: Global) -> Self
        ensures { result ≡ [] }
    {
        KeptSets {
            sets: Vec::new(alloc),
            index: Vec::new(alloc),
            emptied: 0,
        }
    }

    /// The sets, one after another.
    pub fn sets(&self) -> Sets<'_>
        ensures { result ≡ self.now }
    {
        Sets::at(self.sets.as_slice())
    }

    /// Changes the sets where items went and came: `grown` are the sets that are kept from now on and
    /// hold an item that came. An old set that lost nothing stays, unless a grown set is that set with
    /// items that came. Of one that lost items the rest stays, where it has three or more, and lies in
    /// no grown set and properly in the rest of no old one. It costs what it touches: the sets that hold
    /// an item that went, the grown sets, and, for each rest and each grown set without what came, the
    /// sets of the item that fewest hold. Where memory is wanting, nothing changes; more than 2^32
    /// places want memory.
    pub fn change(
        &mut self,
        alloc: Global,
        went: &[u32],
        came: &[u32],
        grown: Vec<Vec<u32>>,
    ) -> Result<(), NoMemory>
        requires ready { AreReady went.now came.now self.old (map (λ set. set.items) grown.items) }
        requires went { IsSet went.now }
        requires came { IsSet came.now }
        ensures once { AreDifferent self.new }
        ensures same { OnErr result (self.new ≡ self.old) }
        ensures changed { OnOk result ((set : List ℕ) → Contains self.new set ↔
            IsAfter went.now came.now self.old (map (λ set. set.items) grown.items) set) }
    {
        let prepared = prepare(
            alloc,
            self.sets.as_slice(),
            &mut self.index,
            went,
            came,
            grown,
        )?;
        let emptied = prepared
            .broken
            .len()
            .saturating_add(prepared.extended.len());
        apply(alloc, &mut self.sets, &mut self.index, prepared)?;
        self.emptied = self.emptied.saturating_add(emptied);
        Ok(())
    }

    /// Gives back the places of sets that have gone, where more than half of all places are such. It
    /// costs all sets then, so over many changes no more than these did. Where memory is wanting, the
    /// places stay.
    pub fn compact(&mut self, alloc: Global) -> Result<(), NoMemory>
        ensures { self.new ≡ self.old }
    {
        if self.emptied <= self.sets.len() / 2 {
            return Ok(());
        }
        self.index = index_of(alloc, self.sets.as_slice())?;
        drop_empty(&mut self.sets);
        self.emptied = 0;
        Ok(())
    }
}
