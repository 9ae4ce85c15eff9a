//! The number of each id, found by a hash of its bytes.
ghost use Rattle.std.specs.Prelude.{◌≡◌, ◌≢◌, ℕ, [], true, false, None, Some, OnOk, OnErr, MatchBool};
ghost use Rattle.miti_text.specs.Observation.{Observation};
ghost use Rattle.number_register.specs.Numbering.{slot};
ghost use Rattle.number_register.specs.IdNumbers.{id_hash, hash_step, under_hash, under_id, AreNumbers, StandAlike, Enters, Strikes};

use indexmap::IndexMap;
use miti_text::Detection;
use sky_units::NoMemory;
use std::alloc::Global;

/// What the hash of the bytes before is multiplied by.
const MULTIPLIER: u64 = 1_099_511_628_211;

/// The number of each held id, by a hash of its bytes. A map of the ids would hold each a second
/// time; here it has only those whose hash is another's too.
#[derive(Drop)]
pub(crate) struct IdNumbers {
    pub(crate) by_hash: IndexMap<u64, u32>,
    pub(crate) by_id: IndexMap<Vec<u8>, u32>,
}

impl IdNumbers {
    /// No ids. This takes no memory.
    pub(crate) fn new(alloc: Global) -> IdNumbers
        ensures hashes { result.by_hash.entries ≡ [] }
        ensures ids { result.by_id.entries ≡ [] }
    {
        IdNumbers {
            by_hash: IndexMap::new(alloc),
            by_id: IndexMap::new(alloc),
        }
    }

    /// The number of this id, if a held detection has it.
    pub(crate) fn find(&self, slots: &[Option<Detection>], id: &[u8]) -> Option<u32>
        requires { AreNumbers slots.now self.now.by_hash.entries self.now.by_id.entries }
        ensures none { result ≡ None → (n : ℕ) (d : Observation) → slot slots.now n ≡ Some d →
            d.id ≢ id.now }
        ensures some { (n : ℕ) → result ≡ Some n →
            (d : Observation) × (slot slots.now n ≡ Some d) × (d.id ≡ id.now) }
    {
        if let Some(number) = number_by_hash(&self.by_hash, id) {
            if is_id_of(slots, number, id) {
                return Some(number);
            }
        }
        number_under(&self.by_id, id)
    }

    /// Makes room for so many ids more, so that the map of hashes grows once.
    pub(crate) fn reserve(&mut self, more: usize) -> Result<(), NoMemory>
        ensures hashes { self.new.by_hash.entries ≡ self.old.by_hash.entries }
        ensures ids { self.new.by_id.entries ≡ self.old.by_id.entries }
    {
        self.by_hash.reserve(more)
    }

    /// Enters the number of an id under its hash, or, where another number stands there, under a copy
    /// of the id.
    pub(crate) fn enter(&mut self, alloc: Global, id: &[u8], number: u32) -> Result<(), NoMemory>
        ensures ok { OnOk result (Enters self.old.by_hash.entries self.old.by_id.entries
            self.new.by_hash.entries self.new.by_id.entries id.now number) }
        ensures err { OnErr result (StandAlike self.old.by_hash.entries self.new.by_hash.entries ×
            (self.new.by_id.entries ≡ self.old.by_id.entries)) }
    {
        let hash = hash_of(id);
        match self.by_hash.insert(hash, number)? {
            None => Ok(()),
            Some(other) => {
                let _ = self.by_hash.insert(hash, other);
                self.by_id.insert(Vec::from_slice(alloc, id)?, number)?;
                Ok(())
            }
        }
    }

    /// Strikes out the number of an id. This takes no memory.
    pub(crate) fn strike(&mut self, id: &[u8], number: u32)
        ensures { Strikes self.old.by_hash.entries self.old.by_id.entries self.new.by_hash.entries
            self.new.by_id.entries id.now number }
    {
        let hash = hash_of(id);
        if stands_under(&self.by_hash, hash, number) {
            self.by_hash.swap_remove(&hash);
        } else {
            self.by_id.swap_remove(id);
        }
    }
}

/// The number that stands under the hash of an id. Where no number does, nothing is hashed.
fn number_by_hash(by_hash: &IndexMap<u64, u32>, id: &[u8]) -> Option<u32>
    ensures { result ≡ under_hash by_hash.now.entries (id_hash id.now) }
{
    if by_hash.is_empty() {
        return None;
    }
    by_hash.get(&hash_of(id)).copied()
}

/// The number that stands under an id. Mostly no id is there, and then none is compared.
fn number_under(by_id: &IndexMap<Vec<u8>, u32>, id: &[u8]) -> Option<u32>
    ensures { result ≡ under_id by_id.now.entries id.now }
{
    if by_id.is_empty() {
        return None;
    }
    by_id.get(id).copied()
}

/// Whether the number stands under the hash.
fn stands_under(by_hash: &IndexMap<u64, u32>, hash: u64, number: u32) -> bool
    ensures { MatchBool result (under_hash by_hash.now.entries hash ≡ Some number)
        (under_hash by_hash.now.entries hash ≢ Some number) }
{
    by_hash.get(&hash).copied() == Some(number)
}

/// Whether the held detection of the number has this id.
fn is_id_of(slots: &[Option<Detection>], number: u32, id: &[u8]) -> bool
    ensures yes { result ≡ true →
        (d : Observation) × (slot slots.now number ≡ Some d) × (d.id ≡ id.now) }
    ensures no { result ≡ false → (d : Observation) → slot slots.now number ≡ Some d →
        d.id ≢ id.now }
{
    match slots.get(number as usize) {
        Some(Some(detection)) => detection.id.bytes() == id,
        _ => false,
    }
}

/// A hash of an id's bytes.
fn hash_of(id: &[u8]) -> u64
    ensures { result ≡ id_hash id.now }
{
    let mut hash = 0;
    for byte in id {
        hash = hash_with(hash, *byte);
    }
    hash
}

/// The hash of the bytes before and of one more.
fn hash_with(hash: u64, byte: u8) -> u64
    ensures { result ≡ hash_step hash byte }
{
    hash.wrapping_mul(MULTIPLIER).wrapping_add(u64::from(byte))
}
