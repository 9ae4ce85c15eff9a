//! The register of detections by number.
ghost use Rattle.std.specs.Prelude.{◌≡◌, ◌≢◌, ℕ, ◌+◌, ◌-◌, ◌^◌, ◌<◌, ◌≤◌, [], None, Some, IsSome, IfOk, OnOk, OnErr, length, option_copied};
ghost use Rattle.std.specs.BinaryHeap.{heap_items, heap_capacity};
ghost use Rattle.std.specs.Vec.{vec_len, vec_capacity};
ghost use Rattle.miti_text.specs.Observation.{Observation};
ghost use Rattle.number_register.specs.Numbering.{with_at, put_at, IsLeastFree, slot, count_held, AreFree};

use crate::id_numbers::IdNumbers;
use miti_text::Detection;
use sky_units::NoMemory;
use std::alloc::Global;
use std::cmp::Reverse;
use std::collections::BinaryHeap;
use std::marker::Model;

/// The held detections by number, with the number of each id and the free numbers.
#[derive(Drop)]
pub struct Register {
    slots: Vec<Option<Detection>>,
    ids: IdNumbers,
    free: BinaryHeap<Reverse<u32>>,
}

impl Model for Register {
    ghost use Rattle.std.specs.Prelude.{◌≤◌, List, Option};
    ghost use Rattle.miti_text.specs.Observation.{Observation};
    ghost use Rattle.number_register.specs.IdNumbers.{AreNumbers};
    ghost use Rattle.number_register.specs.Numbering.{AreFree};
    ghost use Rattle.std.specs.BinaryHeap.{heap_items, heap_capacity};
    ghost use Rattle.std.specs.Vec.{vec_len};

    ghost Value = { List (Option Observation) };

    ghost view = { λ r. r.slots.items };

    ghost invariant = { λ r. AreNumbers r.slots.items r.ids.by_hash.entries r.ids.by_id.entries ×
        AreFree r.slots.items (heap_items r.free) × (vec_len r.slots ≤ heap_capacity r.free) };
}

impl Register {
    /// No detections. This takes no memory.
    pub fn new(alloc: Global) -> Register
        ensures { result ≡ [] }
    {
        Register {
            slots: Vec::new(alloc),
            ids: IdNumbers::new(alloc),
            free: BinaryHeap::new(alloc),
        }
    }

    /// The detection of this number, if one has it.
    pub fn get(&self, number: u32) -> Option<&Detection>
        ensures { option_copied result ≡ slot self.now number }
    {
        self.slots.as_slice().get(number as usize)?.as_ref()
    }

    /// How many detections are held.
    pub fn count(&self) -> u32
        requires { count_held self.now < 2 ^ 32 }
        ensures { result ≡ count_held self.now }
    {
        (self.slots.len() - self.free.len()) as u32
    }

    /// The number of this id, if a held detection has it.
    pub fn find(&self, id: &[u8]) -> Option<u32>
        ensures none { result ≡ None → (n : ℕ) (d : Observation) → slot self.now n ≡ Some d →
            d.id ≢ id.now }
        ensures some { (n : ℕ) → result ≡ Some n →
            (d : Observation) × (slot self.now n ≡ Some d) × (d.id ≡ id.now) }
    {
        self.ids.find(self.slots.as_slice(), id)
    }

    /// Makes room for the ids of so many detections more.
    pub(crate) fn reserve(&mut self, more: usize) -> Result<(), NoMemory>
        ensures { self.new ≡ self.old }
    {
        self.ids.reserve(more)
    }

    /// Gives the detection the least number that no held one has. Its id must not be held.
    pub fn take_in(&mut self, alloc: Global, detection: Detection) -> Result<u32, NoMemory>
        requires fresh { (n : ℕ) (d : Observation) → slot self.old n ≡ Some d →
            d.id ≢ detection.id }
        requires few { count_held self.old + 1 < 2 ^ 32 }
        ensures ok { IfOk result (λ n. IsLeastFree (slot self.old) n ×
            (slot self.new ≡ with_at (slot self.old) n (Some detection)) ×
            (count_held self.new ≡ count_held self.old + 1)) }
        ensures err { OnErr result (self.new ≡ self.old) }
    {
        make_room(&mut self.slots, &mut self.free)?;
        let number = least_free(&self.free, self.slots.as_slice());
        self.ids.enter(alloc, detection.id.bytes(), number)?;
        put(&mut self.slots, &mut self.free, number, detection);
        Ok(number)
    }

    /// Lets go of the detection of this number. This takes no memory.
    pub fn let_go(&mut self, number: u32)
        requires held { IsSome (slot self.old number) }
        ensures at { slot self.new ≡ with_at (slot self.old) number None }
        ensures count { count_held self.new + 1 ≡ count_held self.old }
    {
        if let Some(detection) = self.slots[number as usize].take() {
            self.ids.strike(detection.id.bytes(), number);
            // Dropped by a call, so that the words' memory makes no cases in this proof.
            drop(detection);
            let _ = self.free.push(Reverse(number));
        }
    }
}

/// Makes room for one detection more, and for the number of each slot among the free ones. Where a
/// number is free, its slot has the room.
fn make_room(
    slots: &mut Vec<Option<Detection>>,
    free: &mut BinaryHeap<Reverse<u32>>,
) -> Result<(), NoMemory>
    ensures items { slots.new.items ≡ slots.old.items }
    ensures same { heap_items free.new ≡ heap_items free.old }
    ensures room { OnOk result (heap_items free.old ≡ [] →
        vec_len slots.new < vec_capacity slots.new) }
    ensures free_room { OnOk result (vec_capacity slots.new ≤ heap_capacity free.new) }
    ensures kept { heap_capacity free.old ≤ heap_capacity free.new }
{
    if free.is_empty() {
        slots.reserve(1)?;
    }
    reserve_for(free, slots.capacity())
}

/// Makes room for as many numbers as there are slots.
fn reserve_for(free: &mut BinaryHeap<Reverse<u32>>, slots: usize) -> Result<(), NoMemory>
    ensures same { heap_items free.new ≡ heap_items free.old }
    ensures room { OnOk result (slots ≤ heap_capacity free.new) }
    ensures kept { heap_capacity free.old ≤ heap_capacity free.new }
{
    if free.capacity() < slots {
        free.reserve(slots - free.len())?;
    }
    Ok(())
}

/// The least free number: the least of the heap, or the number of the next new slot.
fn least_free(free: &BinaryHeap<Reverse<u32>>, slots: &[Option<Detection>]) -> u32
    requires free { AreFree slots.now (heap_items free.now) }
    requires few { count_held slots.now + 1 < 2 ^ 32 }
    ensures least { IsLeastFree (slot slots.now) result }
    ensures within { result ≤ length slots.now }
{
    match free.peek() {
        Some(least) => least.0,
        None => slots.len() as u32,
    }
}

/// Puts the detection into the slot of the least free number, which leaves the heap, or, where none
/// is in the heap, into a new slot behind the others.
fn put(
    slots: &mut Vec<Option<Detection>>,
    free: &mut BinaryHeap<Reverse<u32>>,
    number: u32,
    detection: Detection,
)
    requires free { AreFree slots.old.items (heap_items free.old) }
    requires least { IsLeastFree (slot slots.old.items) number }
    requires within { number ≤ vec_len slots.old }
    requires room { heap_items free.old ≡ [] → vec_len slots.old < vec_capacity slots.old }
    ensures items { slots.new.items ≡ put_at slots.old.items number (Some detection) }
    ensures free { AreFree slots.new.items (heap_items free.new) }
    ensures len { vec_len slots.new ≤ vec_capacity slots.old }
    ensures capacity { heap_capacity free.new ≡ heap_capacity free.old }
{
    match free.pop() {
        Some(_) => slots[number as usize] = Some(detection),
        None => {
            let _ = slots.push(Some(detection));
        }
    }
}
