//! The register of the tracklets of some nights.
ghost use Rattle.std.specs.Prelude.{ℕ, ◌≡◌, ◌↔◌, ℤ, ◌<ℤ◌, List, [], true, false, IfOk, OnErr, length};
ghost use Rattle.std.specs.List.{Contains};
ghost use Rattle.closed_sets.specs.Families.{IsSet};
ghost use Rattle.night_tree.specs.Nights.{NightData};
ghost use Rattle.set_grow.specs.Nights.{LeadsToEach};
ghost use Rattle.tracklet_register.specs.Exchanges.{AreExchanged};
ghost use Rattle.tracklet_register.specs.Registers.{AreAlike, DifferAt, HasNight, IsBefore, IsCutBefore, IsWithout, LeadsToPlaces, is_taken, numbers_of, with_numbers};
ghost use Rattle.tracklet_register.specs.Replacing.{AreDifferent, CanReturn, IsReplaced};

use crate::forgetting::{forget_before, forget_night, numbers_before};
use crate::marking::mark;
use crate::nights::{NightNumbers, numbers_of};
use crate::renewing::in_order;
use crate::replacing::{Exchange, make_room, prepare, put};
use set_grow::Place;
use sky_units::{NoMemory, Tracklet};
use std::alloc::Global;
use std::marker::Model;

/// Lasting numbers of the tracklets of some nights: a tracklet keeps its number as long as its night
/// has it. The number of one that went is given again only after it was released.
#[derive(Drop)]
pub struct TrackletRegister {
    nights: Vec<NightNumbers>,
    table: Vec<Place>,
    taken: Vec<bool>,
}

impl Model for TrackletRegister {
    ghost use Rattle.tracklet_register.specs.Registers.{IsRegister, RegisterData};

    ghost Value = { RegisterData };

    ghost view = { λ r. record { nights = r.nights.items; taken = r.taken.items } };

    ghost invariant = { λ r. IsRegister r.nights.items r.table.items r.taken.items };
}

impl TrackletRegister {
    /// No nights.
    pub fn new(alloc: Global) -> Self
        ensures { result ≡ record { nights = []; taken = [] } }
    {
        TrackletRegister {
            nights: Vec::new(alloc),
            table: Vec::new(alloc),
            taken: Vec::new(alloc),
        }
    }

    /// The numbers of the tracklets of a night, in their order; none of a night that isn't there.
    pub fn numbers(&self, night: i64) -> &[u32]
        ensures { result.now ≡ numbers_of self.now.nights night }
    {
        numbers_of(self.nights.as_slice(), night)
    }

    /// The table that leads from each number to the night and the place of its tracklet. Its entries
    /// of numbers that no tracklet has say nothing.
    pub fn table(&self) -> &[Place]
        ensures leads { LeadsToPlaces result.now self.now.nights }
        ensures nights { (nights : List NightData) →
            LeadsToEach result.now (with_numbers self.now.nights nights) }
    {
        self.table.as_slice()
    }

    /// Replaces the tracklets of a night by others. Those that were there keep their numbers, and the
    /// others get the least free ones. The numbers that went are not free before they are released.
    /// Where memory is wanting, nothing changes; more than 2^32 numbers want memory.
    ///
    /// `before` are the night's tracklets so far; none of a night that isn't there.
    pub fn replace(
        &mut self,
        alloc: Global,
        night: i64,
        before: &[Tracklet],
        after: &[Tracklet],
    ) -> Result<Exchange, NoMemory>
        requires size { length (numbers_of self.old.nights night) ≡ length before.now }
        requires different { AreDifferent after.now }
        ensures replaced { IfOk result (λ exchange. IsReplaced self.old self.new night before.now
            after.now exchange.went.items exchange.came.items) }
        ensures in_order { IfOk result (λ exchange. IsSet exchange.went.items ×
            IsSet exchange.came.items) }
        ensures before { IfOk result (λ exchange.
            exchange.before.items ≡ numbers_of self.old.nights night) }
        ensures back { IfOk result (λ exchange.
            CanReturn self.new night exchange.before.items exchange.came.items) }
        ensures exchanged { IfOk result (λ exchange. (old new : List NightData) →
            DifferAt night before.now after.now old new →
            AreExchanged exchange.went.items exchange.came.items
            (with_numbers self.old.nights old) (with_numbers self.new.nights new)) }
        ensures same { OnErr result (AreAlike self.old self.new) }
        ensures entered { (other : ℤ) → HasNight self.old.nights other →
            HasNight self.new.nights other }
    {
        let numbers = numbers_of(self.nights.as_slice(), night);
        let prepared = prepare(alloc, numbers, before, after, self.taken.as_slice())?;
        make_room(
            alloc,
            &mut self.nights,
            &mut self.table,
            &mut self.taken,
            night,
            prepared.end,
        )?;
        put(&mut self.nights, &mut self.table, night, prepared.numbers);
        mark(&mut self.taken, prepared.exchange.came.as_slice(), true);
        Ok(prepared.exchange)
    }

    /// Gives a night the numbers back that it had before an exchange, and frees those that came by it.
    /// This takes no memory.
    pub fn restore(&mut self, night: i64, exchange: Exchange)
        requires { CanReturn self.old night exchange.before.items exchange.came.items }
        ensures here { numbers_of self.new.nights night ≡ exchange.before.items }
        ensures elsewhere { (other : ℤ) → ¬ (other ≡ night) →
            numbers_of self.new.nights other ≡ numbers_of self.old.nights other }
        ensures came { (number : ℕ) → Contains exchange.came.items number →
            is_taken self.new.taken number ≡ false }
        ensures others { (number : ℕ) → ¬ (Contains exchange.came.items number) →
            is_taken self.new.taken number ≡ is_taken self.old.taken number }
        ensures entered { (other : ℤ) → HasNight self.old.nights other →
            HasNight self.new.nights other }
    {
        put(&mut self.nights, &mut self.table, night, exchange.before);
        mark(&mut self.taken, exchange.came.as_slice(), false);
    }

    /// Frees numbers that no tracklet has any longer. This takes no memory.
    pub fn release(&mut self, went: &[u32])
        requires { (night : ℤ) (number : ℕ) → Contains went.now number →
            ¬ (Contains (numbers_of self.old.nights night) number) }
        ensures nights { self.new.nights ≡ self.old.nights }
        ensures went { (number : ℕ) → Contains went.now number →
            is_taken self.new.taken number ≡ false }
        ensures others { (number : ℕ) → ¬ (Contains went.now number) →
            is_taken self.new.taken number ≡ is_taken self.old.taken number }
    {
        mark(&mut self.taken, went, false);
    }

    /// The numbers of the tracklets of the nights before one, in order.
    pub fn numbers_before(&self, alloc: Global, first: i64) -> Result<Vec<u32>, NoMemory>
        ensures in_order { IfOk result (λ numbers. IsSet numbers.items) }
        ensures exactly { IfOk result (λ numbers. (number : ℕ) →
            Contains numbers.items number ↔ IsBefore self.now.nights first number) }
        ensures apart { IfOk result (λ numbers. (night : ℤ) (number : ℕ) → ¬ (night <ℤ first) →
            Contains numbers.items number → ¬ (Contains (numbers_of self.now.nights night) number)) }
        ensures exchanged { IfOk result (λ numbers. (old new : List NightData) →
            IsCutBefore first old new → AreExchanged numbers.items []
            (with_numbers self.now.nights old) (with_numbers self.now.nights new)) }
    {
        let numbers = numbers_before(alloc, self.nights.as_slice(), first)?;
        Ok(in_order(numbers))
    }

    /// The numbers of the tracklets of a night, in order of the numbers.
    pub fn numbers_of_night(&self, alloc: Global, night: i64) -> Result<Vec<u32>, NoMemory>
        ensures in_order { IfOk result (λ numbers. IsSet numbers.items) }
        ensures exactly { IfOk result (λ numbers. (number : ℕ) → Contains numbers.items number ↔
            Contains (numbers_of self.now.nights night) number) }
        ensures apart { IfOk result (λ numbers. (other : ℤ) (number : ℕ) → ¬ (other ≡ night) →
            Contains numbers.items number → ¬ (Contains (numbers_of self.now.nights other) number)) }
        ensures exchanged { IfOk result (λ numbers. (old new : List NightData) →
            IsWithout night old new → AreExchanged numbers.items []
            (with_numbers self.now.nights old) (with_numbers self.now.nights new)) }
    {
        let numbers = Vec::from_slice(alloc, numbers_of(self.nights.as_slice(), night))?;
        Ok(in_order(numbers))
    }

    /// Forgets a night. Its numbers are not free before they are released. This takes no memory.
    pub fn forget_night(&mut self, night: i64)
        ensures gone { numbers_of self.new.nights night ≡ [] }
        ensures kept { (other : ℤ) → ¬ (other ≡ night) →
            numbers_of self.new.nights other ≡ numbers_of self.old.nights other }
        ensures taken { self.new.taken ≡ self.old.taken }
    {
        forget_night(&mut self.nights, night);
    }

    /// Forgets the nights before one. Their numbers are not free before they are released. This takes
    /// no memory.
    pub fn forget_before(&mut self, first: i64)
        ensures gone { (night : ℤ) → night <ℤ first → numbers_of self.new.nights night ≡ [] }
        ensures kept { (night : ℤ) → ¬ (night <ℤ first) →
            numbers_of self.new.nights night ≡ numbers_of self.old.nights night }
        ensures taken { self.new.taken ≡ self.old.taken }
    {
        forget_before(&mut self.nights, first);
    }
}
