//! The tracklets of several nights exchanged in the register, and given back where that is wanted.
ghost use Rattle.std.specs.Prelude.{ℕ, ◌≡◌, ◌↔◌, ◌++◌, [], ◌∷◌, IfOk, OnErr, OnOk, length, reverse};
ghost use Rattle.std.specs.List.{All, Contains};
ghost use Rattle.closed_sets.specs.Families.{IsSet};
ghost use Rattle.kept_nights.specs.KeptNights.{RiseByNumber};
ghost use Rattle.kept_nights.specs.Renewed.{HaveDifferentNumbers};
ghost use Rattle.tracklet_register.specs.Registers.{AreAlike, RegisterData, numbers_of};
ghost use Rattle.tracklet_register.specs.Replacing.{AreDifferent};
ghost use Rattle.kept_tracks.specs.SeveralNights.{AreNumberedBut, AreReplaced, IsReplacement, all_gone, all_new};
ghost use Rattle.kept_tracks.specs.Stages.{tracklets_of_night};
ghost use Rattle.kept_tracks.specs.Undoing.{CanBeUndone};
ghost use Rattle.kept_tracks.specs.declared.exchanging.Replacement.{Replacement as ReplacementData};

use crate::numbering::tracklets_of_night;
use night_tree::Night;
use sky_units::NoMemory;
use std::alloc::Global;
use tracklet_register::{Exchange, TrackletRegister, in_order};

/// What the tracklets of a night gave up and got when they were replaced.
#[derive(Drop)]
pub struct Replacement {
    /// The night's number.
    pub night: i64,
    pub exchange: Exchange,
}

/// The numbers that went and those that came, both in order.
#[derive(Drop)]
pub struct Change {
    pub went: Vec<u32>,
    pub came: Vec<u32>,
}

/// What was done where the tracklets of several nights were exchanged.
#[derive(Drop)]
pub struct Exchanged {
    pub change: Change,
    /// What takes it back.
    pub done: Vec<Replacement>,
}

/// Exchanges the tracklets of each night that is built anew. `nights` are those before. The numbers
/// that went are not free yet. Where memory is wanting, nothing changes.
pub fn exchange_tracklets(
    register: &mut TrackletRegister,
    alloc: Global,
    nights: &[Night],
    changed: &[Night],
) -> Result<Exchanged, NoMemory>
    requires rising { RiseByNumber nights.now }
    requires numbered { AreNumberedBut nights.now register.old [] }
    requires once { HaveDifferentNumbers changed.now }
    requires different { All (λ night. AreDifferent night.tracklets) changed.now }
    ensures ok { IfOk result (λ exchanged. AreReplaced nights.now changed.now
        register.old register.new exchanged.change.went.items exchanged.change.came.items) }
    ensures in_order { IfOk result (λ exchanged.
        IsSet exchanged.change.went.items × IsSet exchanged.change.came.items) }
    ensures back { IfOk result (λ exchanged.
        CanBeUndone register.old (reverse exchanged.done.items) register.new) }
    ensures same { OnErr result (AreAlike register.old register.new) }
{
    let mut done = Vec::new(alloc);
    match exchange_noted(register, alloc, nights, changed, &mut done) {
        Ok(change) => Ok(Exchanged { change, done }),
        Err(error) => {
            restore_all(register, done);
            Err(error)
        }
    }
}

/// The same, where what is done is noted, also where memory is wanting.
fn exchange_noted(
    register: &mut TrackletRegister,
    alloc: Global,
    nights: &[Night],
    changed: &[Night],
    done: &mut Vec<Replacement>,
) -> Result<Change, NoMemory>
    requires rising { RiseByNumber nights.now }
    requires numbered { AreNumberedBut nights.now register.old [] }
    requires once { HaveDifferentNumbers changed.now }
    requires different { All (λ night. AreDifferent night.tracklets) changed.now }
    requires none { done.old.items ≡ [] }
    ensures ok { IfOk result (λ change. AreReplaced nights.now changed.now
        register.old register.new change.went.items change.came.items) }
    ensures in_order { IfOk result (λ change.
        IsSet change.went.items × IsSet change.came.items) }
    ensures undone { CanBeUndone register.old (reverse done.new.items) register.new }
{
    replace_all(register, alloc, nights, changed, done)?;
    change_of(alloc, done.as_slice())
}

/// Replaces the tracklets of each night that is built anew, from the last to the first. What is done
/// is noted, also where memory is wanting later.
fn replace_all(
    register: &mut TrackletRegister,
    alloc: Global,
    nights: &[Night],
    changed: &[Night],
    done: &mut Vec<Replacement>,
) -> Result<(), NoMemory>
    requires rising { RiseByNumber nights.now }
    requires numbered { AreNumberedBut nights.now register.old [] }
    requires once { HaveDifferentNumbers changed.now }
    requires different { All (λ night. AreDifferent night.tracklets) changed.now }
    requires none { done.old.items ≡ [] }
    ensures undone { CanBeUndone register.old (reverse done.new.items) register.new }
    ensures ok { OnOk result (AreReplaced nights.now changed.now register.old register.new
        (all_gone done.new.items) (all_new done.new.items)) }
{
    let mut left = changed.len();
    while left > 0 {
        left -= 1;
        replace_one(register, alloc, nights, &changed[left], done)?;
    }
    Ok(())
}

/// Replaces the tracklets of a night, and notes it.
fn replace_one(
    register: &mut TrackletRegister,
    alloc: Global,
    nights: &[Night],
    night: &Night,
    done: &mut Vec<Replacement>,
) -> Result<(), NoMemory>
    requires size { length (numbers_of register.old.nights night.now.number) ≡
        length (tracklets_of_night nights.now night.now.number) }
    requires different { AreDifferent night.now.tracklets }
    ensures undone { (first : RegisterData) →
        CanBeUndone first (reverse done.old.items) register.old →
        CanBeUndone first (reverse done.new.items) register.new }
    ensures ok { OnOk result ((one : ReplacementData) ×
        (done.new.items ≡ done.old.items ++ one ∷ []) ×
        IsReplacement nights.now night.now register.old register.new one) }
{
    // The room is made first: what is replaced must be noted.
    done.reserve(1)?;
    let number = night.number();
    let before = tracklets_of_night(nights, number);
    let exchange = register.replace(alloc, number, before, night.tracklets())?;
    let _ = done.push(Replacement {
        night: number,
        exchange,
    });
    Ok(())
}

/// Undoes replacements, the latest first. This takes no memory.
pub fn restore_all(register: &mut TrackletRegister, done: Vec<Replacement>)
    requires { (first : RegisterData) ×
        CanBeUndone first (reverse done.items) register.old }
    ensures { (first : RegisterData) → CanBeUndone first (reverse done.items) register.old →
        AreAlike first register.new }
{
    let mut rest = done;
    while let Some(one) = rest.pop() {
        register.restore(one.night, one.exchange);
    }
}

/// All numbers that went and came by some replacements.
fn change_of(alloc: Global, done: &[Replacement]) -> Result<Change, NoMemory>
    ensures in_order { IfOk result (λ change. IsSet change.went.items × IsSet change.came.items) }
    ensures went { IfOk result (λ change. (number : ℕ) →
        Contains change.went.items number ↔ Contains (all_gone done.now) number) }
    ensures came { IfOk result (λ change. (number : ℕ) →
        Contains change.came.items number ↔ Contains (all_new done.now) number) }
{
    let mut went = Vec::new(alloc);
    let mut came = Vec::new(alloc);
    for one in done {
        went.extend_from_slice(one.exchange.went.as_slice())?;
        came.extend_from_slice(one.exchange.came.as_slice())?;
    }
    Ok(Change {
        went: in_order(went),
        came: in_order(came),
    })
}
