//! Tracklets of a night that is built anew, and the numbers that they keep, lose and get.
ghost use Rattle.std.specs.Prelude.{◌≡◌, IsTrue, length};
ghost use Rattle.std.specs.List.{Contains};
ghost use Rattle.tracklet_register.specs.Registers.{numbers_of};
ghost use Rattle.tracklet_register.specs.Replacing.{AreDifferent};

use crate::matching::are_equal;
use crate::{
    TrackletRegister, exchange_changes_fits, exchanges_follow, fits_are_of_finitely_many,
    numbered_nights, numbered_nights_are_in_place, numbered_nights_are_numbered,
};
use sky_units::{NoMemory, Spot, Tracklet};
use std::alloc::Global;

/// The tracklets with spots of these labels.
fn tracklets(alloc: Global, rows: &[&[u32]]) -> Result<Vec<Tracklet>, NoMemory> {
    let mut tracklets = Vec::new(alloc);
    for row in rows {
        if let Some(tracklet) = Tracklet::from_spots(spots(alloc, row)?) {
            tracklets.push(tracklet)?;
        }
    }
    Ok(tracklets)
}

/// Spots of these labels, each of an epoch of its own.
fn spots(alloc: Global, labels: &[u32]) -> Result<Vec<Spot>, NoMemory> {
    let mut spots = Vec::new(alloc);
    for label in labels {
        spots.push(Spot {
            num: *label,
            epoch: 59_000_250_000 + i64::from(*label),
            ra: 10_000_000,
            dec: 5_000_000,
        })?;
    }
    Ok(spots)
}

/// Whether no two tracklets are the same.
fn are_different(tracklets: &[Tracklet]) -> bool
    ensures { IsTrue result → AreDifferent tracklets.now }
{
    for place in 0..tracklets.len() {
        if !is_new(&tracklets[..place], &tracklets[place]) {
            return false;
        }
    }
    true
}

/// Whether a tracklet is none of some.
fn is_new(tracklets: &[Tracklet], tracklet: &Tracklet) -> bool
    ensures { IsTrue result → ¬ (Contains tracklets.now tracklet.now) }
{
    for other in tracklets {
        if are_equal(other.spots(), tracklet.spots()) {
            return false;
        }
    }
    true
}

/// What went and came where a night's tracklets are replaced, and its numbers then. What went is
/// released where that is wanted, and all is taken back where that is.
fn replaced(
    alloc: Global,
    register: &mut TrackletRegister,
    before: &[Tracklet],
    after: &[Tracklet],
    then: &str,
) -> Result<String, NoMemory> {
    if register.numbers(59_000).len() != before.len() {
        return format!(in alloc; "other tracklets");
    }
    if !are_different(after) {
        return format!(in alloc; "not different");
    }
    let exchange = register.replace(alloc, 59_000, before, after)?;
    let went = exchange.went.as_slice();
    let came = exchange.came.as_slice();
    let numbers = register.numbers(59_000);
    let text = format!(in alloc; "{went:?} {came:?} {numbers:?}")?;
    if then == "release" {
        register.release(went);
    }
    if then == "restore" {
        register.restore(59_000, exchange);
    }
    Ok(text)
}

/// The numbers of the nights before one, which are forgotten and released.
fn forgotten(
    alloc: Global,
    register: &mut TrackletRegister,
    first: i64,
) -> Result<String, NoMemory> {
    let numbers = register.numbers_before(alloc, first)?;
    register.forget_before(first);
    register.release(numbers.as_slice());
    format!(in alloc; "{numbers:?}")
}

/// The numbers of a night, which is forgotten, and its numbers released.
fn let_go(alloc: Global, register: &mut TrackletRegister, night: i64) -> Result<String, NoMemory> {
    let numbers = register.numbers_of_night(alloc, night)?;
    register.forget_night(night);
    register.release(numbers.as_slice());
    format!(in alloc; "{numbers:?}")
}

/// What one replacement after another does: its tracklets, what is done then, and its text.
#[derive(Drop)]
struct Step<'a> {
    rows: &'a [&'a [u32]],
    then: &'a str,
    text: &'a str,
}

#[test]
fn numbers_last(rt: HostRuntime) -> Result<(), NoMemory> {
    let alloc = rt.alloc();
    let steps = [
        Step {
            rows: &[&[1, 2], &[1, 4], &[3, 5]],
            then: "release",
            text: "[] [0, 1, 2] [0, 1, 2]",
        },
        Step {
            // One joins before the others, and one goes.
            rows: &[&[1, 3], &[1, 4], &[3, 5]],
            then: "keep",
            text: "[0] [3] [3, 1, 2]",
        },
        Step {
            // The number that went isn't free yet.
            rows: &[&[1, 3], &[3, 5], &[4, 6]],
            then: "release",
            text: "[1] [4] [3, 2, 4]",
        },
        Step {
            // The least free number, but all is taken back.
            rows: &[&[2, 7]],
            then: "restore",
            text: "[2, 3, 4] [1] [1]",
        },
    ];
    let mut register = TrackletRegister::new(alloc);
    let mut before = Vec::new(alloc);
    for step in &steps {
        let after = tracklets(alloc, step.rows)?;
        let text = replaced(
            alloc,
            &mut register,
            before.as_slice(),
            after.as_slice(),
            step.then,
        )?;
        assert_eq!(rt; text.as_str(), step.text);
        before = after;
    }
    Ok(())
}

#[test]
fn nights_go(rt: HostRuntime) -> Result<(), NoMemory> {
    let alloc = rt.alloc();
    let mut register = TrackletRegister::new(alloc);
    let rows: [&[u32]; 2] = [&[1, 2], &[3, 4]];
    let night = tracklets(alloc, &rows)?;
    replaced(alloc, &mut register, &[], night.as_slice(), "keep")?;
    let none = forgotten(alloc, &mut register, 59_000)?;
    assert_eq!(rt; none.as_str(), "[]");
    assert_eq!(rt; register.numbers(59_000).len(), 2);
    let all = forgotten(alloc, &mut register, 59_001)?;
    assert_eq!(rt; all.as_str(), "[0, 1]");
    assert_eq!(rt; register.numbers(59_000).len(), 0);
    assert_eq!(rt; register.table().len(), 2);
    Ok(())
}

#[test]
fn a_night_goes(rt: HostRuntime) -> Result<(), NoMemory> {
    let alloc = rt.alloc();
    let mut register = TrackletRegister::new(alloc);
    let rows: [&[u32]; 2] = [&[1, 2], &[3, 4]];
    let night = tracklets(alloc, &rows)?;
    replaced(alloc, &mut register, &[], night.as_slice(), "keep")?;
    let none = let_go(alloc, &mut register, 59_001)?;
    assert_eq!(rt; none.as_str(), "[]");
    assert_eq!(rt; register.numbers(59_000).len(), 2);
    let all = let_go(alloc, &mut register, 59_000)?;
    assert_eq!(rt; all.as_str(), "[0, 1]");
    assert_eq!(rt; register.numbers(59_000).len(), 0);
    Ok(())
}

#[test]
fn no_nights(rt: HostRuntime) -> Result<(), NoMemory> {
    let register = TrackletRegister::new(rt.alloc());
    let nights = numbered_nights(rt.alloc(), &register, &[])?;
    assert_eq!(rt; nights.len(), 0);
    Ok(())
}

#[test]
fn laws_hold() {
    exchange_changes_fits();
    exchanges_follow();
    fits_are_of_finitely_many();
    numbered_nights_are_in_place();
    numbered_nights_are_numbered();
}
