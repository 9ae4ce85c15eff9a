//! The nights with those that are built anew, and with the numbers of their tracklets.
ghost use Rattle.std.specs.Prelude.{◌≡◌, ◌++◌, IfOk, OnOk, map};
ghost use Rattle.std.specs.Int.Signed.{lt_z};
ghost use Rattle.std.specs.List.{filter};
ghost use Rattle.tracklet_register.specs.Registers.{HasNumbersOf, with_numbers};
ghost use Rattle.kept_nights.specs.KeptNights.{with_night};
ghost use Rattle.kept_nights.specs.Renewed.{with_nights};
ghost use Rattle.kept_tracks.specs.Stages.{tracklets_of_night};

use kept_nights::night_of_number;
use night_tree::Night;
use set_grow::NumberedNight;
use sky_units::{NoMemory, Tracklet};
use std::alloc::Global;
use tracklet_register::TrackletRegister;

/// The tracklets of the night of a number, none where it isn't there.
pub fn tracklets_of_night(nights: &[Night], number: i64) -> &[Tracklet]
    ensures { result.now ≡ tracklets_of_night nights.now number }
{
    match night_of_number(nights, number) {
        Some(night) => night.tracklets(),
        None => &[],
    }
}

/// Nights with the numbers that the register has for their tracklets.
pub fn numbered<'a>(
    alloc: Global,
    register: &'a TrackletRegister,
    nights: &[&'a Night],
) -> Result<Vec<NumberedNight<'a>>, NoMemory>
    requires { HasNumbersOf register.now.nights (map (λ night. night.now) nights.now) }
    ensures { IfOk result (λ numbered. numbered.items ≡
        with_numbers register.now.nights (map (λ night. night.now) nights.now)) }
{
    let mut numbered = Vec::with_capacity(alloc, nights.len())?;
    for night in nights {
        numbered.push(NumberedNight::of(night, register.numbers(night.number())))?;
    }
    Ok(numbered)
}

/// The nights with those that are built anew, each in place of that of its number. All are lent.
pub fn lent_with<'a>(
    alloc: Global,
    nights: &'a [Night],
    changed: &'a [Night],
) -> Result<Vec<&'a Night>, NoMemory>
    ensures { IfOk result (λ lent. map (λ night. night.now) lent.items ≡
        with_nights changed.now nights.now) }
{
    let mut lent = lent_all(alloc, nights)?;
    let mut left = changed.len();
    while left > 0 {
        left -= 1;
        lent = lent_with_one(alloc, lent.as_slice(), &changed[left])?;
    }
    Ok(lent)
}

/// The nights, lent.
fn lent_all<'a>(alloc: Global, nights: &'a [Night]) -> Result<Vec<&'a Night>, NoMemory>
    ensures { IfOk result (λ lent. map (λ night. night.now) lent.items ≡ nights.now) }
{
    let mut lent = Vec::new(alloc);
    for night in nights {
        lent.push(night)?;
    }
    Ok(lent)
}

/// The nights with one in place of that of its number.
fn lent_with_one<'a>(
    alloc: Global,
    nights: &[&'a Night],
    night: &'a Night,
) -> Result<Vec<&'a Night>, NoMemory>
    ensures { IfOk result (λ lent. map (λ night. night.now) lent.items ≡
        with_night night.now (map (λ night. night.now) nights.now)) }
{
    let mut lent = Vec::new(alloc);
    push_before(&mut lent, nights, night.number())?;
    lent.push(night)?;
    push_behind(&mut lent, nights, night.number())?;
    Ok(lent)
}

/// Adds the nights before one.
fn push_before<'a>(
    lent: &mut Vec<&'a Night>,
    nights: &[&'a Night],
    number: i64,
) -> Result<(), NoMemory>
    ensures { OnOk result (map (λ night. night.now) lent.new.items ≡
        map (λ night. night.now) lent.old.items ++
        filter (λ kept. lt_z kept.number number) (map (λ night. night.now) nights.now)) }
{
    for kept in nights {
        if kept.number() < number {
            lent.push(*kept)?;
        }
    }
    Ok(())
}

/// Adds the nights behind one.
fn push_behind<'a>(
    lent: &mut Vec<&'a Night>,
    nights: &[&'a Night],
    number: i64,
) -> Result<(), NoMemory>
    ensures { OnOk result (map (λ night. night.now) lent.new.items ≡
        map (λ night. night.now) lent.old.items ++
        filter (λ kept. lt_z number kept.number) (map (λ night. night.now) nights.now)) }
{
    for kept in nights {
        if number < kept.number() {
            lent.push(*kept)?;
        }
    }
    Ok(())
}
