//! What the detections of asked ids are: a listed track, a part of one, or why neither.
ghost use Rattle.std.specs.Prelude.{◌≡◌, ◌≢◌, ◌<◌, ◌^◌, ◌+◌, ◌++◌, ◌∷◌, [], nat_eq, not, ℕ, None, Some, Ok, Err, List, IfOk, IfErr, OnOk, length, map};
ghost use Rattle.std.specs.Cmp.Lexicographic.{pointwise};
ghost use Rattle.std.specs.List.{filter, list_any};
ghost use Rattle.std.specs.Option.{option_map};
ghost use Rattle.exposure_log.specs.Held.{spots_of_night};
ghost use Rattle.exposure_log.specs.Orderly.{IsOrderly};
ghost use Rattle.kept_nights.specs.KeptNights.{nights_of};
ghost use Rattle.kept_tracks.specs.KeptFor.{AreKeptFor};
ghost use Rattle.sky_units.specs.Tracks.{numbers_of as set_numbers};
ghost use Rattle.sky_units.specs.declared.ask_errors.AskError.TheVariants as errors;
ghost use Rattle.window_incr.specs.Answers.{id_of_number};
ghost use Rattle.window_incr.specs.Asked.{IsAsked, IsAskedSpread, IsAskedTrack, are_among as among_others, are_untracked, first_repeated, first_unknown, has_number, is_among, is_part as is_proper_part, labels, misfit as misfit_of, number_around as number_of_first_around, number_of_track as number_of_same, place_of as first_place_of, placed_spot};
ghost use Rattle.window_incr.specs.Asking.{AreAsked, AreNumbersOf, IsFound, IsTrackOfSpots, IsTrackedSet, IsUnknown, one_if_some};
ghost use Rattle.window_incr.specs.LinkerState.{LinkerState};
ghost use Rattle.window_incr.specs.Soundness.{IsSoundState};

use crate::listing::listed;
use exposure_log::ExposureLog;
use kept_tracks::KeptTracks;
use night_tree::Night;
use refusal_cert::refuse;
use sky_units::{
    AskError, Asked, Axis, Cert, NoMemory, Settings, Spot, TrackSet, Tracklet, Word, spread_fault,
};
use std::alloc::Global;

/// The asked spots, in order of epoch, where those of each night are one of its tracklets.
#[derive(Drop)]
struct AskedSpots {
    /// The number of nights that have some.
    nights: usize,
    spots: Vec<Spot>,
}

/// What is found of the asked spots night by night.
#[derive(Drop)]
enum Found {
    /// Those of this night, the least such, aren't one of its tracklets.
    Untracked(i64),
    /// Those of each night are.
    Tracked(AskedSpots),
}

/// What the detections of some ids are (the definition `IsAsked`): the first of its cases that holds.
pub(crate) fn asked(
    alloc: Global,
    log: &ExposureLog,
    nights: &[Night],
    kept: &KeptTracks,
    settings: &Settings,
    ids: &[Word],
) -> Result<Asked, AskError>
    requires few { length ids.now < 2 ^ 32 }
    requires sound { IsSoundState (record { settings = settings.now; log = log.now }) }
    requires kept { nights.now ≡ nights_of (record { settings = settings.now; log = log.now }) }
    requires sets { AreKeptFor settings.now nights.now kept.now }
    ensures { result ≢ Err errors.NoMemory →
        IsAsked (record { settings = settings.now; log = log.now }) ids.now result }
{
    let numbers = numbers_of(alloc, log, ids)?;
    if let Some(place) = first_repeat(ids) {
        return Err(AskError::Twice(place));
    }
    match by_night(alloc, log, nights, numbers.as_slice())? {
        Found::Untracked(night) => Ok(Asked::NotTracklet(night)),
        Found::Tracked(found) if found.nights < 3 => Ok(Asked::FewNights(found.nights as u32)),
        Found::Tracked(found) => {
            Ok(spread(
                alloc,
                log,
                nights,
                kept,
                settings,
                ids,
                found.spots.as_slice(),
            )?)
        }
    }
}

/// The number of the detection of each id, or the first place whose id isn't held.
fn numbers_of(alloc: Global, log: &ExposureLog, ids: &[Word]) -> Result<Vec<u32>, AskError>
    requires few { length ids.now < 2 ^ 32 }
    requires orderly { IsOrderly log.now }
    ensures ok { IfOk result (λ numbers. (first_unknown log.now ids.now ≡ None) ×
        AreNumbersOf log.now ids.now numbers.items) }
    ensures err { IfErr result (λ error. error ≢ errors.NoMemory →
        IsUnknown log.now ids.now error) }
{
    let mut numbers = Vec::with_capacity(alloc, ids.len())?;
    for place in 0..ids.len() {
        match log.find(ids[place].bytes()) {
            Some(number) => add_number(&mut numbers, number)?,
            None => return Err(AskError::Unknown(place as u32)),
        }
    }
    Ok(numbers)
}

/// Adds a number.
fn add_number(numbers: &mut Vec<u32>, number: u32) -> Result<(), NoMemory>
    ensures { OnOk result (numbers.new.items ≡ numbers.old.items ++ number ∷ []) }
{
    numbers.push(number)?;
    Ok(())
}

/// The first place whose id equals an earlier one.
fn first_repeat(ids: &[Word]) -> Option<u32>
    requires few { length ids.now < 2 ^ 32 }
    ensures { result ≡ first_repeated ids.now }
{
    for place in 0..ids.len() {
        if has_id(&ids[..place], &ids[place]) {
            return Some(place as u32);
        }
    }
    None
}

/// Whether an id is one of some ids.
fn has_id(ids: &[Word], id: &Word) -> bool
    ensures { result ≡ is_among ids.now id.now }
{
    ids.iter().any(|other| id == other)
}

/// The asked spots night by night. The numbers are those of the asked ids.
fn by_night(
    alloc: Global,
    log: &ExposureLog,
    nights: &[Night],
    numbers: &[u32],
) -> Result<Found, NoMemory>
    ensures { (s : LinkerState) → (ids : List (List ℕ)) →
        AreAsked log.now nights.now numbers.now s ids → IfOk result (IsFound s ids) }
{
    let mut found = AskedSpots {
        nights: 0,
        spots: Vec::new(alloc),
    };
    for night in nights {
        let spots = asked_spots(log, night.number(), numbers)?;
        if !is_tracked(night.tracklets(), spots.as_slice()) {
            return Ok(Found::Untracked(night.number()));
        }
        add_night(&mut found, spots.as_slice())?;
    }
    Ok(Found::Tracked(found))
}

/// Adds the asked spots of a night.
fn add_night(found: &mut AskedSpots, spots: &[Spot]) -> Result<(), NoMemory>
    requires room { found.old.nights + 1 < 2 ^ 64 }
    ensures nights { OnOk result (found.new.nights ≡ found.old.nights + one_if_some spots.now) }
    ensures spots { OnOk result (found.new.spots.items ≡ found.old.spots.items ++ spots.now) }
{
    if !spots.is_empty() {
        found.nights += 1;
    }
    found.spots.extend_from_slice(spots)?;
    Ok(())
}

/// The spots of a night whose numbers are among some, in canonical order.
fn asked_spots(log: &ExposureLog, night: i64, numbers: &[u32]) -> Result<Vec<Spot>, NoMemory>
    ensures { IfOk result (λ spots. spots.items ≡
        filter (λ spot. has_number numbers.now spot.num) (spots_of_night log.now night)) }
{
    let mut spots = log.night(night)?;
    spots.retain(|spot| has(numbers, spot.num));
    Ok(spots)
}

/// Whether the spots, if there are any, are one of the tracklets.
fn is_tracked(tracklets: &[Tracklet], spots: &[Spot]) -> bool
    ensures { result ≡ not (are_untracked spots.now tracklets.now) }
{
    if spots.is_empty() {
        return true;
    }
    is_tracklet(tracklets, spots)
}

/// Whether the spots are one of the tracklets, by their numbers.
fn is_tracklet(tracklets: &[Tracklet], spots: &[Spot]) -> bool
    ensures { result ≡ list_any (λ tracklet.
        pointwise nat_eq (labels tracklet) (labels spots.now)) tracklets.now }
{
    tracklets
        .iter()
        .any(|tracklet| are_same(tracklet.spots(), spots))
}

/// Whether two lists of spots have the same numbers.
fn are_same(one: &[Spot], other: &[Spot]) -> bool
    ensures { result ≡ pointwise nat_eq (labels one.now) (labels other.now) }
{
    if one.len() != other.len() {
        return false;
    }
    for i in 0..one.len() {
        let spot = &one[i];
        let other_spot = &other[i];
        if spot.num != other_spot.num {
            return false;
        }
    }
    true
}

/// What the asked spots, of three or more nights, are: too far apart, or as `fit` says.
fn spread(
    alloc: Global,
    log: &ExposureLog,
    nights: &[Night],
    kept: &KeptTracks,
    settings: &Settings,
    ids: &[Word],
    spots: &[Spot],
) -> Result<Asked, NoMemory>
    requires few { length ids.now < 2 ^ 32 }
    requires sound { IsSoundState (record { settings = settings.now; log = log.now }) }
    requires kept { nights.now ≡ nights_of (record { settings = settings.now; log = log.now }) }
    requires sets { AreKeptFor settings.now nights.now kept.now }
    requires set { IsTrackedSet (record { settings = settings.now; log = log.now }) ids.now
        spots.now }
    ensures { IfOk result (λ asked.
        IsAskedSpread (record { settings = settings.now; log = log.now }) ids.now (Ok asked)) }
{
    let placed = placed(alloc, log, ids, spots)?;
    if let Some((axis, a, b)) = spread_fault(placed.as_slice()) {
        return Ok(Asked::Spread(axis, a, b));
    }
    let ra = refuse(placed.as_slice(), Axis::Ra, settings);
    let dec = refuse(placed.as_slice(), Axis::Dec, settings);
    if let Some(asked) = misfit(ra, dec) {
        return Ok(asked);
    }
    track(alloc, log, nights, kept, settings, spots)
}

/// The answer of the certificates of both axes, where there is one.
fn misfit(ra: Option<Cert>, dec: Option<Cert>) -> Option<Asked>
    ensures { result ≡ option_map (λ shown. Asked.Misfit shown.0 shown.1) (misfit_of ra dec) }
{
    if ra.is_some() || dec.is_some() {
        return Some(Asked::Misfit(ra, dec));
    }
    None
}

/// The spots, with the places of their ids as labels.
fn placed(
    alloc: Global,
    log: &ExposureLog,
    ids: &[Word],
    spots: &[Spot],
) -> Result<Vec<Spot>, NoMemory>
    requires few { length ids.now < 2 ^ 32 }
    ensures { IfOk result (λ placed. placed.items ≡ map (placed_spot log.now ids.now) spots.now) }
{
    let mut placed = Vec::with_capacity(alloc, spots.len())?;
    for spot in spots {
        let num = place_of(ids, id_bytes(log, spot.num));
        placed.push(Spot { num, ..*spot })?;
    }
    Ok(placed)
}

/// The first place of an id.
fn place_of(ids: &[Word], id: &[u8]) -> u32
    requires few { length ids.now < 2 ^ 32 }
    ensures { result ≡ first_place_of ids.now id.now }
{
    ids.iter().take_while(|other| other.bytes() != id).count() as u32
}

/// The bytes of the id of the held detection of a number. There are none where there is none.
fn id_bytes(log: &ExposureLog, number: u32) -> &[u8]
    ensures { result.now ≡ id_of_number log.now number }
{
    match log.detection(number) {
        Some(detection) => detection.id.bytes(),
        None => b"",
    }
}

/// The listed track that the spots, which fit, are, or else the first that properly contains them.
fn track(
    alloc: Global,
    log: &ExposureLog,
    nights: &[Night],
    kept: &KeptTracks,
    settings: &Settings,
    spots: &[Spot],
) -> Result<Asked, NoMemory>
    requires sound { IsSoundState (record { settings = settings.now; log = log.now }) }
    requires kept { nights.now ≡ nights_of (record { settings = settings.now; log = log.now }) }
    requires sets { AreKeptFor settings.now nights.now kept.now }
    requires track { IsTrackOfSpots (record { settings = settings.now; log = log.now }) spots.now }
    ensures { IfOk result (λ asked. IsAskedTrack
        (record { settings = settings.now; log = log.now }) (labels spots.now) (Ok asked)) }
{
    let list = listed(alloc, log, nights, kept)?;
    let mut numbers = Vec::with_capacity(alloc, spots.len())?;
    push_numbers(&mut numbers, spots)?;
    if let Some(number) = number_of_track(alloc, list.as_slice(), numbers.as_slice())? {
        return Ok(Asked::Listed(number));
    }
    match number_around(alloc, list.as_slice(), numbers.as_slice())? {
        Some(number) => Ok(Asked::Inside(number)),
        None => unreachable!(),
    }
}

/// The number, from 1, of the track that has exactly these numbers.
fn number_of_track(
    alloc: Global,
    list: &[TrackSet],
    numbers: &[u32],
) -> Result<Option<u64>, NoMemory>
    ensures { IfOk result (λ found. found ≡ number_of_same list.now numbers.now) }
{
    for i in 0..list.len() {
        let listed = numbers_of_set(alloc, &list[i])?;
        if listed.as_slice() == numbers {
            return Ok(Some(i as u64 + 1));
        }
    }
    Ok(None)
}

/// The number, from 1, of the first track that properly contains these numbers.
fn number_around(alloc: Global, list: &[TrackSet], numbers: &[u32]) -> Result<Option<u64>, NoMemory>
    ensures { IfOk result (λ found. found ≡ number_of_first_around list.now numbers.now) }
{
    for i in 0..list.len() {
        let listed = numbers_of_set(alloc, &list[i])?;
        if is_part(numbers, listed.as_slice()) {
            return Ok(Some(i as u64 + 1));
        }
    }
    Ok(None)
}

/// The numbers of the spots of a set, in their order.
#[tactic(auto, using(crate::proofs::TrackNumbers::numbers_one_more))]
fn numbers_of_set(alloc: Global, set: &TrackSet) -> Result<Vec<u32>, NoMemory>
    ensures { IfOk result (λ numbers. numbers.items ≡ set_numbers set.now) }
{
    let mut numbers = Vec::new(alloc);
    for tracklet in set.tracklets() {
        push_numbers(&mut numbers, tracklet.spots())?;
    }
    Ok(numbers)
}

/// Adds the numbers of some spots.
#[tactic(auto, using(crate::proofs::Steps::map_one_more))]
fn push_numbers(numbers: &mut Vec<u32>, spots: &[Spot]) -> Result<(), NoMemory>
    ensures { OnOk result (numbers.new.items ≡ numbers.old.items ++ labels spots.now) }
{
    for spot in spots {
        numbers.push(spot.num)?;
    }
    Ok(())
}

/// Whether the numbers of one list are properly contained in those of another.
fn is_part(one: &[u32], other: &[u32]) -> bool
    ensures { result ≡ is_proper_part one.now other.now }
{
    are_among(one, other) && !are_among(other, one)
}

/// Whether all numbers of one list are among those of another.
fn are_among(one: &[u32], other: &[u32]) -> bool
    ensures { result ≡ among_others one.now other.now }
{
    one.iter().all(|number| has(other, *number))
}

/// Whether a number is in a list.
fn has(numbers: &[u32], number: u32) -> bool
    ensures { result ≡ has_number numbers.now number }
{
    numbers.iter().any(|n| *n == number)
}
