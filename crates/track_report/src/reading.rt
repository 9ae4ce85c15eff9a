//! The report that a text may tell, read with no regard to how its words are spelled and parted.
ghost use Rattle.std.specs.Prelude.{◌≡◌, ◌<◌, ◌≤◌, ◌^◌, FitsSigned, ◌∷◌, ◌++◌, [], ℕ, ℤ, List, length, true, Some, MatchOption, IfOk, IfSome, None, Option, MatchBool, codes};
ghost use Rattle.std.specs.Int.{w64, w128};
ghost use Rattle.std.specs.Fmt.{decimal, signed_decimal};
ghost use Rattle.std.specs.List.{before_first, after_first, position_or_len, list_all, All, flat_map, enumerate_from};
ghost use Rattle.sky_units.specs.QuadData.{QuadData};
ghost use Rattle.track_report.specs.ReportText.{counts_line, head_line, quad_line, report_text, track_text};
ghost use Rattle.track_report.specs.Words.{line};
ghost use Rattle.miti_text.specs.ValidReports.{IsValidTrack, IsValidReport, IsValidWindow};
ghost use Rattle.sky_units.specs.declared.reports.Track.{Track};
ghost use Rattle.sky_units.specs.declared.reports.Report.{Report};
ghost use Rattle.track_report.specs.Reading.{is_separator, is_unparted, from_words, IsTold};

use crate::quads::quad_of;
use sky_units::{NoMemory, Quad, Report, Track, Tracks, Word, Words};
use std::alloc::Global;

/// The report that a text tells, if it is the text of a valid one; else any report or None.
pub fn read_candidate(alloc: Global, text: &[u8]) -> Result<Option<Report>, NoMemory>
    ensures { IfOk result (λ found. (report : Report) → IsValidReport report →
        text.now ≡ report_text report → found ≡ Some report) }
{
    let (window, count, rest) = read_head(text);
    let Some(tracks) = read_tracks(alloc, count.min(text.len()), rest)? else {
        return Ok(None);
    };
    Ok(Some(Report { window, tracks }))
}

/// The window and the number of tracks that the first line tells of, and what follows the line.
fn read_head(text: &[u8]) -> (Option<(i64, i64)>, usize, &[u8])
    ensures { (window : Option (ℤ × ℤ)) (count : ℕ) (more : List ℕ) → IfSome window IsValidWindow →
        count < 2 ^ 64 → text.now ≡ head_line window count ++ more →
        (result.0 ≡ window) × (result.1 ≡ count) × (result.2.now ≡ more) }
{
    let (_, text) = next_word(text);
    let (lo, text) = next_word(text);
    let (hi, text) = next_word(text);
    let (count, text) = next_word(text);
    (read_window(lo, hi), count_number(count), text)
}

/// The window of a first and a last night, none where a dash stands for the first.
fn read_window(lo: &[u8], hi: &[u8]) -> Option<(i64, i64)>
    ensures none { lo.now ≡ codes "-" → result ≡ None }
    ensures some { (first last : ℤ) → FitsSigned w64 first → FitsSigned w64 last →
        lo.now ≡ signed_decimal first → hi.now ≡ signed_decimal last → result ≡ Some (first, last) }
{
    if is_dash(lo) {
        return None;
    }
    Some((small_number(lo), small_number(hi)))
}

/// Whether a word is a dash.
fn is_dash(word: &[u8]) -> bool
    ensures { MatchBool result (word.now ≡ codes "-") (¬ (word.now ≡ codes "-")) }
{
    word == b"-".as_slice()
}

/// The tracks of a report's text behind its first line; None where so many valid ones don't stand there.
fn read_tracks(alloc: Global, count: usize, text: &[u8]) -> Result<Option<Tracks>, NoMemory>
    ensures { IfOk result (λ found. (tracks : List Track) → count ≡ length tracks →
        All IsValidTrack tracks → text.now ≡ flat_map track_text (enumerate_from 1 tracks) →
        found ≡ Some tracks) }
{
    let mut tracks = Tracks::new(alloc);
    let mut text = text;
    for _ in 0..count {
        let Some((track, rest)) = read_track(alloc, text)? else {
            return Ok(None);
        };
        tracks.push(track)?;
        text = rest;
    }
    Ok(Some(tracks))
}

/// The track of four lines and what follows them; None where no valid track is written there.
fn read_track(alloc: Global, text: &[u8]) -> Result<Option<(Track, &[u8])>, NoMemory>
    ensures { IfOk result (λ found. (number : ℕ) (track : Track) (more : List ℕ) →
        number < 10 ^ 64 → IsValidTrack track → text.now ≡ track_text (number, track) ++ more →
        MatchOption found ⊥ (λ f. (f.0 ≡ track) × (f.1.now ≡ more))) }
{
    let Parts {
        nights,
        ra,
        dec,
        ids,
    } = read_parts(alloc, text)?;
    let Some((ids, rest)) = ids else {
        return Ok(None);
    };
    let Some(track) = track_of(nights, ids, ra, dec) else {
        return Ok(None);
    };
    Ok(Some((track, rest)))
}

/// What four lines tell of a track.
#[derive(Drop)]
struct Parts<'a> {
    nights: u32,
    ra: Option<Quad>,
    dec: Option<Quad>,
    /// The ids, and what follows the lines.
    ids: Option<(Words, &'a [u8])>,
}

/// What four lines tell of a track.
fn read_parts(alloc: Global, text: &[u8]) -> Result<Parts<'_>, NoMemory>
    ensures { IfOk result (λ parts. (number : ℕ) (track : Track) (more : List ℕ) →
        number < 10 ^ 64 → IsValidTrack track → text.now ≡ track_text (number, track) ++ more →
        (parts.nights ≡ track.nights) × (parts.ra ≡ Some track.ra) × (parts.dec ≡ Some track.dec) ×
        MatchOption parts.ids ⊥ (λ f. (f.0 ≡ track.ids) × (f.1.now ≡ more))) }
{
    let most = text.len();
    let (nights, count, text) = read_counts(text);
    let (ra, text) = read_quad(text);
    let (dec, text) = read_quad(text);
    let ids = read_ids(alloc, count.min(most), text)?;
    Ok(Parts {
        nights,
        ra,
        dec,
        ids,
    })
}

/// The track of these parts, where both quadratics are there.
fn track_of(nights: u32, ids: Words, ra: Option<Quad>, dec: Option<Quad>) -> Option<Track>
    ensures { (track : Track) → nights ≡ track.nights → ids ≡ track.ids → ra ≡ Some track.ra →
        dec ≡ Some track.dec → result ≡ Some track }
{
    match (ra, dec) {
        (Some(ra), Some(dec)) => Some(Track {
            nights,
            ids,
            ra,
            dec,
        }),
        _ => None,
    }
}

/// How many nights and ids the first line of a track tells of, and what follows the line.
fn read_counts(text: &[u8]) -> (u32, usize, &[u8])
    ensures { (number : ℕ) (track : Track) (more : List ℕ) → number < 10 ^ 64 →
        track.nights < 2 ^ 32 → length track.ids < 2 ^ 64 →
        text.now ≡ counts_line number track ++ more →
        (result.0 ≡ track.nights) × (result.1 ≡ length track.ids) × (result.2.now ≡ more) }
{
    let (_, text) = next_word(text);
    let (_, text) = next_word(text);
    let (nights, text) = next_word(text);
    let (count, text) = next_word(text);
    (night_count(nights), count_number(count), text)
}

/// The words behind the first one of a line, so many, and what follows them; None where the text ends before.
fn read_ids(alloc: Global, count: usize, text: &[u8]) -> Result<Option<(Words, &[u8])>, NoMemory>
    ensures { IfOk result (λ found. (ids : List (List ℕ)) (more : List ℕ) → count ≡ length ids →
        list_all is_unparted ids ≡ true → text.now ≡ line (codes "ids" ∷ ids) ++ more →
        MatchOption found ⊥ (λ f. (f.0 ≡ ids) × (f.1.now ≡ more))) }
{
    let (_, text) = next_word(text);
    let found = read_words(alloc, count, text)?;
    Ok(found)
}

/// The words of so many, and what follows them; None where the text ends before.
fn read_words(alloc: Global, count: usize, text: &[u8]) -> Result<Option<(Words, &[u8])>, NoMemory>
    ensures { IfOk result (λ found. (words : List (List ℕ)) (more : List ℕ) →
        count ≡ length words → list_all is_unparted words ≡ true →
        text.now ≡ from_words words more →
        MatchOption found ⊥ (λ f. (f.0 ≡ words) × (f.1.now ≡ more))) }
{
    let mut words = Words::new(alloc);
    let mut text = text;
    for _ in 0..count {
        if text.is_empty() {
            return Ok(None);
        }
        let (word, rest) = next_word(text);
        words.push(Word::new(alloc, word)?)?;
        text = rest;
    }
    Ok(Some((words, text)))
}

/// The quadratic of a line, None where its numbers are none, and what follows the line.
fn read_quad(text: &[u8]) -> (Option<Quad>, &[u8])
    ensures { (axis : List ℕ) (quad : QuadData) (more : List ℕ) → is_unparted axis ≡ true →
        IsTold quad → text.now ≡ quad_line axis quad ++ more →
        (result.0 ≡ Some quad) × (result.1.now ≡ more) }
{
    let (_, text) = next_word(text);
    let (base, text) = next_word(text);
    let (start, text) = next_word(text);
    let (den, text) = next_word(text);
    let (p, text) = next_word(text);
    let (v, text) = next_word(text);
    let (q, text) = next_word(text);
    let quad = quad_of(
        small_number(base),
        small_number(start),
        wide_number(den),
        wide_number(p),
        wide_number(v),
        wide_number(q),
    );
    (quad, text)
}

/// A number of nights; any number where the word writes none.
fn night_count(word: &[u8]) -> u32
    ensures { (n : ℕ) → n < 2 ^ 32 → word.now ≡ decimal n → result ≡ n }
{
    u32::try_from(wide_number(word)).unwrap_or(0)
}

/// The count that a word writes; any number where it writes none.
fn count_number(word: &[u8]) -> usize
    ensures { (n : ℕ) → n < 2 ^ 64 → word.now ≡ decimal n → result ≡ n }
{
    usize::try_from(wide_number(word)).unwrap_or(0)
}

/// The number of 64 bits that a word writes; any number where it writes none.
fn small_number(word: &[u8]) -> i64
    ensures { (z : ℤ) → FitsSigned w64 z → word.now ≡ signed_decimal z → result ≡ z }
{
    i64::try_from(wide_number(word)).unwrap_or(0)
}

/// The number of 128 bits that a word writes; any number where it writes none.
fn wide_number(word: &[u8]) -> i128
    ensures { (z : ℤ) → FitsSigned w128 z → word.now ≡ signed_decimal z → result ≡ z }
{
    match std::str::from_utf8(word) {
        Ok(text) => text.parse().unwrap_or(0),
        Err(_) => 0,
    }
}

/// The first word of a text and what follows the byte behind it.
fn next_word(text: &[u8]) -> (&[u8], &[u8])
    ensures { (word : List ℕ) (words : List (List ℕ)) (more : List ℕ) → is_unparted word ≡ true →
        text.now ≡ from_words (word ∷ words) more →
        (result.0.now ≡ word) × (result.1.now ≡ from_words words more) }
{
    part_word(text)
}

/// What stands before the first separator of a text, and what stands after it.
fn part_word(text: &[u8]) -> (&[u8], &[u8])
    ensures before { result.0.now ≡ before_first is_separator text.now }
    ensures after { result.1.now ≡ after_first is_separator text.now }
{
    let end = word_len(text);
    if end == text.len() {
        return (text, &[]);
    }
    let (word, rest) = text.split_at(end);
    let (_, rest) = rest.split_at(1);
    (word, rest)
}

/// How many bytes stand before the first separator.
fn word_len(text: &[u8]) -> usize
    ensures place { result ≡ position_or_len is_separator text.now }
    ensures within { result ≤ length text.now }
{
    text.iter().take_while(|byte| !is_separator(**byte)).count()
}

/// Whether a byte parts words: a space or a line feed.
fn is_separator(byte: u8) -> bool
    ensures { result ≡ is_separator byte }
{
    byte == b' ' || byte == b'\n'
}
