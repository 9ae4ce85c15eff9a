//! The texts of replies to asked ids.
ghost use Rattle.std.specs.Prelude.{◌≡◌, ◌++◌, ◌∷◌, [], OnOk, codes, decimal, map};
ghost use Rattle.std.specs.Fmt.{signed_decimal};
ghost use Rattle.std.specs.List.{flat_map};
ghost use Rattle.track_report.specs.AskedText.{ask_error_words, asked_words, axis_name as name_of_axis, cert_words, id_at};
ghost use Rattle.track_report.specs.Texts.{text_of};
ghost use Rattle.track_report.specs.Words.{spaced};
ghost use Rattle.track_report.specs.declared.replies.Reply.TheVariants as replies;

use crate::words::{write_number, write_word};
use sky_units::{AskError, Asked, Axis, Cert, NoMemory, Words};

/// Adds the line of what asked detections are.
pub fn write_asked(text: &mut Vec<u8>, ids: &Words, asked: Asked) -> Result<(), NoMemory>
    ensures { OnOk result (text.new.items ≡ text.old.items
        ++ text_of (replies.Asked ids.now asked)) }
{
    text.extend_from_slice(b"ask")?;
    write_answer(text, ids, asked)?;
    text.push(b'\n')?;
    Ok(())
}

/// Adds the line of why asked ids have no answer.
pub fn write_ask_refused(text: &mut Vec<u8>, ids: &Words, error: AskError) -> Result<(), NoMemory>
    ensures { OnOk result (text.new.items ≡ text.old.items
        ++ text_of (replies.AskRefused ids.now error)) }
{
    text.extend_from_slice(b"ask refused")?;
    write_error(text, ids, error)?;
    text.push(b'\n')?;
    Ok(())
}

/// Adds what asked detections are.
fn write_answer(text: &mut Vec<u8>, ids: &Words, asked: Asked) -> Result<(), NoMemory>
    ensures { OnOk result (text.new.items ≡ text.old.items
        ++ flat_map spaced (asked_words ids.now asked)) }
{
    match asked {
        Asked::Listed(number) => write_counted(text, b"listed", number),
        Asked::Inside(number) => write_counted(text, b"inside", number),
        Asked::NotTracklet(night) => write_untracked(text, night),
        Asked::FewNights(nights) => write_nights(text, nights),
        Asked::Spread(axis, a, b) => write_spread(text, ids, axis, a, b),
        Asked::Misfit(ra, dec) => write_misfit(text, ids, ra, dec),
    }
}

/// Adds a word, and the number of a track.
fn write_counted(text: &mut Vec<u8>, word: &[u8], number: u64) -> Result<(), NoMemory>
    ensures { OnOk result (text.new.items ≡ text.old.items
        ++ flat_map spaced (word.now ∷ decimal number ∷ [])) }
{
    write_word(text, word)?;
    write_number(text, number)
}

/// Adds the night whose asked detections aren't one of its tracklets.
fn write_untracked(text: &mut Vec<u8>, night: i64) -> Result<(), NoMemory>
    ensures { OnOk result (text.new.items ≡ text.old.items
        ++ flat_map spaced (codes "untracked" ∷ signed_decimal night ∷ [])) }
{
    write_word(text, b"untracked")?;
    write_number(text, night)
}

/// Adds the number of nights.
fn write_nights(text: &mut Vec<u8>, nights: u32) -> Result<(), NoMemory>
    ensures { OnOk result (text.new.items ≡ text.old.items
        ++ flat_map spaced (codes "nights" ∷ decimal nights ∷ [])) }
{
    write_word(text, b"nights")?;
    write_number(text, nights)
}

/// Adds the axis on which two are too far apart, and their ids.
fn write_spread(text: &mut Vec<u8>, ids: &Words, axis: Axis, a: u32, b: u32) -> Result<(), NoMemory>
    ensures { OnOk result (text.new.items ≡ text.old.items
        ++ flat_map spaced (asked_words ids.now (Asked.Spread axis a b))) }
{
    write_word(text, b"spread")?;
    write_word(text, axis_name(axis))?;
    write_id(text, ids, a)?;
    write_id(text, ids, b)
}

/// Adds the certificates of both axes.
fn write_misfit(
    text: &mut Vec<u8>,
    ids: &Words,
    ra: Option<Cert>,
    dec: Option<Cert>,
) -> Result<(), NoMemory>
    ensures { OnOk result (text.new.items ≡ text.old.items
        ++ flat_map spaced (asked_words ids.now (Asked.Misfit ra dec))) }
{
    write_word(text, b"misfit")?;
    write_word(text, b"ra")?;
    write_cert(text, ids, ra)?;
    write_word(text, b"dec")?;
    write_cert(text, ids, dec)
}

/// Adds a certificate: how many ids it has, and these.
fn write_cert(text: &mut Vec<u8>, ids: &Words, cert: Option<Cert>) -> Result<(), NoMemory>
    ensures { OnOk result (text.new.items ≡ text.old.items
        ++ flat_map spaced (cert_words ids.now cert)) }
{
    match cert {
        None => write_word(text, b"0"),
        Some(Cert::Three(places)) => {
            write_word(text, b"3")?;
            write_ids(text, ids, &places)
        }
        Some(Cert::Four(places)) => {
            write_word(text, b"4")?;
            write_ids(text, ids, &places)
        }
    }
}

/// Adds the ids at some places.
fn write_ids(text: &mut Vec<u8>, ids: &Words, places: &[u32]) -> Result<(), NoMemory>
    ensures { OnOk result (text.new.items ≡ text.old.items
        ++ flat_map spaced (map (id_at ids.now) places.now)) }
{
    for place in places {
        write_id(text, ids, *place)?;
    }
    Ok(())
}

/// Adds why asked ids have no answer.
fn write_error(text: &mut Vec<u8>, ids: &Words, error: AskError) -> Result<(), NoMemory>
    ensures { OnOk result (text.new.items ≡ text.old.items
        ++ flat_map spaced (ask_error_words ids.now error)) }
{
    match error {
        AskError::Unknown(place) => write_named(text, b"unknown", ids, place),
        AskError::Twice(place) => write_named(text, b"twice", ids, place),
        AskError::NoMemory => Ok(()),
    }
}

/// Adds the name of an error, and the id at a place.
fn write_named(text: &mut Vec<u8>, name: &[u8], ids: &Words, place: u32) -> Result<(), NoMemory>
    ensures { OnOk result (text.new.items ≡ text.old.items
        ++ flat_map spaced (name.now ∷ id_at ids.now place ∷ [])) }
{
    write_word(text, name)?;
    write_id(text, ids, place)
}

/// Adds the id at a place, or an empty word where there is none.
fn write_id(text: &mut Vec<u8>, ids: &Words, place: u32) -> Result<(), NoMemory>
    ensures { OnOk result (text.new.items ≡ text.old.items ++ spaced (id_at ids.now place)) }
{
    match ids.items().get(place as usize) {
        Some(id) => write_word(text, id.bytes()),
        None => write_word(text, b""),
    }
}

/// The name of an axis.
fn axis_name(axis: Axis) -> &'static [u8]
    ensures { result.now ≡ name_of_axis axis }
{
    match axis {
        Axis::Ra => b"ra",
        Axis::Dec => b"dec",
    }
}
