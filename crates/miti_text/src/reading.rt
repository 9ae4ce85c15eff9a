//! Reading a detection line.
ghost use Rattle.std.specs.Prelude.{◌≡◌, ◌<◌, length, true, MatchOption, IfSome, IfOk};
ghost use Rattle.std.specs.List.{list_all};
ghost use Rattle.miti_text.specs.Words.{words};
ghost use Rattle.miti_text.specs.Observation.{IsDetection, is_shown, is_id, begins_other_line};
ghost use Rattle.miti_text.specs.Lines.{detection_of, fields_of, is_text, or_error, IsAnswer, Gives};
ghost use Rattle.miti_text.specs.Parts.{seen, AreFirst, HaveRanges};

use crate::quantities::Quantity;
use crate::short_decimals::next_quantity;
use crate::{Detection, LineError, next_word};
use sky_units::Word;
use std::alloc::Global;

/// The most bytes of a line.
const MOST_BYTES: usize = 1_024;

/// How many bytes of a line are tested at once.
const BLOCK: usize = 32;

/// The most bytes of an id.
const MOST_ID: usize = 64;

/// The most bytes of a site.
const MOST_SITE: usize = 8;

/// The most bytes of an object's name.
const MOST_NAME: usize = 64;

/// What a detection line says, with its words lent by the line.
#[derive(Clone, Copy)]
struct Parsed<'a> {
    id: &'a [u8],
    epoch: i64,
    ra: i64,
    dec: i64,
    mag: i64,
    site: &'a [u8],
    name: &'a [u8],
}

/// The first seven words of a line; a number is None where its word writes none in its range.
#[derive(Clone, Copy)]
struct Seven<'a> {
    id: &'a [u8],
    epoch: Option<i64>,
    ra: Option<i64>,
    dec: Option<i64>,
    mag: Option<i64>,
    site: &'a [u8],
    name: &'a [u8],
}

/// The detection of a line, without its line end; or the first rule that the line breaks.
pub fn read_line(alloc: Global, line: &[u8]) -> Result<Detection, LineError>
    ensures { IsAnswer (detection_of line.now) result }
{
    let parsed = parse(line)?;
    Ok(Detection {
        id: Word::new(alloc, parsed.id)?,
        epoch: parsed.epoch,
        ra: parsed.ra,
        dec: parsed.dec,
        mag: parsed.mag,
        site: Word::new(alloc, parsed.site)?,
        name: Word::new(alloc, parsed.name)?,
    })
}

/// What a line says, without copying its words.
#[tactic(auto, unfolding(crate::specs::Lines::detection_of))]
fn parse(line: &[u8]) -> Result<Parsed<'_>, LineError>
    ensures value { Gives seen (detection_of line.now) result }
    ensures range { IfOk result (λ parsed. IsDetection (seen parsed)) }
{
    if line.len() > MOST_BYTES {
        return Err(LineError::Long);
    }
    if !is_text(line) {
        return Err(LineError::Byte);
    }
    match seven_words(line) {
        Some(words) => parse_words(&words),
        None => Err(LineError::Fields),
    }
}

/// Whether a line has only tabs and bytes from a space to a tilde.
pub fn is_text(line: &[u8]) -> bool
    ensures { result ≡ list_all is_text line.now }
{
    if line.len() < BLOCK {
        return are_text_bytes(line);
    }
    // Whole blocks, and the last block's length once more, so that no byte is tested alone.
    let (blocks, _) = line.split_at(line.len() / BLOCK * BLOCK);
    let (_, last) = line.split_at(line.len() - BLOCK);
    are_text_bytes(blocks) && are_text_bytes(last)
}

/// Whether each byte is a tab, or from a space to a tilde.
#[inline(always)]
fn are_text_bytes(bytes: &[u8]) -> bool
    ensures { result ≡ list_all is_text bytes.now }
{
    // Without an early end the bytes are tested many at a time.
    let mut all = true;
    for byte in bytes {
        all &= is_text_byte(*byte);
    }
    all
}

/// Whether a byte is a tab, or from a space to a tilde.
fn is_text_byte(byte: u8) -> bool
    ensures { result ≡ is_text byte }
{
    byte == b'\t' || (b' '..=b'~').contains(&byte)
}

/// The first seven words of a text; None where it has fewer.
fn seven_words(text: &[u8]) -> Option<Seven<'_>>
    ensures value { MatchOption result (length (words text.now) < 7)
        (λ seven. AreFirst seven (words text.now)) }
    ensures range { IfSome result HaveRanges }
{
    let (id, text) = next_word(text)?;
    let (epoch, text) = next_quantity(Quantity::Epoch, text)?;
    let (ra, text) = next_quantity(Quantity::RightAscension, text)?;
    let (dec, text) = next_quantity(Quantity::Declination, text)?;
    let (mag, text) = next_quantity(Quantity::Magnitude, text)?;
    let (site, text) = next_word(text)?;
    let (name, _) = next_word(text)?;
    Some(Seven {
        id,
        epoch,
        ra,
        dec,
        mag,
        site,
        name,
    })
}

/// What seven words say.
#[tactic(auto, unfolding(crate::specs::Lines::fields_of))]
fn parse_words<'a>(words: &Seven<'a>) -> Result<Parsed<'a>, LineError>
    requires id { is_shown words.now.id.now ≡ true }
    requires site { is_shown words.now.site.now ≡ true }
    requires name { is_shown words.now.name.now ≡ true }
    requires ranges { HaveRanges words.now }
    ensures value { Gives seen (fields_of words.now.id.now words.now.epoch words.now.ra
        words.now.dec words.now.mag words.now.site.now words.now.name.now) result }
    ensures range { IfOk result (λ parsed. IsDetection (seen parsed)) }
{
    if !is_id(words.id) {
        return Err(LineError::Id);
    }
    let epoch = number_or(words.epoch, LineError::Epoch)?;
    let ra = number_or(words.ra, LineError::Ra)?;
    let dec = number_or(words.dec, LineError::Dec)?;
    let mag = number_or(words.mag, LineError::Mag)?;
    if words.site.len() > MOST_SITE {
        return Err(LineError::Site);
    }
    if words.name.len() > MOST_NAME {
        return Err(LineError::Name);
    }
    Ok(Parsed {
        id: words.id,
        epoch,
        ra,
        dec,
        mag,
        site: words.site,
        name: words.name,
    })
}

/// The number that was read, or this error.
fn number_or(number: Option<i64>, error: LineError) -> Result<i64, LineError>
    ensures { result ≡ or_error error number }
{
    match number {
        Some(units) => Ok(units),
        None => Err(error),
    }
}

/// Whether a word of a line may be an id.
fn is_id(word: &[u8]) -> bool
    requires { is_shown word.now ≡ true }
    ensures { result ≡ is_id word.now }
{
    if word.len() > MOST_ID {
        return false;
    }
    !begins_other_line(word)
}

/// Whether a text begins with a byte that begins other lines: `!` or `#`.
fn begins_other_line(text: &[u8]) -> bool
    ensures { result ≡ begins_other_line text.now }
{
    matches!(text, [b'!' | b'#', ..])
}
