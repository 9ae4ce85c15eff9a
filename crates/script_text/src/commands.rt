//! The commands of a script.
ghost use Rattle.std.specs.Prelude.{◌≡◌, ◌==◌, length, IfOk};
ghost use Rattle.std.specs.Option.{option_map};
ghost use Rattle.miti_text.specs.Words.{words};
ghost use Rattle.miti_text.specs.Numerals.{number_of};
ghost use Rattle.script_text.specs.Commands.{command_of, set_of, window_of, tracklets_of, ask_of, alone, one_of, two_of, or_error, IsAnswer};
ghost use Rattle.script_text.specs.declared.errors.ScriptError.TheVariants as errors;
ghost use Rattle.script_text.specs.declared.lines.Line.TheVariants as lines;

use crate::{Line, ScriptError};
use miti_text::{next_word, read_number};
use sky_units::{NoMemory, Word, Words};
use std::alloc::Global;

/// What a command line says; or why it is malformed.
#[tactic(auto, unfolding(crate::specs::Commands::command_of))]
pub fn read_command(alloc: Global, line: &[u8]) -> Result<Line, ScriptError>
    ensures { IsAnswer (command_of (words line.now)) result }
{
    let (name, rest) = next_word(line).ok_or(ScriptError::Command)?;
    if name == b"!set".as_slice() {
        return read_set(alloc, rest);
    }
    if name == b"!window".as_slice() {
        return read_window(rest);
    }
    if name == b"!tracklets".as_slice() {
        return read_tracklets(rest);
    }
    if name == b"!report".as_slice() {
        return no_words(rest, Line::Report);
    }
    if name == b"!ask".as_slice() {
        return read_ask(alloc, rest);
    }
    if name == b"!stats".as_slice() {
        return no_words(rest, Line::Stats);
    }
    Err(ScriptError::Command)
}

/// The words after `!set`: a name and a number.
fn read_set(alloc: Global, text: &[u8]) -> Result<Line, ScriptError>
    ensures { IsAnswer (set_of (words text.now)) result }
{
    let (name, value) = two_words(text).ok_or(ScriptError::Words)?;
    let value = number(value)?;
    Ok(Line::Set(Word::new(alloc, name)?, value))
}

/// The words after `!window`: two numbers.
fn read_window(text: &[u8]) -> Result<Line, ScriptError>
    ensures { result ≡ window_of (words text.now) }
{
    let (low, high) = two_words(text).ok_or(ScriptError::Words)?;
    Ok(Line::Window(number(low)?, number(high)?))
}

/// The word after `!tracklets`: a number.
fn read_tracklets(text: &[u8]) -> Result<Line, ScriptError>
    ensures { result ≡ tracklets_of (words text.now) }
{
    let night = one_word(text).ok_or(ScriptError::Words)?;
    Ok(Line::Tracklets(number(night)?))
}

/// The words after `!ask`: one or more ids, which may be any words.
fn read_ask(alloc: Global, text: &[u8]) -> Result<Line, ScriptError>
    ensures { IsAnswer (ask_of (words text.now)) result }
{
    let ids = all_words(alloc, text)?;
    if ids.items().is_empty() {
        return Err(ScriptError::Words);
    }
    Ok(Line::Ask(ids))
}

/// The words of a text.
fn all_words(alloc: Global, text: &[u8]) -> Result<Words, NoMemory>
    ensures { IfOk result (λ found. found ≡ words text.now) }
{
    let mut found = Words::new(alloc);
    let mut rest = text;
    while let Some((word, behind)) = next_word(rest) {
        found.push(Word::new(alloc, word)?)?;
        rest = behind;
    }
    Ok(found)
}

/// This command, where no word follows it.
fn no_words(text: &[u8], command: Line) -> Result<Line, ScriptError>
    ensures { result ≡ alone command (words text.now) }
{
    if next_word(text).is_some() {
        return Err(ScriptError::Words);
    }
    Ok(command)
}

/// The number that a word writes, or that it is none.
fn number(word: &[u8]) -> Result<i64, ScriptError>
    ensures { result ≡ or_error errors.Number (number_of word.now) }
{
    match read_number(word) {
        Some(value) => Ok(value),
        None => Err(ScriptError::Number),
    }
}

/// The two words of a text; None where it has another number of words.
fn two_words(text: &[u8]) -> Option<(&[u8], &[u8])>
    ensures { option_map (λ pair. (pair.0.now, pair.1.now)) result ≡ two_of (words text.now) }
{
    let (first, rest) = next_word(text)?;
    let second = one_word(rest)?;
    Some((first, second))
}

/// The one word of a text; None where it has another number of words.
fn one_word(text: &[u8]) -> Option<&[u8]>
    ensures { option_map (λ word. word.now) result ≡ one_of (words text.now) }
{
    let (word, rest) = next_word(text)?;
    match next_word(rest) {
        Some(_) => None,
        None => Some(word),
    }
}
