//! Words and numbers inside a line.
ghost use Rattle.std.specs.Prelude.{◌≡◌, ◌++◌, ◌∷◌, OnOk, codes};
ghost use Rattle.std.specs.List.{flat_map};
ghost use Rattle.track_report.specs.Words.{line, spaced};

use itoa::{Buffer, Integer};
use sky_units::{NoMemory, Words};

/// Adds a number, in decimal, behind a space.
pub fn write_number<I: Integer>(text: &mut Vec<u8>, number: I) -> Result<(), NoMemory>
    ensures { OnOk result (text.new.items ≡ text.old.items ++ spaced (I.text number)) }
{
    let mut buffer = Buffer::new();
    write_word(text, buffer.format(number).as_bytes())
}

/// Adds a line of a first word and others.
pub fn write_line(text: &mut Vec<u8>, first: &[u8], words: &Words) -> Result<(), NoMemory>
    ensures { OnOk result (text.new.items ≡ text.old.items ++ line (first.now ∷ words.now)) }
{
    text.extend_from_slice(first)?;
    write_rest(text, words)?;
    Ok(())
}

/// Adds words, each behind a space, and ends the line.
fn write_rest(text: &mut Vec<u8>, words: &Words) -> Result<(), NoMemory>
    ensures { OnOk result (text.new.items ≡ text.old.items ++ flat_map spaced words.now
        ++ codes "\n") }
{
    for word in words.items() {
        write_word(text, word.bytes())?;
    }
    text.push(b'\n')?;
    Ok(())
}

/// Adds a word behind a space.
pub fn write_word(text: &mut Vec<u8>, word: &[u8]) -> Result<(), NoMemory>
    ensures { OnOk result (text.new.items ≡ text.old.items ++ spaced word.now) }
{
    text.push(b' ')?;
    text.extend_from_slice(word)?;
    Ok(())
}
