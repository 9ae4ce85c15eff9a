//! The words of a line, and the pieces of a decimal.
ghost use Rattle.std.specs.Prelude.{◌≡◌, ◌∷◌, ◌≤◌, [], length, drop, not, MatchOption};
ghost use Rattle.std.specs.List.{prefix_len, position_or_len};
ghost use Rattle.miti_text.specs.Words.{is_blank, words, ends_word};

/// The first word of a text and what follows it; None where the text has no word. A word is what
/// stands between spaces and tabs.
pub fn next_word(text: &[u8]) -> Option<(&[u8], &[u8])>
    ensures { MatchOption result (words text.now ≡ []) (λ found. words text.now ≡
        found.0.now ∷ words found.1.now) }
{
    let text = without_blanks(text);
    let end = word_len(text);
    if end == 0 {
        return None;
    }
    Some(text.split_at(end))
}

/// A text without the blanks that it begins with.
pub fn without_blanks(text: &[u8]) -> &[u8]
    ensures same { result.now ≡ drop (prefix_len is_blank text.now) text.now }
    ensures words { words result.now ≡ words text.now }
{
    let (_, text) = text.split_at(blanks_in_front(text));
    text
}

/// Whether a word that ends where this text begins is over there: nothing or a blank follows.
pub fn ends_word(text: &[u8]) -> bool
    ensures { result ≡ ends_word text.now }
{
    match text {
        [] => true,
        [byte, ..] => is_blank(*byte),
    }
}

/// How many blanks a text begins with.
fn blanks_in_front(text: &[u8]) -> usize
    ensures blanks { result ≡ prefix_len is_blank text.now }
    ensures within { result ≤ length text.now }
{
    text.iter().take_while(|byte| is_blank(**byte)).count()
}

/// How many bytes of a text stand before its first blank.
fn word_len(text: &[u8]) -> usize
    ensures bytes { result ≡ position_or_len is_blank text.now }
    ensures within { result ≤ length text.now }
{
    text.iter().take_while(|byte| !is_blank(**byte)).count()
}

/// Whether a byte parts words: a space or a tab.
fn is_blank(byte: u8) -> bool
    ensures { result ≡ is_blank byte }
{
    byte == b' ' || byte == b'\t'
}
