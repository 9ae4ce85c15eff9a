//! What the program's words ask for.
ghost use Rattle.std.specs.Prelude.{◌≡◌, ◌≤◌, ℕ, pos, false, IfSome};
ghost use Rattle.std.specs.Str.Parse.{starts_with_minus};
ghost use Rattle.miti_text.specs.Numerals.{size_of, with_sign};
ghost use Rattle.mops_run.specs.Forms.{IsPlan, HasPlan, form_of as form_of_words, lone_form as lone_form_of, number_between as number_in, plan_of as plan_of_words, sky_form as sky_form_of, within as within_limits};

use miti_text::read_number;
use sky_units::{MOST_NIGHTS, Word};

/// The most digits of a number.
const MOST_DIGITS: usize = 10;

/// The most objects of a made sky.
const MOST_OBJECTS: u32 = 1_000;

/// What the program's words ask for.
#[derive(Clone, Copy, Debug)]
pub enum Form {
    /// `watch`: to answer a script of detections and commands.
    Watch,
    /// `link`: to link detections.
    Link,
    /// `generate NUMBER NIGHTS OBJECTS`: the detection lines of a made sky.
    Generate(SkyPlan),
    /// `summary NUMBER NIGHTS OBJECTS`: the statistics of a made sky that is linked.
    Summary(SkyPlan),
}

/// A sky that is to be made: the number that it is drawn from, its nights, 1 to 30, and its objects,
/// 1 to 1,000.
#[derive(Clone, Copy, Debug)]
pub struct SkyPlan {
    pub number: u32,
    pub nights: u32,
    pub objects: u32,
}

/// The form that words have (the definition `form_of`). This takes no memory.
#[tactic(auto, unfolding(crate::specs::Forms::form_of))]
pub fn form_of(words: &[Word]) -> Option<Form>
    ensures form { result ≡ form_of_words words.now }
    ensures plan { IfSome result HasPlan }
{
    match words {
        [name] => lone_form(name.bytes()),
        [name, number, nights, objects] => {
            let plan = plan_of(number.bytes(), nights.bytes(), objects.bytes())?;
            sky_form(name.bytes(), plan)
        }
        _ => None,
    }
}

/// The form of one word.
fn lone_form(name: &[u8]) -> Option<Form>
    ensures form { result ≡ lone_form_of name.now }
    ensures plan { IfSome result HasPlan }
{
    if name == b"watch".as_slice() {
        return Some(Form::Watch);
    }
    if name == b"link".as_slice() {
        return Some(Form::Link);
    }
    None
}

/// The form of this name that makes a sky.
fn sky_form(name: &[u8], plan: SkyPlan) -> Option<Form>
    requires { IsPlan plan }
    ensures form { result ≡ sky_form_of name.now plan }
    ensures plan { IfSome result HasPlan }
{
    if name == b"generate".as_slice() {
        return Some(Form::Generate(plan));
    }
    if name == b"summary".as_slice() {
        return Some(Form::Summary(plan));
    }
    None
}

/// The sky that three words tell.
fn plan_of(number: &[u8], nights: &[u8], objects: &[u8]) -> Option<SkyPlan>
    ensures plan { result ≡ plan_of_words number.now nights.now objects.now }
    ensures range { IfSome result IsPlan }
{
    Some(SkyPlan {
        number: number_between(0, u32::MAX, number)?,
        nights: number_between(1, MOST_NIGHTS as u32, nights)?,
        objects: number_between(1, MOST_OBJECTS, objects)?,
    })
}

/// The number of one to ten digits, where it lies between two limits.
fn number_between(low: u32, high: u32, word: &[u8]) -> Option<u32>
    ensures value { result ≡ number_in low high word.now }
    ensures least { IfSome result (λ n. low ≤ n) }
    ensures most { IfSome result (λ n. n ≤ high) }
{
    if word.len() > MOST_DIGITS {
        return None;
    }
    within(low, high, read_size(word)?)
}

/// The number that one to eighteen digits write, without a sign.
fn read_size(word: &[u8]) -> Option<i64>
    ensures { result ≡ with_sign false (size_of word.now) }
{
    if begins_with_minus(word) {
        return None;
    }
    read_number(word)
}

/// Whether a word begins with a minus.
fn begins_with_minus(word: &[u8]) -> bool
    ensures { result ≡ starts_with_minus word.now }
{
    matches!(word, [b'-', ..])
}

/// The number, where it lies between two limits.
fn within(low: u32, high: u32, number: i64) -> Option<u32>
    ensures value { (n : ℕ) → number ≡ pos n → result ≡ within_limits low high n }
    ensures least { IfSome result (λ n. low ≤ n) }
    ensures most { IfSome result (λ n. n ≤ high) }
{
    if number < low as i64 {
        return None;
    }
    if number > high as i64 {
        return None;
    }
    Some(number as u32)
}
