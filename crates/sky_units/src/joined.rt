//! Three slices of spots, read as one.
ghost use Rattle.std.specs.Prelude.{◌≡◌, ◌<◌, ◌++◌, length, slice_index_or};

use crate::Spot;

/// How many spots three slices have together.
pub fn joined_len(a: &[Spot], b: &[Spot], c: &[Spot]) -> usize
    ensures { result ≡ length (a.now ++ b.now ++ c.now) }
{
    a.len() + b.len() + c.len()
}

/// The spot at this place of three slices, one slice after the other.
pub fn joined_spot<'a>(a: &'a [Spot], b: &'a [Spot], c: &'a [Spot], place: usize) -> &'a Spot
    requires { place < length (a.now ++ b.now ++ c.now) }
    ensures { result.now ≡ slice_index_or (a.now ++ b.now ++ c.now) place result.now }
{
    if place < a.len() {
        return &a[place];
    }
    let place = place - a.len();
    if place < b.len() {
        &b[place]
    } else {
        &c[place - b.len()]
    }
}
