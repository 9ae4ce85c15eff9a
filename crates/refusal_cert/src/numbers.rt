//! Spots and their numbers.
ghost use Rattle.std.specs.Prelude.{◌≡◌, ◌<◌, length, slice_index_or};
ghost use Rattle.sky_units.specs.SpotData.{SpotData};
ghost use Rattle.refusal_cert.specs.Certificates.{IsPlaceOf};

use sky_units::Spot;

/// The number of the spot at a place.
pub fn number_at(spots: &[Spot], place: usize) -> u32
    requires { place < length spots.now }
    ensures { (d : SpotData) → result ≡ (slice_index_or spots.now place d).num }
{
    let spot = &spots[place];
    spot.num
}

/// The place, at `from` or later, of the spot with this number.
pub fn place_of(spots: &[Spot], from: usize, number: u32) -> Option<usize>
    ensures { IsPlaceOf spots.now from number result }
{
    for place in from..spots.len() {
        if number_at(spots, place) == number {
            return Some(place);
        }
    }
    None
}
