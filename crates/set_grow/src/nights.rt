//! Nights whose tracklets have lasting numbers.
ghost use Rattle.std.specs.Prelude.{◌≡◌, length};
ghost use Rattle.set_grow.specs.Nights.{numbered_by};
ghost use Rattle.set_grow.specs.Numbered.{numbers_in, without_numbers};

use night_tree::Night;
use sky_units::Tracklet;
use std::marker::Model;

/// A night, and for each of its tracklets a number, in the same order. Both are lent.
#[derive(Debug, Drop)]
pub struct NumberedNight<'a> {
    night: &'a Night,
    numbers: &'a [u32],
}

impl<'a> Model for NumberedNight<'a> {
    ghost use Rattle.std.specs.Prelude.{◌≡◌, length};
    ghost use Rattle.set_grow.specs.Nights.{NumberedNightData, numbered_by};

    ghost Value = { NumberedNightData };

    ghost view = { λ n. record {
      number = n.night.now.number;
      tracklets = numbered_by n.numbers.now n.night.now.tracklets;
    } };

    ghost invariant = { λ n. length n.numbers.now ≡ length n.night.now.tracklets };
}

impl<'a> NumberedNight<'a> {
    /// The night with these numbers: as many as it has tracklets, in their order.
    pub fn of(night: &'a Night, numbers: &'a [u32]) -> NumberedNight<'a>
        requires { length numbers.now ≡ length night.now.tracklets }
        ensures { result ≡ record {
          number = night.now.number;
          tracklets = numbered_by numbers.now night.now.tracklets;
        } }
    {
        NumberedNight { night, numbers }
    }

    /// The night's number.
    pub fn number(&self) -> i64
        ensures { result ≡ self.now.number }
    {
        self.night.number()
    }

    /// The tracklets of the night, in its order.
    pub fn tracklets(&self) -> &[Tracklet]
        ensures { result.now ≡ without_numbers self.now.tracklets }
    {
        self.night.tracklets()
    }

    /// The numbers of the tracklets, in the same order.
    pub fn numbers(&self) -> &[u32]
        ensures { result.now ≡ numbers_in self.now.tracklets }
    {
        self.numbers
    }
}
