//! Nights with the numbers of their tracklets.
ghost use Rattle.std.specs.Prelude.{◌≡◌, IfOk};
ghost use Rattle.tracklet_register.specs.Registers.{HasNumbersOf, with_numbers};

use crate::TrackletRegister;
use night_tree::Night;
use set_grow::NumberedNight;
use sky_units::NoMemory;
use std::alloc::Global;

/// Nights with the numbers of their tracklets, which are lent.
pub fn numbered_nights<'a>(
    alloc: Global,
    register: &'a TrackletRegister,
    nights: &'a [Night],
) -> Result<Vec<NumberedNight<'a>>, NoMemory>
    requires { HasNumbersOf register.now.nights nights.now }
    ensures { IfOk result (λ numbered. numbered.items ≡
        with_numbers register.now.nights nights.now) }
{
    let mut numbered = Vec::with_capacity(alloc, nights.len())?;
    for night in nights {
        numbered.push(NumberedNight::of(night, register.numbers(night.number())))?;
    }
    Ok(numbered)
}
