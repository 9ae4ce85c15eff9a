//! Taking in several detections, and letting go of several.
ghost use Rattle.std.specs.Prelude.{◌≡◌, ◌≢◌, ℕ, ◌+◌, ◌^◌, ◌<◌, IsSome, IfOk, OnErr, length, slice_index, slice_index_or};
ghost use Rattle.miti_text.specs.Observation.{Observation};
ghost use Rattle.number_register.specs.Numbering.{slot, count_held, Takes, without_numbers, AreDistinct};

use crate::numbering::Register;
use miti_text::Detection;
use sky_units::NoMemory;
use std::alloc::Global;

/// After so many detections are taken in, their room is given back.
const GIVEN_BACK_AT_ONCE: usize = 65_536;

/// Takes in all these detections, or none of them where memory is wanting.
pub fn take_all(
    register: &mut Register,
    alloc: Global,
    detections: Vec<Detection>,
) -> Result<Vec<u32>, NoMemory>
    requires fresh { (k n : ℕ) (d e : Observation) → k < length detections.items →
        slot register.old n ≡ Some d → d.id ≢ (slice_index_or detections.items k e).id }
    requires apart { (j k : ℕ) (e : Observation) → j < k → k < length detections.items →
        (slice_index_or detections.items j e).id ≢ (slice_index_or detections.items k e).id }
    requires few { count_held register.old + length detections.items < 2 ^ 32 }
    ensures ok { IfOk result (λ numbers.
        Takes (slot register.old) numbers.items detections.items (slot register.new) ×
        (count_held register.new ≡ count_held register.old + length detections.items)) }
    ensures err { OnErr result ((slot register.new ≡ slot register.old) ×
        (count_held register.new ≡ count_held register.old)) }
{
    let mut numbers = Vec::with_capacity(alloc, detections.len())?;
    register.reserve(detections.len())?;
    let mut rest = detections;
    rest.reverse();
    while let Some(detection) = rest.pop() {
        give_back(&mut rest);
        match register.take_in(alloc, detection) {
            Ok(number) => {
                let _ = numbers.push(number);
            }
            Err(error) => {
                let_go_all(register, numbers.as_slice());
                return Err(error);
            }
        }
    }
    Ok(numbers)
}

/// Gives back the room of the detections that are taken in, 65,536 at a time, so that many of them
/// are never in memory twice.
fn give_back(rest: &mut Vec<Detection>)
    ensures { rest.new.items ≡ rest.old.items }
{
    if rest.len() % GIVEN_BACK_AT_ONCE == 0 {
        rest.shrink_to_fit();
    }
}

/// Lets go of the detections of these numbers. This takes no memory.
pub fn let_go_all(register: &mut Register, numbers: &[u32])
    requires held { (k : ℕ) → k < length numbers.now →
        IsSome (slot register.old (slice_index numbers.now k)) }
    requires apart { AreDistinct numbers.now }
    ensures at { slot register.new ≡ without_numbers (slot register.old) numbers.now }
    ensures count { count_held register.new + length numbers.now ≡ count_held register.old }
{
    for number in numbers {
        register.let_go(*number);
    }
}
