//! A held exposure by the numbers of its detections.
ghost use Rattle.std.specs.Prelude.{◌≡◌, ◌≢◌, ◌==◌, ℕ, ◌+◌, ◌^◌, ◌<◌, ◌≤◌, [], cond, None, Some, IsSome, IsTrue, ◌↔◌, IfOk, IfErr, OnErr, length, slice_index, slice_index_or};
ghost use Rattle.std.specs.Vec.{vec_len, vec_capacity};
ghost use Rattle.std.specs.List.{All, insert as insert_at, list_any, sum_by};
ghost use Rattle.std.specs.List.Sorted.{IsPartitionPoint};
ghost use Rattle.std.specs.Ordering.{int_eq};
ghost use Rattle.std.specs.declared.cmp.Ordering.TheVariants.{Less, Equal, Greater};
ghost use Rattle.sky_math.specs.Lists.{EachTwo};
ghost use Rattle.miti_text.specs.Observation.{Observation};
ghost use Rattle.number_register.specs.Numbering.{slot, count_held};
ghost use Rattle.exposure_log.specs.declared.numbered.NumberedExposure.{NumberedExposure};
ghost use Rattle.exposure_log.specs.Numbered.{numbered_cmp, IsNumbered, RiseStrictly};
ghost use Rattle.number_register.specs.Numbering.{Takes, without_numbers, AreDistinct};

use number_register::{Register, let_go_all};
use sky_units::Word;
use std::cmp::Ordering;

/// A held exposure: the numbers of its detections, in order of their ids.
#[derive(Drop)]
pub(crate) struct NumberedExposure {
    pub(crate) epoch: i64,
    pub(crate) site: Word,
    pub(crate) numbers: Vec<u32>,
}

impl NumberedExposure {
    /// How the exposure compares with another epoch and site.
    fn compare(&self, epoch: i64, site: &[u8]) -> Ordering
        ensures { result ≡ numbered_cmp epoch site.now self.now }
    {
        self.epoch
            .cmp(&epoch)
            .then_with(|| self.site.bytes().cmp(site))
    }

    /// Whether the exposure is of the epoch of another one.
    fn is_of_epoch_of(&self, other: &NumberedExposure) -> bool
        ensures { result ≡ int_eq self.now.epoch other.now.epoch }
    {
        self.epoch == other.epoch
    }
}

/// The place of the exposure of this epoch and site, or the place where it would stand.
pub(crate) fn search(listed: &[NumberedExposure], epoch: i64, site: &[u8]) -> Result<usize, usize>
    requires { RiseStrictly listed.now }
    ensures found { IfOk result (λ i. (i < length listed.now) × ((g : NumberedExposure) →
        numbered_cmp epoch site.now (slice_index_or listed.now i g) ≡ Equal)) }
    ensures missing { IfErr result (λ i. (i ≤ length listed.now) ×
        IsPartitionPoint (λ g. numbered_cmp epoch site.now g ≡ Less)
        (λ g. numbered_cmp epoch site.now g ≡ Greater) listed.now i) }
{
    listed.binary_search_by(|numbered| numbered.compare(epoch, site))
}

/// Whether exposures in order are all of one epoch.
pub(crate) fn are_of_one_epoch(listed: &[NumberedExposure]) -> bool
    requires { RiseStrictly listed.now }
    ensures { IsTrue result ↔
        EachTwo (λ (g h : NumberedExposure). g.epoch ≡ h.epoch) listed.now }
{
    if listed.is_empty() {
        return true;
    }
    let first = &listed[0];
    let last = &listed[listed.len() - 1];
    first.is_of_epoch_of(last)
}

/// Inserts the exposure at a place, for which there is room.
pub(crate) fn insert(listed: &mut Vec<NumberedExposure>, place: usize, numbered: NumberedExposure)
    requires within { place ≤ vec_len listed.old }
    requires room { vec_len listed.old < vec_capacity listed.old }
    ensures { listed.new.items ≡ insert_at listed.old.items place numbered }
{
    let _ = listed.insert(place, numbered);
}

/// Lets go of the detections of all these exposures. This takes no memory.
pub(crate) fn let_go_listed(register: &mut Register, listed: &[NumberedExposure])
    requires order { RiseStrictly listed.now }
    requires each { All (IsNumbered register.old) listed.now }
    ensures at { (n : ℕ) → slot register.new n ≡
        cond (list_any (λ g. list_any (λ k. k == n) g.numbers.items) listed.now) None
        (slot register.old n) }
    ensures count { count_held register.new + sum_by (λ g. length g.numbers.items) listed.now ≡
        count_held register.old }
{
    for numbered in listed {
        let_go_all(register, numbered.numbers.as_slice());
    }
}
