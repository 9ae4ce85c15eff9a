//! The canonical order of detections, and sorting by it.
ghost use Rattle.std.specs.Prelude.{◌≡◌, ◌&&◌, ◌↔◌, nat_eq, IsTrue, OnOk};
ghost use Rattle.std.specs.List.{AllPairs, list_all};
ghost use Rattle.std.specs.List.Sorted.{IsPermutation, IsStable};
ghost use Rattle.std.specs.Ordering.{int_eq, nat_cmp};
ghost use Rattle.std.specs.Cmp.Lexicographic.{pointwise, slice_cmp};
ghost use Rattle.std.specs.Vec.{vec_len};
ghost use Rattle.miti_text.specs.CanonicalOrder.{canonical_cmp};
ghost use Rattle.exposure_log.specs.Gathered.{NotAfter, IsOfOneExposure};

use miti_text::Detection;
use sky_units::{NoMemory, Word};
use std::cmp::Ordering;

/// Puts detections into canonical order; those that compare equal keep theirs. Where all are of one
/// exposure, as mostly in a delivery, only their ids are compared.
pub(crate) fn sort(list: &mut Vec<Detection>) -> Result<(), NoMemory>
    ensures permutation { IsPermutation list.old.items list.new.items }
    ensures len { vec_len list.new ≡ vec_len list.old }
    ensures order { OnOk result (AllPairs NotAfter list.new.items) }
    ensures stable { OnOk result (IsStable canonical_cmp list.old.items list.new.items) }
{
    if is_one_exposure(list.as_slice()) {
        return list.sort_by(compare_ids);
    }
    list.sort_by(compare)
}

/// Whether all detections are of one epoch and one site.
fn is_one_exposure(list: &[Detection]) -> bool
    ensures { IsTrue result ↔ AllPairs IsOfOneExposure list.now }
{
    match list.split_first() {
        Some((first, rest)) => are_of_exposure_of(first, rest),
        None => true,
    }
}

/// Whether all these detections are of the epoch and the site of the first one.
fn are_of_exposure_of(first: &Detection, rest: &[Detection]) -> bool
    ensures { result ≡ list_all (λ d. int_eq first.now.epoch d.epoch &&
        pointwise nat_eq first.now.site d.site) rest.now }
{
    rest.iter().all(|other| are_of_one_exposure(first, other))
}

/// How two detections compare in canonical order: by epoch, then by the bytes of the site, then by
/// those of the id.
pub(crate) fn compare(first: &Detection, second: &Detection) -> Ordering
    ensures { result ≡ canonical_cmp first.now second.now }
{
    first
        .epoch
        .cmp(&second.epoch)
        .then_with(|| compare_sites(&first.site, &second.site))
        .then_with(|| compare_ids(first, second))
}

/// How two detections of one exposure compare in canonical order: by the bytes of their ids.
fn compare_ids(first: &Detection, second: &Detection) -> Ordering
    ensures { result ≡ slice_cmp nat_cmp first.now.id second.now.id }
{
    first.id.bytes().cmp(second.id.bytes())
}

/// How two sites compare, by their bytes. Mostly they are the same, which is found in fewer steps.
fn compare_sites(first: &Word, second: &Word) -> Ordering
    ensures { result ≡ slice_cmp nat_cmp first.now second.now }
{
    if first == second {
        return Ordering::Equal;
    }
    first.bytes().cmp(second.bytes())
}

/// Whether two detections are of one epoch and one site.
pub(crate) fn are_of_one_exposure(first: &Detection, second: &Detection) -> bool
    ensures { result ≡ (int_eq first.now.epoch second.now.epoch &&
        pointwise nat_eq first.now.site second.now.site) }
{
    first.epoch == second.epoch && first.site == second.site
}
