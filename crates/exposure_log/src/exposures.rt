//! Exposures, and gathering detections into them.
ghost use Rattle.std.specs.Prelude.{◌≡◌, ℕ, ◌<◌, ◌≤◌, ◌^◌, ◌-◌, IfOk, OnOk, length, take, drop, slice_index_or};
ghost use Rattle.std.specs.List.{All, AllPairs, flat_map};
ghost use Rattle.std.specs.Vec.{vec_len};
ghost use Rattle.miti_text.specs.Observation.{Observation};
ghost use Rattle.exposure_log.specs.Deliveries.{AreExposuresOf, IsOneExposure};
ghost use Rattle.exposure_log.specs.Gathered.{Precedes, NotAfter, IsOfOneExposure};
ghost use Rattle.exposure_log.specs.Exposures.{IsExposure, IdsDontFall};

use crate::canonical::{are_of_one_exposure, sort};
use miti_text::Detection;
use sky_units::{NoMemory, Word};
use std::alloc::Global;
use std::marker::Model;
use std::mem;

/// An exposure: from one to 2^32 - 1 detections of one epoch and one site, in order of their ids.
#[derive(Drop)]
pub struct Exposure {
    epoch: i64,
    site: Word,
    detections: Vec<Detection>,
}

impl Model for Exposure {
    ghost use Rattle.exposure_log.specs.Held.{ExposureData};
    ghost use Rattle.exposure_log.specs.Exposures.{IsExposure};

    ghost Value = { ExposureData };

    ghost view = { λ x. record {
      epoch = x.epoch;
      site = x.site;
      detections = x.detections.items;
    } };

    ghost invariant = { λ x. IsExposure
        (record { epoch = x.epoch; site = x.site; detections = x.detections.items }) };
}

impl Exposure {
    /// The epoch, in ticks.
    pub fn epoch(&self) -> i64
        ensures value { result ≡ self.now.epoch }
        ensures keeps { IsExposure self.now }
    {
        self.epoch
    }

    /// The bytes of the site.
    pub fn site(&self) -> &[u8]
        ensures { result.now ≡ self.now.site }
    {
        self.site.bytes()
    }

    /// The detections, in order of their ids.
    pub fn detections(&self) -> &[Detection]
        ensures value { result.now ≡ self.now.detections }
        ensures keeps { IsExposure self.now }
    {
        self.detections.as_slice()
    }

    /// An exposure of the same detections.
    pub(crate) fn copy(&self, alloc: Global) -> Result<Exposure, NoMemory>
        ensures { IfOk result (λ copy. copy ≡ self.now) }
    {
        Ok(Exposure {
            epoch: self.epoch,
            site: self.site.clone()?,
            detections: copies_of(alloc, self.detections.as_slice())?,
        })
    }

    /// The epoch, the site and the detections, none of them copied.
    pub(crate) fn into_parts(self) -> (i64, Word, Vec<Detection>)
        ensures epoch { result.0 ≡ self.epoch }
        ensures site { result.1 ≡ self.site }
        ensures detections { result.2.items ≡ self.detections }
        ensures keeps { IsExposure self }
    {
        (self.epoch, self.site, self.detections)
    }
}

/// Detections of the same fields.
fn copies_of(alloc: Global, detections: &[Detection]) -> Result<Vec<Detection>, NoMemory>
    ensures { IfOk result (λ copies. copies.items ≡ detections.now) }
{
    let mut copies = Vec::with_capacity(alloc, detections.len())?;
    for detection in detections {
        copies.push(copy_of(detection)?)?;
    }
    Ok(copies)
}

/// A detection of the same fields.
fn copy_of(detection: &Detection) -> Result<Detection, NoMemory>
    ensures { IfOk result (λ copy. copy ≡ detection.now) }
{
    Ok(Detection {
        id: detection.id.clone()?,
        epoch: detection.epoch,
        ra: detection.ra,
        dec: detection.dec,
        mag: detection.mag,
        site: detection.site.clone()?,
        name: detection.name.clone()?,
    })
}

/// The exposures of the detections, in order of epoch and site. Within each the detections stand in
/// order of their ids; equal ids keep their order.
pub fn gather(alloc: Global, list: Vec<Detection>) -> Result<Vec<Exposure>, NoMemory>
    requires { vec_len list < 2 ^ 32 }
    ensures { IfOk result (λ exposures. AreExposuresOf list.items exposures.items) }
{
    let mut sorted = list;
    sort(&mut sorted)?;
    cut(alloc, sorted)
}

/// Cuts a list in canonical order into its exposures, the last first.
fn cut(alloc: Global, sorted: Vec<Detection>) -> Result<Vec<Exposure>, NoMemory>
    requires few { vec_len sorted < 2 ^ 32 }
    requires order { AllPairs NotAfter sorted.items }
    ensures { IfOk result (λ exposures. AllPairs Precedes exposures.items ×
        All IsOneExposure exposures.items ×
        (flat_map (λ x. x.detections) exposures.items ≡ sorted.items)) }
{
    let mut rest = sorted;
    let mut exposures = Vec::new(alloc);
    while !rest.is_empty() {
        let start = start_of_last(rest.as_slice());
        let last = split_from(alloc, &mut rest, start)?;
        exposures.push(exposure_of(alloc, last)?)?;
    }
    exposures.reverse();
    Ok(exposures)
}

/// The place from which on all detections are of one exposure with the last, of a list in canonical
/// order. Where the first is, all are.
fn start_of_last(list: &[Detection]) -> usize
    requires some { 0 < length list.now }
    requires order { AllPairs NotAfter list.now }
    ensures within { result < length list.now }
    ensures last { (k : ℕ) (d : Observation) → result ≤ k → k < length list.now →
        IsOfOneExposure (slice_index_or list.now k d)
        (slice_index_or list.now (length list.now - 1) d) }
    ensures other { (d : Observation) → 0 < result →
        IsOfOneExposure (slice_index_or list.now (result - 1) d)
        (slice_index_or list.now (length list.now - 1) d) → ⊥ }
{
    let last = &list[list.len() - 1];
    if are_of_one_exposure(&list[0], last) {
        return 0;
    }
    let mut start = list.len() - 1;
    while start > 0 {
        if !are_of_one_exposure(&list[start - 1], last) {
            return start;
        }
        start -= 1;
    }
    start
}

/// Takes out the detections from a place on; where these are all, none is moved.
fn split_from(
    alloc: Global,
    list: &mut Vec<Detection>,
    start: usize,
) -> Result<Vec<Detection>, NoMemory>
    requires within { start ≤ vec_len list.old }
    ensures kept { OnOk result (list.new.items ≡ take start list.old.items) }
    ensures taken { IfOk result (λ out. out.items ≡ drop start list.old.items) }
{
    if start == 0 {
        return Ok(mem::replace(list, Vec::new(alloc)));
    }
    list.split_off(start)
}

/// The exposure of these detections, which are of one epoch and one site, in order of their ids.
fn exposure_of(alloc: Global, detections: Vec<Detection>) -> Result<Exposure, NoMemory>
    requires some { 0 < vec_len detections }
    requires few { vec_len detections < 2 ^ 32 }
    requires one_exposure { (d : Observation) →
        All (λ e. IsOfOneExposure e
        (slice_index_or detections.items (length detections.items - 1) d)) detections.items }
    requires order { IdsDontFall detections.items }
    ensures { IfOk result (λ x. (x.detections ≡ detections.items) × IsExposure x) }
{
    let last = &detections[detections.len() - 1];
    let epoch = last.epoch;
    let site = Word::new(alloc, last.site.bytes())?;
    Ok(Exposure {
        epoch,
        site,
        detections,
    })
}
