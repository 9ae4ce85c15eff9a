//! The spots of several tracklets in one list.
ghost use Rattle.std.specs.Prelude.{◌≡◌, IfOk};
ghost use Rattle.sky_units.specs.TrackletData.{spots_of};

use crate::{NoMemory, Spot, Tracklet};
use std::alloc::Global;

/// The spots of tracklets, one tracklet after the other.
#[tactic(auto, using(crate::proofs::Steps::spots_one_more))]
pub fn joined_spots(alloc: Global, tracklets: &[Tracklet]) -> Result<Vec<Spot>, NoMemory>
    ensures { IfOk result (λ spots. spots.items ≡ spots_of tracklets.now) }
{
    let mut spots = Vec::new(alloc);
    for tracklet in tracklets {
        spots.extend_from_slice(tracklet.spots())?;
    }
    Ok(spots)
}
