//! What asked detections are.
use crate::{Axis, Cert};

/// What the detections of an asked list of ids are. Places are counted from 0 in that list, tracks
/// from 1 in the report.
#[derive(Clone, Copy, Debug, PartialEq, Eq)]
pub enum Asked {
    /// They are the track of this number.
    Listed(u64),
    /// The track of this number is the first that properly contains them.
    Inside(u64),
    /// Those of this night, the least such, aren't one of its tracklets.
    NotTracklet(i64),
    /// They lie in so many nights, which are fewer than three.
    FewNights(u32),
    /// The two at these places are too far apart on the axis.
    Spread(Axis, u32, u32),
    /// Some axis doesn't admit them: the certificates on right ascension and on declination, of the
    /// places of three or four detections.
    Misfit(Option<Cert>, Option<Cert>),
}
