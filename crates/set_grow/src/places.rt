//! Where a tracklet stands.

/// Where a tracklet stands: the number of its night, and its place among the night's tracklets.
#[derive(Clone, Copy, Debug)]
pub struct Place {
    /// The number of the night.
    pub night: i64,
    /// The place, from 0.
    pub place: u32,
}
