/// What a linker holds and what it finds in it.
#[derive(Clone, Copy, Debug, PartialEq, Eq)]
pub struct Stats {
    /// The exposures held.
    pub exposures: u32,
    /// The detections held.
    pub detections: u32,
    /// The tracklets of all nights together.
    pub tracklets: u64,
    /// The maximal tracks.
    pub tracks: u64,
}
