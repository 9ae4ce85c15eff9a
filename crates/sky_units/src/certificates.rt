//! Certificates that an axis does not admit detections.

/// Three or four detections that no admitted quadratic of an axis passes: the `num` of each, in
/// order of epoch.
#[derive(Clone, Copy, Debug, PartialEq, Eq)]
pub enum Cert {
    /// Three detections.
    Three([u32; 3]),
    /// Four detections, where each three of the asked ones are admitted.
    Four([u32; 4]),
}
