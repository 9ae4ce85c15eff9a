//! The limits of a window of nights and of an arc.

/// The most nights of a window.
pub const MOST_NIGHTS: i64 = 30;

/// An arc lasts less than so many ticks: thirty days.
pub const ARC_TICKS: i64 = 30_000_000;
