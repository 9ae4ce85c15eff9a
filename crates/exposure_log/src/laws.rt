//! What holds of each log and each delivery.
ghost use Rattle.exposure_log.specs.Laws.{AddIsUnique, AddExists, ExposuresAreUnique, ExposuresExist};

/// A law: a log has one way to take an exposure.
pub fn add_is_unique()
    ensures { AddIsUnique }
{}

/// A law: a log has a way to take each exposure.
pub fn add_exists()
    ensures { AddExists }
{}

/// A law: a delivery of detections has one list of exposures.
pub fn exposures_are_unique()
    ensures { ExposuresAreUnique }
{}

/// A law: each delivery of detections has exposures.
pub fn exposures_exist()
    ensures { ExposuresExist }
{}
