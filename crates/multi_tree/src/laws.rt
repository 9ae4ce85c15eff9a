//! What holds of fitting triples.
ghost use Rattle.multi_tree.specs.Laws.{FittingTriplesAreFittingSets};

/// A law: of three nights that follow one another within the time of an arc, in boxes made with the
/// tolerances of the settings, the fitting triples are the fitting sets of three tracklets.
pub fn fitting_triples_are_fitting_sets()
    ensures { FittingTriplesAreFittingSets }
{}
