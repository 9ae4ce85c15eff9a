//! What an exchange of tracklets does to the sets that fit, and what nights with numbers are.
ghost use Rattle.tracklet_register.specs.Laws.{ExchangeChangesFits, ExchangesFollow, FitsAreOfFinitelyMany, NumberedNightsAreInPlace, NumberedNightsAreNumbered};

/// A law: where tracklets are exchanged, what fits is what fitted, without those that went, and
/// with those that came.
pub fn exchange_changes_fits()
    ensures { ExchangeChangesFits }
{}

/// A law: nights in order of time that follow one another are in place once they have the numbers
/// of a register, with its table.
pub fn numbered_nights_are_in_place()
    ensures { NumberedNightsAreInPlace }
{}

/// A law: the sets that fit are made of the numbers of the nights, which are finitely many.
pub fn fits_are_of_finitely_many()
    ensures { FitsAreOfFinitelyMany }
{}

/// A law: where no night has a tracklet twice, no two tracklets of nights with the numbers of a
/// register have one number, and none has two.
pub fn numbered_nights_are_numbered()
    ensures { NumberedNightsAreNumbered }
{}

/// A law: two exchanges one after the other are one, where nothing that went by the first comes by
/// the second.
pub fn exchanges_follow()
    ensures { ExchangesFollow }
{}
