//! What holds of the kept sets of any family, before and after a change.
ghost use Rattle.std.specs.Prelude.{ℕ, ◌≡◌, ◌↔◌, List};
ghost use Rattle.std.specs.List.{Contains};
ghost use Rattle.kept_sets.specs.Changes.{AreReady, IsAfter, IsStep, IsTop};
ghost use Rattle.kept_sets.specs.Kept.{AreKept, IsKept};
ghost use Rattle.kept_sets.specs.Lists.{AreDifferent};

/// A family of sets of items, told by which sets fit.
pub trait SetFamily {
    /// Whether a set fits.
    ghost fits: { Self → List ℕ → Type 0 };
}

/// A law: the closed sets of three or more after a change are those grown sets and old sets without
/// what went that have three or more items and lie properly in no other.
pub fn kept_are_top<Old: SetFamily, New: SetFamily>()
    ensures { (before : Old) (after : New) (went came : List ℕ) (old grown : List (List ℕ)) →
        IsStep (Old.fits before) (New.fits after) went came old grown →
        (set : List ℕ) → IsKept (New.fits after) set ↔ IsTop went old grown set }
{}

/// A law: they are also the old sets that stay, the rests that stay, and the grown sets.
pub fn kept_are_after<Old: SetFamily, New: SetFamily>()
    ensures { (before : Old) (after : New) (went came : List ℕ) (old grown : List (List ℕ)) →
        IsStep (Old.fits before) (New.fits after) went came old grown →
        (set : List ℕ) → IsKept (New.fits after) set ↔ IsAfter went came old grown set }
{}

/// A law: the kept sets of a family are ready for each change of it.
pub fn kept_are_ready<Old: SetFamily, New: SetFamily>()
    ensures { (before : Old) (after : New) (went came : List ℕ) (old grown : List (List ℕ)) →
        IsStep (Old.fits before) (New.fits after) went came old grown →
        AreReady went came old grown }
{}

/// A law: different sets that are exactly what a change leaves are the kept sets after it.
pub fn changed_are_kept<Old: SetFamily, New: SetFamily>()
    ensures { (before : Old) (after : New) (went came : List ℕ) (old grown now : List (List ℕ)) →
        IsStep (Old.fits before) (New.fits after) went came old grown →
        AreDifferent now → ((set : List ℕ) → Contains now set ↔ IsAfter went came old grown set) →
        AreKept (New.fits after) now }
{}
