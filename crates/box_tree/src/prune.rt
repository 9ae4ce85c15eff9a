//! What a join wants, and what boxes tell of it.

ghost use Rattle.std.specs.Prelude.{◌≡◌, ℕ, Bool, true};
ghost use Rattle.box_tree.specs.declared.bounds.Bounds.{Bounds as Box};
ghost use Rattle.box_tree.specs.Boxes.{Covers};
ghost use Rattle.box_tree.specs.Counts.{Rises};

use crate::bounds::Bounds;
use crate::located::Located;
use sky_units::Tally;

/// Says which pairs of items are wanted, and of which boxes two items may be wanted.
pub trait Prune2<A: Located, B: Located> {
    /// Whether two items that lie in these boxes may be wanted.
    ghost allows: { Self → Box → Box → Bool };

    /// Whether two items are wanted.
    ghost wanted: { Self → A → B → Bool };

    /// Whether two items that lie in these boxes may be wanted.
    fn may(&self, a: &Bounds, b: &Bounds) -> bool
        ensures { result ≡ allows self.now a.now b.now };

    /// Whether two items are wanted. It counts at most one test.
    fn wants(&self, a: &A, b: &B, tally: &mut Tally) -> bool
        ensures value { result ≡ wanted self.now a.now b.now }
        ensures tests { Rises 1 tally.old.tests tally.new.tests };

    /// Where two items are wanted, all boxes that hold them are allowed.
    ghost loses_nothing: { (prune : Self) (a : A) (b : B) (box_a box_b : Box) →
        wanted prune a b ≡ true → Covers A.AXES (A.lows a) (A.highs a) box_a →
        Covers B.AXES (B.lows b) (B.highs b) box_b → allows prune box_a box_b ≡ true };
}

/// Says which triples of items are wanted, and of which boxes three items may be wanted.
pub trait Prune3<A: Located, B: Located, C: Located> {
    /// Whether three items that lie in these boxes may be wanted.
    ghost allows: { Self → Box → Box → Box → Bool };

    /// Whether three items are wanted.
    ghost wanted: { Self → A → B → C → Bool };

    /// Whether three items that lie in these boxes may be wanted.
    fn may(&self, a: &Bounds, b: &Bounds, c: &Bounds) -> bool
        ensures { result ≡ allows self.now a.now b.now c.now };

    /// Whether three items are wanted. It counts at most one test.
    fn wants(&self, a: &A, b: &B, c: &C, tally: &mut Tally) -> bool
        ensures value { result ≡ wanted self.now a.now b.now c.now }
        ensures tests { Rises 1 tally.old.tests tally.new.tests };

    /// Where three items are wanted, all boxes that hold them are allowed.
    ghost loses_nothing: { (prune : Self) (a : A) (b : B) (c : C) (box_a box_b box_c : Box) →
        wanted prune a b c ≡ true → Covers A.AXES (A.lows a) (A.highs a) box_a →
        Covers B.AXES (B.lows b) (B.highs b) box_b → Covers C.AXES (C.lows c) (C.highs c) box_c →
        allows prune box_a box_b box_c ≡ true };
}
