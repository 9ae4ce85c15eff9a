//! Families of sets of numbers.

ghost use Rattle.std.specs.Prelude.{ℕ, List, ◌↔◌, IfOk, IsTrue};
ghost use Rattle.closed_sets.specs.Counting.{Rises};
ghost use Rattle.closed_sets.specs.Families.{IsHereditary, IsSet};

use sky_units::{NoMemory, Tally};

/// A family of sets of numbers: it says which sets fit, and every part of a fitting set fits.
pub trait Family {
    /// The sets that fit.
    ghost Fits: { Self → List ℕ → Type 0 };

    /// Whether a set fits. Its numbers rise. It counts at most one test. The only error is want of
    /// memory.
    fn fits(&self, set: &[u32], tally: &mut Tally) -> Result<bool, NoMemory>
        requires { IsSet set.now }
        ensures fits { IfOk result (λ fits. IsTrue fits ↔ Fits self.now set.now) }
        ensures tests { Rises 1 tally.old.tests tally.new.tests };

    /// What fits is a set, and so does every part of it.
    ghost hereditary: { (family : Self) → IsHereditary (Fits family) };
}
