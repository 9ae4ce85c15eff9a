//! The join of three trees of boxes.
ghost use Rattle.std.specs.Prelude.{length, IfOk};
ghost use Rattle.box_tree.specs.Counts.{Rises};
ghost use Rattle.multi_tree.specs.Triples.{AreFittingTriples, allowed_triples};

use bound_prune::{TrackletBox, TriplePrune};
use box_tree::{Tree, join_three};
use sky_units::{NoMemory, Settings, Tally};
use std::alloc::Global;

/// The fitting triples of three nights in order of time, in lexicographic order: the place of a
/// tracklet in each tree (the definition `IsFittingTriple`).
///
/// The tally rises by at most the number of triples whose own boxes may be of one object (the
/// definition `allowed_triples`). The only error is want of memory.
pub fn seeds(
    alloc: Global,
    a: &Tree<TrackletBox>,
    b: &Tree<TrackletBox>,
    c: &Tree<TrackletBox>,
    settings: &Settings,
    tally: &mut Tally,
) -> Result<Vec<(usize, usize, usize)>, NoMemory>
    ensures triples { IfOk result (λ found.
        AreFittingTriples settings.now a.now b.now c.now found.items) }
    ensures tests { Rises (length (allowed_triples settings.now a.now b.now c.now))
        tally.old.tests tally.new.tests }
{
    let prune = TriplePrune::new(*settings);
    join_three(alloc, a, b, c, &prune, tally)
}
