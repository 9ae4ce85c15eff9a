//! Words, and lists of words.
ghost use Rattle.std.specs.Prelude.{◌≡◌, ◌++◌, ◌∷◌, [], nat_eq, Some, refl, IfOk, OnOk, OnErr};
ghost use Rattle.std.specs.Ordering.{nat_cmp};
ghost use Rattle.std.specs.Cmp.Lexicographic.{pointwise, slice_cmp, nat_list_eq_equiv, nat_list_cmp_total, texts_ties, texts_po};
ghost use Rattle.std.specs.Cmp.{partial_equiv_from_equiv};

use crate::NoMemory;
use smallvec::SmallVec;
use std::alloc::{AllocError, Global};
use std::cmp::Ordering;
use std::marker::Model;

/// A word: a list of bytes, as an id, a site or a name. Its order is that of its bytes.
///
/// Up to sixteen bytes lie in the value itself, and take no memory beside it.
#[derive(Debug, Drop)]
pub struct Word {
    bytes: SmallVec<u8, 16>,
}

impl Model for Word {
    ghost use Rattle.std.specs.Prelude.{ℕ, List};

    ghost Value = { List ℕ };

    ghost view = { λ w. w.bytes.items };
}

impl Word {
    /// The word of these bytes.
    pub fn new(alloc: Global, bytes: &[u8]) -> Result<Word, NoMemory>
        ensures { IfOk result (λ word. word ≡ bytes.now) }
    {
        Ok(Word {
            bytes: SmallVec::from_slice(alloc, bytes)?,
        })
    }

    /// The bytes of the word.
    pub fn bytes(&self) -> &[u8]
        ensures { result.now ≡ self.now }
    {
        self.bytes.as_slice()
    }
}

impl Clone for Word {
    ghost is_clone = { λ word copy. copy ≡ word };

    fn clone(&self) -> Result<Word, AllocError> {
        Ok(Word {
            bytes: SmallVec::from_slice(*self.bytes.allocator(), self.bytes())?,
        })
    }
}

impl PartialEq for Word {
    ghost eq = { pointwise nat_eq };

    ghost laws = { partial_equiv_from_equiv nat_list_eq_equiv };

    fn eq(&self, other: &Word) -> bool {
        self.bytes() == other.bytes()
    }
}

impl Eq for Word {
    ghost laws = { nat_list_eq_equiv };
}

impl PartialOrd for Word {
    ghost partial_cmp = { λ x y. Some (slice_cmp nat_cmp x y) };

    ghost laws = { texts_po };

    fn partial_cmp(&self, other: &Word) -> Option<Ordering> {
        Some(self.cmp(other))
    }
}

impl Ord for Word {
    ghost cmp = { slice_cmp nat_cmp };

    ghost total = { nat_list_cmp_total };

    ghost matches_partial_cmp = { λ x y. refl };

    ghost matches_eq = { texts_ties };

    fn cmp(&self, other: &Word) -> Ordering {
        self.bytes().cmp(other.bytes())
    }
}

/// A list of words.
#[derive(Debug, Drop)]
pub struct Words {
    items: Vec<Word>,
}

impl Model for Words {
    ghost use Rattle.std.specs.Prelude.{ℕ, List};

    ghost Value = { List (List ℕ) };

    ghost view = { λ w. w.items.items };
}

impl Words {
    /// No words. This takes no memory.
    pub fn new(alloc: Global) -> Words
        ensures { result ≡ [] }
    {
        Words {
            items: Vec::new(alloc),
        }
    }

    /// Adds a word at the end.
    pub fn push(&mut self, item: Word) -> Result<(), NoMemory>
        ensures ok { OnOk result (self.new ≡ self.old ++ item ∷ []) }
        ensures err { OnErr result (self.new ≡ self.old) }
    {
        self.items.push(item)?;
        Ok(())
    }

    /// The words, in order.
    pub fn items(&self) -> &[Word]
        ensures { result.now ≡ self.now }
    {
        self.items.as_slice()
    }
}

/// A list of lists of words, as the ids of each of some tracklets.
#[derive(Debug, Drop)]
pub struct Groups {
    items: Vec<Words>,
}

impl Model for Groups {
    ghost use Rattle.std.specs.Prelude.{ℕ, List};

    ghost Value = { List (List (List ℕ)) };

    ghost view = { λ g. g.items.items };
}

impl Groups {
    /// No groups. This takes no memory.
    pub fn new(alloc: Global) -> Groups
        ensures { result ≡ [] }
    {
        Groups {
            items: Vec::new(alloc),
        }
    }

    /// Adds a group at the end.
    pub fn push(&mut self, item: Words) -> Result<(), NoMemory>
        ensures ok { OnOk result (self.new ≡ self.old ++ item ∷ []) }
        ensures err { OnErr result (self.new ≡ self.old) }
    {
        self.items.push(item)?;
        Ok(())
    }

    /// The groups, in order.
    pub fn items(&self) -> &[Words]
        ensures { result.now ≡ self.now }
    {
        self.items.as_slice()
    }
}
