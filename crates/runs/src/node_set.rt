//! Sets of rule nodes.
ghost use Rattle.std.specs.Prelude.{◌≡◌, ℕ, ◌^◌, ◌<◌, ◌⊎◌, ◌↔◌, Decides, bit_or};
ghost use Rattle.runs.specs.Bits.{Has};

use std::marker::Model;

/// A set of the numbers 0 to 63, as the bits of a word.
#[derive(Clone, Copy, PartialEq, Eq, Debug)]
pub struct NodeSet {
    word: u64,
}

impl Model for NodeSet {
    ghost Value = { ℕ };

    ghost view = { λ s. s.word };

    ghost invariant = { λ s. s.word < 2 ^ 64 };

    ghost inverse = { λ w. record { word = w } };
}

impl NodeSet {
    /// No number.
    #[tactic(auto, using(crate::proofs::BitLaws::has_none))]
    pub fn empty() -> NodeSet
        ensures word { result ≡ 0 }
        ensures members { (x : ℕ) → Has result x → ⊥ }
    {
        NodeSet { word: 0 }
    }

    /// Whether the number is in the set.
    #[tactic(auto, using(crate::proofs::BitLaws::contains_told))]
    pub fn contains(self, number: usize) -> bool
        ensures { Decides result (Has self number) }
    {
        let word = self.word;
        number < 64 && (word >> number) & 1 == 1
    }

    /// Adds the number, if it is below 64.
    #[tactic(auto, using(crate::proofs::BitLaws::insert_told, crate::proofs::BitLaws::insert_fits))]
    pub fn insert(&mut self, number: usize)
        ensures { (x : ℕ) → Has self.new x ↔ (Has self.old x ⊎ ((x ≡ number) × (number < 64))) }
    {
        if number < 64 {
            self.word |= 1 << number;
        }
    }

    /// What is in both.
    #[tactic(auto, using(crate::proofs::BitLaws::intersection_told))]
    pub fn intersection(self, other: NodeSet) -> NodeSet
        ensures { (x : ℕ) → Has result x ↔ (Has self x × Has other x) }
    {
        NodeSet {
            word: self.word & other.word,
        }
    }

    /// What is in at least one of them.
    #[tactic(auto, using(crate::proofs::BitLaws::union_told, crate::proofs::BitLaws::or_fits))]
    pub fn union(self, other: NodeSet) -> NodeSet
        ensures word { result ≡ bit_or self other }
        ensures members { (x : ℕ) → Has result x ↔ (Has self x ⊎ Has other x) }
    {
        NodeSet {
            word: self.word | other.word,
        }
    }

    /// The numbers below `count`, of those below 64, that are not in the set.
    #[tactic(auto, using(crate::proofs::BitLaws::missing_none, crate::proofs::BitLaws::missing_told))]
    pub fn missing_below(self, count: usize) -> NodeSet
        ensures { (x : ℕ) → Has result x ↔ ((x < count) × (x < 64) × (Has self x → ⊥)) }
    {
        if count == 0 {
            return NodeSet::empty();
        }
        let few = count.min(64);
        NodeSet {
            word: (u64::MAX >> (64 - few)) & !self.word,
        }
    }
}

// The numbers of the bits that are set.
impl From<u64> for NodeSet {
    ghost from_gives = { λ word set. set ≡ word };

    fn from(word: u64) -> NodeSet {
        NodeSet { word }
    }
}

impl From<NodeSet> for u64 {
    ghost from_gives = { λ set word. word ≡ set };

    fn from(set: NodeSet) -> u64 {
        set.word
    }
}
