//! What a kind of labels is.
ghost use Rattle.std.specs.Prelude.{◌≡◌, ℕ, Bool, List};
ghost use Rattle.labels.specs.Names.{Making};

use crate::name::NameRefusal;

/// A kind of labels means an equality of labels, which `Eq` proves reflexive, symmetric and transitive.
pub trait LabelKind: Copy + Eq {}

/// A kind of labels that are spelled as names.
pub trait NameLabel: LabelKind {
    // the bytes of a label
    ghost spelled: { Self → List ℕ };

    // which bytes are equal as names of this kind
    ghost alike: { List ℕ → List ℕ → Bool };

    /// The label with these bytes, unless they are too many.
    fn from_bytes(bytes: &[u8]) -> Result<Self, NameRefusal>
        ensures { Making spelled bytes.now result };

    // labels are equal exactly when their bytes are equal as names
    ghost tied: { (a b : Self) → Self.eq a b ≡ alike (spelled a) (spelled b) };
}
