//! What is proved of labels.
ghost use Rattle.std.specs.Prelude.{◌≡◌, ◌↔◌, true};
ghost use Rattle.std.specs.Cmp.{IsEquivalence};
ghost use Rattle.labels.specs.Names.{bytes_of, MakingInverse};
ghost use Rattle.labels.specs.declared.code.FolderCode.{FolderCode};
ghost use Rattle.labels.specs.declared.name.Name.{Name};

use crate::code::FolderCode;
use crate::kind::LabelKind;
use crate::name::Name;

/// The equality of every label kind is reflexive, symmetric and transitive.
pub fn label_equality_is_an_equivalence<L: LabelKind>()
    ensures { IsEquivalence L.eq }
{}

/// Names are equal exactly when they have the same bytes.
#[tactic(auto, using(crate::specs::NameLaws::equal_bytes, crate::specs::NameLaws::bytes_equal))]
pub fn names_are_equal_by_bytes()
    ensures { (a b : Name) → (⟦<Name as PartialEq>⟧.eq a b ≡ true) ↔ (bytes_of a ≡ bytes_of b) }
{}

/// Making a name from bytes and reading its bytes back are inverse.
pub fn making_and_reading_are_inverse()
    ensures { MakingInverse }
{}

/// Folder codes are equal exactly when they are the same number.
pub fn codes_are_equal_as_numbers()
    ensures { (a b : FolderCode) → (⟦<FolderCode as PartialEq>⟧.eq a b ≡ true) ↔ (a.0 ≡ b.0) }
{}
