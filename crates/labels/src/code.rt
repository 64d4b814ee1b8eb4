//! Folder codes.
use crate::kind::LabelKind;

/// A folder code: a number of 32 bits.
#[derive(Clone, Copy, PartialEq, Eq, Debug)]
pub struct FolderCode(pub u32);

impl LabelKind for FolderCode {}
