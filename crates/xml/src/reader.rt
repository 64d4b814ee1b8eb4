//! The reader's state.
ghost use Rattle.std.specs.Prelude.{◌≡◌, ◌≤◌, false, [], length};

use arrayvec::ArrayVec;

// The elements that can be open at once.
pub(crate) const DEPTH_LIMIT: usize = 128;

// Reads tag by tag in the caller's bytes, of which it keeps no copy.
#[derive(Drop)]
pub(crate) struct Tags<'a> {
    pub(crate) input: &'a [u8],
    pub(crate) place: usize,
    // the names of the open elements, the innermost last
    pub(crate) opened: ArrayVec<&'a [u8], DEPTH_LIMIT>,
    // the root's start tag is past
    pub(crate) rooted: bool,
    ghost within: { place ≤ length input.now },
    ghost fresh: { rooted ≡ false → opened.items ≡ [] },
}

/// The reader: it reads tag by tag, and hands out two events for the tag of an empty element.
#[derive(Drop)]
pub struct Xml<'a> {
    pub(crate) tags: Tags<'a>,
    // an empty element is still to be closed
    pub(crate) closing: bool,
    ghost fresh: { tags.rooted ≡ false → closing ≡ false },
}
