//! What a source tells.

/// An opening with the label of the node that it opens, or a closing of the last node still open.
#[derive(Clone, Copy, PartialEq, Eq, Debug)]
pub enum Event<L> {
    Open(L),
    Close,
}
