//! The tokens of a rule text and the rule nodes that it gives.
use crate::node::Edge;

#[derive(Clone, Copy, PartialEq, Eq)]
pub enum Kind {
    DoubleSlash,
    Slash,
    Dot,
    Open,
    Close,
    Star,
    Name,
    Stray,
    End,
}

#[derive(Clone, Copy)]
pub struct Token {
    pub kind: Kind,
    pub place: usize,
    pub len: usize,
}

/// A rule node as read: its test is the token.
#[derive(Clone, Copy)]
pub struct ParsedNode {
    pub parent: usize,
    pub edge: Edge,
    pub test: Token,
}

/// What stands in the unused places of an `ArrayVec`.
impl Default for ParsedNode {
    ghost use Rattle.std.specs.Prelude.{◌≡◌};
    ghost use Rattle.rules.specs.Lexing.{a_token};
    ghost use Rattle.rules.specs.Grammar.{node};
    ghost use Rattle.rules.specs.declared.syntax.Kind.TheVariants.{End};
    ghost use Rattle.rules.specs.declared.node.Edge.TheVariants.{Child};

    ghost is_default = { λ unused. unused ≡ node 0 Child (a_token End 0 0) };

    fn default() -> ParsedNode {
        let test = Token {
            kind: Kind::End,
            place: 0,
            len: 0,
        };
        ParsedNode {
            parent: 0,
            edge: Edge::Child,
            test,
        }
    }
}
