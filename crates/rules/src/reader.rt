//! The readers of path, step and predicate.
ghost use Rattle.std.specs.Prelude.{◌≤◌, length, MatchResult};
ghost use Rattle.std.specs.List.{AllByRecursion};
ghost use Rattle.std.proofs.Props.{props};
ghost use Rattle.rules.specs.Parsing.{InText, Parses, ParseFails};
ghost use Rattle.rules.specs.Machine.{Next};

use crate::lexer::next_token;
use crate::node::Edge;
use crate::refusal::TextRefusal;
use crate::rule::NODE_LIMIT;
use crate::syntax::{Kind, ParsedNode, Token};
use arrayvec::ArrayVec;
use labels::spelling::NAME_LIMIT;

// The bytes that a rule text has at most.
const TEXT_LIMIT: usize = 1024;

// The brackets that are open in it at most.
const BRACKET_LIMIT: usize = 16;

// Reads a rule text, and notes its rule nodes by the places of their tests.
#[derive(Drop)]
struct Reader<'a> {
    text: &'a [u8],
    at: usize,
    // the token that comes next
    next: Token,
    nodes: ArrayVec<ParsedNode, NODE_LIMIT>,
    ghost within: { at ≤ length text.now },
    ghost upcoming: { Next text.now at next } by { Prim.hlevel props },
    ghost in_text: { AllByRecursion (InText text.now) nodes.items } by { Prim.hlevel props },
}

impl<'a> Reader<'a> {
    ghost use Rattle.std.specs.Prelude.{◌≡◌, MatchOption};
    ghost use Rattle.rules.specs.Readers.{Fresh, left, front, Expected, Unexpected, Noted, NoteFails, Begun, BeginFails, Joined, Unjoined, StepRead, StepFails, PredicateRead, PredicateFails, PathRead, PathFails};
    ghost use Rattle.rules.specs.declared.syntax.Kind.TheVariants.{Open};

    // At the front of the text.
    fn new(text: &'a [u8]) -> Self
        ensures { Fresh text.now result }
    {
        Reader {
            text,
            at: 0,
            next: next_token(text, 0),
            nodes: ArrayVec::new(),
        }
    }

    // Passes the next token, and looks at the one behind it.
    fn pass(&mut self)
        ensures { Expected self.old self.new self.old.next.kind }
    {
        self.at = self.next.place + self.next.len;
        self.next = next_token(self.text, self.at);
    }

    // Passes the next token, which must be of this kind.
    fn expect(&mut self, kind: Kind) -> Result<(), TextRefusal>
        ensures { MatchResult result (λ _. Expected self.old self.new kind) (Unexpected self.old kind) }
    {
        if self.next.kind != kind {
            return Err(TextRefusal::NotAllowed(self.next.place));
        }
        self.pass();
        Ok(())
    }

    // Notes the rule node of the test that comes next, and passes it.
    fn note(&mut self, parent: usize, edge: Edge) -> Result<usize, TextRefusal>
        ensures { MatchResult result (Noted self.old self.new parent edge) (NoteFails self.old parent edge) }
    {
        let test = self.next;
        if test.kind != Kind::Name && test.kind != Kind::Star {
            return Err(TextRefusal::NotAllowed(test.place));
        }
        if self.nodes.is_full() {
            return Err(TextRefusal::ManyTests(test.place));
        }
        if test.kind == Kind::Name && test.len > NAME_LIMIT {
            return Err(TextRefusal::LongName(test.place));
        }
        let number = self.nodes.len();
        self.nodes.push(ParsedNode { parent, edge, test });
        self.pass();
        Ok(number)
    }

    // Reads the `.//` of a path, if any.
    fn begin(&mut self) -> Result<Edge, TextRefusal>
        ensures { MatchResult result (Begun self.old self.new) (BeginFails self.old) }
    {
        if self.next.kind != Kind::Dot {
            return Ok(Edge::Child);
        }
        self.pass();
        self.expect(Kind::DoubleSlash)?;
        Ok(Edge::Descendant)
    }

    // Reads the `/` or `//` in front of a further step, if any.
    fn between(&mut self) -> Option<Edge>
        ensures { MatchOption result (Unjoined self.old self.new) (Joined self.old self.new) }
    {
        let edge = match self.next.kind {
            Kind::Slash => Edge::Child,
            Kind::DoubleSlash => Edge::Descendant,
            _ => return None,
        };
        self.pass();
        Some(edge)
    }

    // Reads a path in a predicate of the step `parent`, where so many brackets may still be opened.
    #[cycle(path_predicate_step)]
    fn path(&mut self, parent: usize, room: usize) -> Result<(), TextRefusal>
        ensures { MatchResult result
            (λ _. PathRead self.old self.new parent room)
            (PathFails self.old parent room) }
    {
        let edge = self.begin()?;
        let mut last = self.step(parent, edge, room)?;
        while let Some(edge) = self.between() {
            last = self.step(last, edge, room)?;
        }
        Ok(())
    }

    // Reads a step with its predicates, and answers its number.
    #[cycle(path_predicate_step)]
    fn step(&mut self, parent: usize, edge: Edge, room: usize) -> Result<usize, TextRefusal>
        ensures { MatchResult result
            (StepRead self.old self.new parent edge room)
            (StepFails self.old parent edge room) }
    {
        let number = self.note(parent, edge)?;
        while self.next.kind == Kind::Open {
            self.predicate(number, room)?;
        }
        Ok(number)
    }

    // Reads a predicate of the step `parent`, brackets and all.
    #[cycle(path_predicate_step)]
    fn predicate(&mut self, parent: usize, room: usize) -> Result<(), TextRefusal>
        requires { front (left self.old) ≡ Open }
        ensures { MatchResult result
            (λ _. PredicateRead self.old self.new parent room)
            (PredicateFails self.old parent room) }
    {
        if room == 0 {
            return Err(TextRefusal::DeepBracket(self.next.place));
        }
        self.expect(Kind::Open)?;
        self.path(parent, room - 1)?;
        self.expect(Kind::Close)
    }
}

/// The rule nodes of a rule text, in order, with their tests.
#[tactic(auto, using(crate::proofs::Going::empty_fails, crate::proofs::Going::long_fails, crate::proofs::Going::start_fails, crate::proofs::Going::step_fails, crate::proofs::Going::stepped, crate::proofs::Going::end_fails))]
pub fn parse(text: &[u8]) -> Result<ArrayVec<ParsedNode, NODE_LIMIT>, TextRefusal>
    ensures { MatchResult result (λ p. Parses text.now p.items) (ParseFails text.now) }
{
    if text.is_empty() || text.len() > TEXT_LIMIT {
        return Err(TextRefusal::Length);
    }
    let mut reader = Reader::new(text);
    reader.expect(Kind::DoubleSlash)?;
    reader.step(0, Edge::Child, BRACKET_LIMIT)?;
    reader.expect(Kind::End)?;
    Ok(reader.nodes)
}
