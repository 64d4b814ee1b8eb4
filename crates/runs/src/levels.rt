//! The state of a run, and what its calls do to it.
ghost use Rattle.std.specs.Prelude.{◌≡◌, ◌<◌, ◌≤◌, MatchResult, OnErr};
ghost use Rattle.rules.specs.RuleNodes.{rule_nodes};
ghost use Rattle.runs.specs.Limits.{depth_limit, waiting_limit, openings_limit};

use crate::edges::edges_met;
use crate::node_set::NodeSet;
use crate::refusal::Refusal;
use crate::run::{DEPTH_LIMIT, OPENINGS_LIMIT, WAITING_LIMIT};
use rules::rule::Rule;

/// An open node: the rule nodes whose tests it meets, those found at a closed child of it, those found at or below a closed
/// child of it, and its number.
#[derive(Clone, Copy)]
pub struct Level {
    pub met: NodeSet,
    pub child: NodeSet,
    pub below: NodeSet,
    pub number: u32,
}

/// The open nodes, outermost first, and the numbers that wait, in a ring with the oldest at `head`. Plain arrays with counts:
/// the state of a run has a fixed size, and the proofs speak of entries by their places.
#[derive(Clone, Copy)]
pub struct Levels {
    pub open: [Level; DEPTH_LIMIT],
    pub depth: usize,
    pub opened: u32,
    pub ring: [u32; WAITING_LIMIT],
    pub head: usize,
    pub waiting: usize,
    ghost deep: { depth ≤ depth_limit },
    ghost within: { head < waiting_limit },
    ghost few: { waiting ≤ waiting_limit },
    ghost counted: { opened ≤ openings_limit },
}

impl Level {
    ghost use Rattle.runs.specs.Words.{new_level};
    ghost use Rattle.runs.specs.LevelCalls.{joined, FoundAt};

    // A node that is opened: nothing was found below it yet.
    fn new(met: NodeSet, number: u32) -> Level
        ensures { result ≡ new_level met number }
    {
        Level {
            met,
            child: NodeSet::empty(),
            below: NodeSet::empty(),
            number,
        }
    }

    // The same node once a child of it is closed, at which `found` were found, and `below` at the nodes below it.
    fn join(self, found: NodeSet, below: NodeSet) -> Level
        ensures { result ≡ joined found below self }
    {
        Level {
            met: self.met,
            child: self.child.union(found),
            below: self.below.union(found.union(below)),
            number: self.number,
        }
    }

    // The rule nodes that are found at the node when it is closed: it meets their tests, and their edges are met.
    #[tactic(auto, using(crate::proofs::WordLaws::found_both))]
    fn found(&self, rule: &Rule) -> NodeSet
        ensures { FoundAt (rule_nodes rule.now) self.now result }
    {
        self.met
            .intersection(edges_met(rule, self.child, self.below))
    }
}

impl Levels {
    ghost use Rattle.runs.specs.Words.{words, no_words};
    ghost use Rattle.runs.specs.LevelCalls.{Opens, Closes, Drops, Takes, Innermost, Waits, WaitFails, Merges};

    /// Nothing open, nothing waiting.
    pub fn new() -> Levels
        ensures { words result ≡ no_words }
    {
        Levels {
            open: [Level::new(NodeSet::empty(), 0); DEPTH_LIMIT],
            depth: 0,
            opened: 0,
            ring: [0; WAITING_LIMIT],
            head: 0,
            waiting: 0,
        }
    }

    /// A new innermost open node that meets the tests `met`.
    #[tactic(auto, using(crate::proofs::WordLaws::opening))]
    pub fn open(&mut self, met: NodeSet) -> Result<u32, Refusal>
        ensures opens { Opens met (words self.old) result (words self.new) }
        ensures kept { OnErr result (self.new ≡ self.old) }
    {
        let at = self.depth;
        if at >= DEPTH_LIMIT {
            return Err(Refusal::TooDeep);
        }
        let number = self.opened;
        if number >= OPENINGS_LIMIT {
            return Err(Refusal::TooMany);
        }
        self.open[at] = Level::new(met, number);
        self.depth = at + 1;
        self.opened = number + 1;
        Ok(number)
    }

    /// Ends the innermost open node, and says whether it is selected.
    #[tactic(auto, using(crate::proofs::WordLaws::closing))]
    pub fn close(&mut self, rule: &Rule) -> Result<bool, Refusal>
        ensures closes { Closes (rule_nodes rule.now) (words self.old) result (words self.new) }
        ensures kept { OnErr result (self.new ≡ self.old) }
    {
        if self.depth == 0 {
            return Err(Refusal::NothingOpen);
        }
        let level = self.innermost();
        let found = level.found(rule);
        let selected = found.contains(0);
        if selected {
            self.wait(level.number)?;
        }
        self.merge(found, level.below);
        Ok(selected)
    }

    // The innermost open node.
    #[tactic(auto, using(crate::proofs::WordLaws::innermost_top))]
    fn innermost(&self) -> Level
        requires { 0 < self.now.depth }
        ensures { Innermost self.now result }
    {
        self.open[self.depth - 1]
    }

    /// Gives the innermost open node up.
    #[tactic(auto, using(crate::proofs::WordLaws::dropping))]
    pub fn drop_open(&mut self) -> Result<(), Refusal>
        ensures drops { Drops (words self.old) result (words self.new) }
        ensures kept { OnErr result (self.new ≡ self.old) }
    {
        if self.depth == 0 {
            return Err(Refusal::NothingOpen);
        }
        self.depth -= 1;
        Ok(())
    }

    // One waiting number more, unless as many wait as can.
    #[tactic(auto, using(crate::proofs::WordLaws::queued_wait))]
    fn wait(&mut self, number: u32) -> Result<(), Refusal>
        ensures { MatchResult result (λ _. Waits number self.old self.new) (λ f. WaitFails self.old f self.new) }
    {
        let count = self.waiting;
        if count >= WAITING_LIMIT {
            return Err(Refusal::WaitingFull);
        }
        self.ring[(self.head + count) % WAITING_LIMIT] = number;
        self.waiting = count + 1;
        Ok(())
    }

    // Ends the innermost open node, at which `found` were found, and `below` at the nodes below it.
    #[tactic(auto, using(crate::proofs::WordLaws::merged_below, crate::proofs::WordLaws::merged_root))]
    fn merge(&mut self, found: NodeSet, below: NodeSet)
        requires { 0 < self.old.depth }
        ensures { Merges found below self.old self.new }
    {
        let at = self.depth - 1;
        if at > 0 {
            self.open[at - 1] = self.open[at - 1].join(found, below);
        }
        self.depth = at;
    }

    /// Moves the oldest waiting numbers to the front of `out`, as many as wait and fit, and says how many.
    #[tactic(auto, using(crate::proofs::WordLaws::taking))]
    pub fn take(&mut self, out: &mut [u32]) -> usize
        ensures { Takes (words self.old) out.old result out.new (words self.new) }
    {
        let count = self.waiting.min(out.len());
        for (i, slot) in out[..count].iter_mut().enumerate() {
            *slot = self.ring[(self.head + i) % WAITING_LIMIT];
        }
        self.head = (self.head + count) % WAITING_LIMIT;
        self.waiting -= count;
        count
    }
}
