//! The run: its calls, and its limits.
ghost use Rattle.std.specs.Prelude.{◌≡◌, length, OnErr};
ghost use Rattle.rules.specs.RuleNodes.{rule_nodes};
ghost use Rattle.runs.specs.Stands.{SetModel, Stands};

use crate::levels::Levels;
use crate::refusal::Refusal;
use crate::search::nodes_met;
use labels::kind::LabelKind;
use rules::rule::Rule;

/// The open nodes that a run has at most.
pub const DEPTH_LIMIT: usize = 128;

/// The waiting numbers that a run has at most.
pub const WAITING_LIMIT: usize = 64;

/// The openings that a run accepts at most.
pub const OPENINGS_LIMIT: u32 = 1_000_000;

/// A run of one rule. It stands for some state of the reference model.
#[derive(Drop)]
pub struct Run<'r> {
    pub(crate) rule: &'r Rule,
    pub(crate) state: Levels,
    ghost real: { ∥ ((m : SetModel) × Stands (rule_nodes rule.now) state m) ∥₁ },
}

impl<'r> Run<'r> {
    ghost use Rattle.runs.specs.declared.call.Call.TheVariants.{Close, Drop};
    ghost use Rattle.runs.specs.Answers.{told_by, opened, closed, dropped};
    ghost use Rattle.runs.specs.Model.{empty};
    ghost use Rattle.runs.specs.Calls.{StandsFor, Tells, Steps, Opening, Taking};

    /// A run of the rule with nothing open.
    #[tactic(auto, using(crate::proofs::RunLaws::new_stands, crate::proofs::RunLaws::new_real))]
    pub fn new(rule: &'r Rule) -> Run<'r>
        ensures rule { result.rule.now ≡ rule.now }
        ensures stands { StandsFor result empty }
    {
        Run {
            rule,
            state: Levels::new(),
        }
    }

    /// Opens a node, as a child of the innermost open one or as a root where none is open, and gives its number. `labels` has
    /// the labels of the tests by the numbers of the rule nodes.
    #[tactic(auto, using(crate::proofs::RunLaws::open_moves, crate::proofs::RunLaws::open_real, crate::proofs::RunLaws::run_kept))]
    pub fn open<L: LabelKind>(&mut self, labels: &[L], label: &L) -> Result<u32, Refusal>
        ensures step { Opening L.eq self.old labels.now label.now (told_by opened result) self.new }
        ensures refused { OnErr result (self.new ≡ self.old) }
    {
        let met = nodes_met(self.rule, labels, label);
        self.state.open(met)
    }

    /// Ends the innermost open node, and says whether it is selected.
    #[tactic(auto, using(crate::proofs::RunLaws::close_moves, crate::proofs::RunLaws::close_real, crate::proofs::RunLaws::run_kept))]
    pub fn close(&mut self) -> Result<bool, Refusal>
        ensures step { Steps self.old Close (told_by closed result) self.new }
        ensures refused { OnErr result (self.new ≡ self.old) }
    {
        self.state.close(self.rule)
    }

    /// Gives up the innermost open node: it and the nodes below it are no longer in the tree.
    #[tactic(auto, using(crate::proofs::RunLaws::drop_moves, crate::proofs::RunLaws::drop_real, crate::proofs::RunLaws::run_kept))]
    pub fn drop_open(&mut self) -> Result<(), Refusal>
        ensures step { Steps self.old Drop (told_by (λ _. dropped) result) self.new }
        ensures refused { OnErr result (self.new ≡ self.old) }
    {
        self.state.drop_open()
    }

    /// Moves the oldest waiting numbers to the front of `out`, as many as wait and fit, and says how many.
    #[tactic(auto, using(crate::proofs::RunLaws::take_moves, crate::proofs::RunLaws::take_real))]
    pub fn take(&mut self, out: &mut [u32]) -> usize
        ensures { Taking self.old out.old result out.new self.new }
    {
        self.state.take(out)
    }

    /// How many nodes are open.
    #[tactic(auto, using(crate::proofs::RunLaws::depth_tells))]
    pub fn open_count(&self) -> usize
        ensures { Tells self.now (λ m. length m.path) result }
    {
        self.state.depth
    }

    /// How many openings were accepted.
    #[tactic(auto, using(crate::proofs::RunLaws::opened_tells))]
    pub fn openings(&self) -> u32
        ensures { Tells self.now (λ m. length m.nodes) result }
    {
        self.state.opened
    }

    /// How many numbers wait.
    #[tactic(auto, using(crate::proofs::RunLaws::waiting_tells))]
    pub fn waiting_count(&self) -> usize
        ensures { Tells self.now (λ m. length m.waiting) result }
    {
        self.state.waiting
    }
}
