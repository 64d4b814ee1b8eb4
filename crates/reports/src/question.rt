//! The question that an input asks: a rule text in its first line.
ghost use Rattle.std.specs.Prelude.{◌≡◌, length, take, MatchResult};
ghost use Rattle.rules.specs.RuleNodes.{rule_nodes};
ghost use Rattle.reports.specs.Parts.{FirstAt};
ghost use Rattle.reports.specs.Reports.{Bad, QuestionOf};

use crate::refusal::{INPUT_LIMIT, Refusal};
use labels::name::Name;
use labels::spelling::rest;
use rules::rule::{NODE_LIMIT, Rule};

/// The rule of an input's first line, with the names of its named rule nodes at their numbers, and what is behind that line.
// Reading a rule text asks that the list of names have room for the most rule nodes.
#[derive(Drop)]
pub struct Question<'a> {
    pub rule: Rule,
    pub names: [Name; NODE_LIMIT],
    pub rest: &'a [u8],
}

/// The place of the first such byte, or the length.
pub fn first_at(byte: u8, input: &[u8]) -> usize
    ensures { FirstAt byte input.now result }
{
    input.iter().position(|b| *b == byte).unwrap_or(input.len())
}

impl<'a> Question<'a> {
    /// The question of an input that is not too long, and whose first line is a rule text.
    pub fn read(input: &'a [u8]) -> Result<Question<'a>, Refusal>
        ensures { MatchResult result (QuestionOf input.now) (Bad input.now) }
    {
        if input.len() > INPUT_LIMIT {
            return Err(Refusal::Input);
        }
        let end = first_at(b'\n', input);
        let mut rule = Rule::new();
        let mut names = [Name::empty(); NODE_LIMIT];
        rule.read_text(&input[..end], &mut names)?;
        Ok(Question {
            rule,
            names,
            rest: rest(input, end + 1),
        })
    }

    /// The names of the tests, by the numbers of the rule nodes.
    pub fn labels(&self) -> &[Name]
        ensures { result.now ≡ take (length (rule_nodes self.now.rule)) self.now.names }
    {
        &self.names[..self.rule.nodes().len()]
    }
}
