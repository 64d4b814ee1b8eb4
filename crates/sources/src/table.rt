//! The folder table as a source.
ghost use Rattle.std.specs.Prelude.{◌≡◌, [], None};
ghost use Rattle.sources.specs.Events.{MeansOnly};
ghost use Rattle.sources.specs.Nodes.{nodes};
ghost use Rattle.sources.specs.Inner.{Shuts, SamePlace};
ghost use Rattle.sources.specs.Table.{table_events, table_ending, record_nodes, Listing};
ghost use Rattle.sources.specs.TableLaws.{table_nested};

use crate::event::Event;
use crate::fault::TableFault;
use crate::record::{FolderTable, Record};
use crate::source::Source;
use labels::kind::LabelKind;

impl<'a, L: LabelKind> FolderTable<'a, L> {
    /// A source of the nodes of the records.
    #[tactic(auto, using(crate::proofs::TableListed::new_table, crate::proofs::TableNodes::nodes_listed))]
    pub fn new(records: &'a [Record<L>]) -> FolderTable<'a, L>
        ensures meaning { MeansOnly (Listing 0 None [] records.now) (table_events result) (table_ending result) }
        ensures nodes { table_ending result ≡ None → nodes (table_events result) ≡ record_nodes 0 [] records.now }
    {
        FolderTable {
            records,
            place: 0,
            level: 0,
        }
    }

    // Closes the innermost node, if any is open.
    fn close(&mut self) -> Option<Event<L>>
        ensures shuts { Shuts self.old.level result self.new.level }
        ensures stays { SamePlace self.old self.new }
    {
        self.level = self.level.checked_sub(1)?;
        Some(Event::Close)
    }
}

impl<'a, L: LabelKind> Source for FolderTable<'a, L> {
    type Label = L;

    type Fault = TableFault;

    ghost events = { table_events };

    ghost ending = { table_ending };

    ghost nested = { table_nested };

    fn next(&mut self) -> Result<Option<Event<L>>, TableFault> {
        let Some(record) = self.records.get(self.place) else {
            return Ok(self.close());
        };
        let depth = record.depth as usize;
        if depth > self.level {
            return Err(TableFault::WrongDepth(self.place));
        }
        // Two tests, and no match on the order of the depths, which took half as long again.
        if depth < self.level {
            Ok(self.close())
        } else {
            self.place += 1;
            self.level = depth + 1;
            Ok(Some(Event::Open(record.label)))
        }
    }
}
