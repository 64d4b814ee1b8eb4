//! One side of a comparison.
ghost use Rattle.std.specs.Prelude.{IfOk};
ghost use Rattle.selection.specs.Answers.{answered};
ghost use Rattle.compare.specs.Compared.{SideOf};

use crate::node::{Node, table};
use reports::report::Report;
use selection::refusal::SelectFault;
use std::alloc::{AllocError, Global};
use xml::fault::XmlFault;
use xml::reader::Xml;

/// The nodes of a listing, and what is reported of the selection from it.
#[derive(Drop)]
pub struct Side {
    pub nodes: Vec<Node>,
    pub report: Report,
}

impl Side {
    /// The side of a listing from which a selection answered so.
    #[tactic(auto, using(crate::proofs::ComparedLaws::table_of))]
    pub fn new(
        listing: &[u8],
        answer: Result<usize, SelectFault<XmlFault>>,
        heap: Global,
    ) -> Result<Side, AllocError>
        ensures { IfOk result (SideOf listing.now (answered answer)) }
    {
        let mut source = Xml::new(listing);
        Ok(Side {
            nodes: table(&mut source, heap)?,
            report: Report::of_selection(answer, listing.len()),
        })
    }
}
