//! The nodes of a source, kept by their numbers.
ghost use Rattle.std.specs.Prelude.{◌≡◌, [], ◌∷◌, List, IfOk};
ghost use Rattle.sources.specs.Nodes.{nodes};
ghost use Rattle.sources.specs.declared.event.Event.{Event};
ghost use Rattle.labels.specs.declared.name.Name.{Name};
ghost use Rattle.compare.specs.Paths.{entries};
ghost use Rattle.compare.specs.Growing.{and_then};

use labels::name::Name;
use sources::event::Event;
use sources::source::Source;
use std::alloc::{AllocError, Global};

/// A node's parent, which a root lacks, and its name.
#[derive(Clone, Copy, PartialEq, Eq, Debug)]
pub struct Node {
    pub parent: Option<usize>,
    pub name: Name,
}

// The nodes so far, and the numbers of those still open, the last opened last.
#[derive(Drop)]
struct Growing {
    nodes: Vec<Node>,
    path: Vec<usize>,
}

impl Growing {
    fn new(heap: Global) -> Growing
        ensures { (es : List (Event Name)) → and_then result es ≡ nodes es }
    {
        Growing {
            nodes: Vec::new(heap),
            path: Vec::new(heap),
        }
    }

    #[tactic(auto, using(crate::proofs::TableLaws::opened))]
    fn add(&mut self, event: Event<Name>) -> Result<(), AllocError>
        ensures { IfOk result (λ _. (es : List (Event Name)) → and_then self.new es ≡ and_then self.old (event ∷ es)) }
    {
        match event {
            Event::Open(name) => {
                let parent = self.path.last().copied();
                self.path.push(self.nodes.len())?;
                self.nodes.push(Node { parent, name })?;
            }
            Event::Close => {
                self.path.pop();
            }
        }
        Ok(())
    }
}

/// The nodes of all events that the source still has to tell. A fault ends them as well: asked again, the source answers it again.
pub fn table<S: Source<Label = Name>>(source: &mut S, heap: Global) -> Result<Vec<Node>, AllocError>
    ensures nodes { IfOk result (λ table. entries table.items ≡ nodes (S.events source.old)) }
    ensures others { IfOk result (λ _. S.events source.new ≡ []) }
    ensures ending { S.ending source.new ≡ S.ending source.old }
{
    let mut growing = Growing::new(heap);
    while let Some(event) = source.next().unwrap_or(None) {
        growing.add(event)?;
    }
    Ok(growing.nodes)
}
