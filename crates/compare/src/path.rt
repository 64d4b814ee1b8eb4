//! The paths of nodes.
ghost use Rattle.std.specs.Prelude.{◌≡◌, ◌++◌, codes, Decides, IfOk, OnOk};
ghost use Rattle.labels.specs.Names.{bytes_of};
ghost use Rattle.compare.specs.Paths.{entries, SamePath, Counted, SameOften, AllSameOften, Agree, Pushed};

use crate::node::Node;
use labels::name::Name;
use std::alloc::AllocError;

// Whether two nodes have equal names.
#[tactic(auto, using(labels::specs::NameLaws::equal_bytes, labels::specs::NameLaws::bytes_equal))]
fn same_name(one: &Node, two: &Node) -> bool
    ensures { Decides result (bytes_of one.now.name ≡ bytes_of two.now.name) }
{
    one.name == two.name
}

/// Whether two nodes have the same path: equal names, and no parents, or parents with the same path.
#[tactic(auto, using(crate::proofs::PathLaws::same_laws))]
pub fn same_path(first: &[Node], u: usize, second: &[Node], v: usize) -> bool
    ensures { Decides result (SamePath (entries first.now) (entries second.now) u v) }
{
    let mut one = u;
    let mut two = v;
    loop {
        let (Some(left), Some(right)) = (first.get(one), second.get(two)) else {
            return false;
        };
        if !same_name(left, right) {
            return false;
        }
        match (left.parent, right.parent) {
            (None, None) => return true,
            (Some(p), Some(q)) if p < one && q < two => {
                one = p;
                two = q;
            }
            _ => return false,
        }
    }
}

// How many of the nodes `vs` have the path of node u.
#[tactic(auto, using(crate::proofs::AgreeLaws::count_laws))]
fn count_with_path(first: &[Node], u: usize, second: &[Node], vs: &[u32]) -> usize
    ensures { Counted (entries first.now) u (entries second.now) vs.now result }
{
    let mut count = 0;
    for v in vs {
        if same_path(first, u, second, *v as usize) {
            count += 1;
        }
    }
    count
}

// Whether the path of node u is as often among the nodes `ones` as among the nodes `twos`.
fn same_often(first: &[Node], ones: &[u32], second: &[Node], twos: &[u32], u: usize) -> bool
    ensures { Decides result (SameOften (entries first.now) ones.now (entries second.now) twos.now u) }
{
    count_with_path(first, u, first, ones) == count_with_path(first, u, second, twos)
}

// Whether the path of each of the nodes `ones` is as often among them as among the nodes `twos`.
#[tactic(auto, using(crate::proofs::AgreeLaws::all_often_laws))]
fn all_same_often(first: &[Node], ones: &[u32], second: &[Node], twos: &[u32]) -> bool
    ensures { Decides result (AllSameOften (entries first.now) ones.now (entries second.now) twos.now ones.now) }
{
    for u in ones {
        if !same_often(first, ones, second, twos, *u as usize) {
            return false;
        }
    }
    true
}

/// Whether two lists of nodes name the same folders: each path is as often in one as in the other.
#[tactic(auto, using(crate::proofs::AgreeLaws::agree_laws))]
pub fn agree(first: &[Node], ones: &[u32], second: &[Node], twos: &[u32]) -> bool
    ensures { Decides result (Agree (entries first.now) ones.now (entries second.now) twos.now) }
{
    all_same_often(first, ones, second, twos) && all_same_often(second, twos, first, ones)
}

// Appends `/` and the name.
fn push_name(text: &mut Vec<u8>, name: Name) -> Result<(), AllocError>
    ensures { OnOk result (text.new.items ≡ text.old.items ++ (codes "/" ++ bytes_of name)) }
{
    text.push(b'/')?;
    text.extend_from_slice(&name.to_bytes())
}

/// Appends `/` and the name of each folder from the root down to node v, and says whether v has a path: else nothing is appended. Where
/// memory runs out, some of it may be.
#[tactic(auto, using(crate::proofs::TextLaws::text_laws))]
pub fn push_path(text: &mut Vec<u8>, nodes: &[Node], v: usize) -> Result<bool, AllocError>
    ensures { IfOk result (λ whole. Pushed (entries nodes.now) v text.old.items whole text.new.items) }
{
    let Some(node) = nodes.get(v) else {
        return Ok(false);
    };
    if let Some(parent) = node.parent {
        if parent >= v {
            return Ok(false);
        }
        if !push_path(text, nodes, parent)? {
            return Ok(false);
        }
    }
    push_name(text, node.name)?;
    Ok(true)
}
