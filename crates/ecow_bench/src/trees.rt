//! A syntax tree in which leaves are replaced while the old trees are kept.
ghost use Rattle.std.specs.Prelude.{◌≡◌};

use crate::random::{Random, part, prose};
use ecow_list::{EcoError, EcoVec};
use ecow_string::EcoString;
use std::alloc::{AllocError, Global};

/// The number of children of each node that is no leaf.
const BRANCHES: usize = 10;

/// The most letters of a node's text.
const LONGEST: usize = 12;

#[derive(Drop)]
struct Node {
    kind: u32,
    text: EcoString,
    children: EcoVec<Node>,
}

impl Clone for Node {
    ghost is_clone = { λ node copy. copy ≡ node };

    fn clone(&self) -> Result<Self, AllocError> {
        let kind = self.kind;
        let text = self.text.clone()?;
        let children = self.children.clone()?;
        Ok(Node {
            kind,
            text,
            children,
        })
    }
}

/// A tree with a level of nodes for each of these kinds above its leaves.
fn tree(alloc: Global, random: &mut Random, prose: &str, kinds: &[u32]) -> Result<Node, EcoError> {
    let text = EcoString::from_str(alloc, part(random, prose, LONGEST))?;
    let mut children = EcoVec::new(alloc);
    match kinds {
        [] => Ok(Node {
            kind: 0,
            text,
            children,
        }),
        [kind, below @ ..] => {
            for _ in 0..BRANCHES {
                children.push(tree(alloc, random, prose, below)?)?;
            }
            Ok(Node {
                kind: *kind,
                text,
                children,
            })
        }
    }
}

/// Replaces the text of the node at the end of a path.
fn replace(node: &mut Node, path: &[usize], text: EcoString) -> Result<(), EcoError> {
    match path {
        [] => {
            node.text = text;
            Ok(())
        }
        [at, rest @ ..] => match node.children.make_mut()?.get_mut(*at) {
            Some(child) => replace(child, rest, text),
            None => Ok(()),
        },
    }
}

/// The sum of text lengths and kinds in a subtree.
fn weight(node: &Node) -> u64 {
    let mut sum = u64::from(node.kind).wrapping_add(node.text.len() as u64);
    for child in node.children.as_slice() {
        sum = sum.wrapping_add(weight(child));
    }
    sum
}

/// The kinds of this many levels.
fn kinds(alloc: Global, levels: usize) -> Result<Vec<u32>, AllocError> {
    let mut kinds = Vec::new(alloc);
    let mut kind = 0u32;
    for _ in 0..levels {
        kind = kind.wrapping_add(1);
        kinds.push(kind)?;
    }
    Ok(kinds)
}

/// A path to a random leaf.
fn path(alloc: Global, random: &mut Random, levels: usize) -> Result<Vec<usize>, AllocError> {
    let mut path = Vec::with_capacity(alloc, levels)?;
    for _ in 0..levels {
        path.push(random.below(BRANCHES))?;
    }
    Ok(path)
}

/// Replaces the text of a random leaf.
fn replace_leaf(
    alloc: Global,
    random: &mut Random,
    prose: &str,
    levels: usize,
    root: &mut Node,
) -> Result<(), EcoError> {
    let path = path(alloc, random, levels)?;
    let text = EcoString::from_str(alloc, part(random, prose, LONGEST))?;
    replace(root, path.as_slice(), text)
}

/// Replaces `edits` leaves of a tree with `levels` levels above its leaves, and keeps each old
/// tree.
pub(crate) fn trees(alloc: Global, levels: usize, edits: u64) -> Result<u64, EcoError> {
    let mut random = Random::new();
    let prose = prose(alloc, &mut random)?;
    let kinds = kinds(alloc, levels)?;
    let mut root = tree(alloc, &mut random, prose.as_str(), kinds.as_slice())?;
    let first = root.clone()?;
    let mut roots = Vec::new(alloc);
    for _ in 0..edits {
        roots.push(root.clone()?)?;
        replace_leaf(alloc, &mut random, prose.as_str(), levels, &mut root)?;
    }
    let mut sum = weight(&first).wrapping_add(weight(&root));
    for before in roots.as_slice() {
        sum = sum.wrapping_add(u64::from(before.kind));
    }
    Ok(sum)
}
