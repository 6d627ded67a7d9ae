//! A syntax tree: named nodes, each with a vector of children. A clone of a tree shares all its
//! vectors. A change deep in it copies only the vectors on the path.
ghost use Rattle.std.specs.Prelude.{◌≡◌, ◌+◌, ◌^◌, ◌<◌, ◌≤◌, ◌++◌, [], ◌∷◌, List, ℕ, None, Some, length, slice_get, slice_set, IfOk, OnOk, OnErr, IsSome, ◌↔◌, MatchOption, IfSome};
ghost use Rattle.ecow_uses.specs.Trees.{name_of, children_of, size, printed, node_at, IsReplaced, IsRenamed, IsApart};

use ecow_list::{EcoError, EcoVec};
use ecow_string::EcoString;
use std::alloc::{AllocError, Global};

/// A node: its name, and its children in order.
#[derive(Debug, Drop, PartialEq)]
pub struct Node {
    name: EcoString,
    children: EcoVec<Node>,
}

impl Clone for Node {
    ghost is_clone = { λ node copy. copy ≡ node };

    fn clone(&self) -> Result<Self, AllocError> {
        let name = self.name.clone()?;
        let children = self.children.clone()?;
        Ok(Node { name, children })
    }
}

impl Node {
    /// A node with no children.
    pub fn new(alloc: Global, name: EcoString) -> Node
        ensures name { name_of result ≡ name.chars }
        ensures children { children_of result ≡ [] }
    {
        Node {
            name,
            children: EcoVec::new(alloc),
        }
    }

    /// Appends a child. If it is refused, nothing changes.
    pub fn add(&mut self, child: Node) -> Result<(), EcoError>
        ensures name { name_of self.new ≡ name_of self.old }
        ensures ok { OnOk result (children_of self.new ≡ children_of self.old ++ child ∷ []) }
        ensures unchanged { OnErr result (self.new ≡ self.old) }
    {
        self.children.push(child)?;
        Ok(())
    }

    /// The number of nodes of the tree, this one included; `None` from 2^64 on.
    #[tactic(auto, using(crate::proofs::Trees::size_out))]
    pub fn size(&self) -> Option<u64>
        ensures { MatchOption result (2 ^ 64 ≤ size self.now) (λ count. count ≡ size self.now) }
    {
        let mut size = 1u64;
        for child in self.children.as_slice() {
            size = size.checked_add(child.size()?)?;
        }
        Some(size)
    }

    /// The child at `index`; `None` if there is none.
    pub fn child(&self, index: usize) -> Option<&Node>
        ensures { MatchOption result (slice_get (children_of self.now) index ≡ None)
            (λ child. slice_get (children_of self.now) index ≡ Some child.now) }
    {
        self.children.as_slice().get(index)
    }

    /// The node that a path leads to; `None` if there is none.
    pub fn at(&self, path: &[usize]) -> Option<&Node>
        ensures { MatchOption result (node_at self.now path.now ≡ None)
            (λ node. node_at self.now path.now ≡ Some node.now) }
    {
        match path {
            [] => Some(self),
            [index, rest @ ..] => match self.child(*index) {
                Some(child) => child.at(rest),
                None => None,
            },
        }
    }

    /// Appends the tree to a text as `(name (child) (child))`. If it is refused, the text may have
    /// a part of it.
    #[tactic(auto, using(crate::proofs::Trees::printed_out))]
    pub fn print(&self, text: &mut EcoString) -> Result<(), EcoError>
        ensures { OnOk result (text.new.chars ≡ text.old.chars ++ printed self.now) }
    {
        text.push('(')?;
        text.push_str(self.name.as_str())?;
        for child in self.children.as_slice() {
            text.push(' ')?;
            child.print(text)?;
        }
        text.push(')')
    }

    /// Renames the child at `index` in its place. If it is refused, nothing changes.
    pub fn rename_child(&mut self, index: usize, name: EcoString) -> Result<(), EcoError>
        requires { index < length (children_of self.old) }
        ensures name { name_of self.new ≡ name_of self.old }
        ensures ok { OnOk result
            (IsRenamed index name.chars (children_of self.old) (children_of self.new)) }
        ensures unchanged { OnErr result (self.new ≡ self.old) }
    {
        self.children.update(index, |child| child.name = name)?;
        Ok(())
    }

    /// A tree in which `child` replaces the child at `index`.
    fn with_child(&self, index: usize, child: Node) -> Result<Node, EcoError>
        requires { index < length (children_of self.now) }
        ensures name { IfOk result (λ tree. name_of tree ≡ name_of self.now) }
        ensures children { IfOk result (λ tree. children_of tree
            ≡ slice_set (children_of self.now) index child) }
    {
        let mut tree = self.clone()?;
        tree.children.set(index, child)?;
        Ok(tree)
    }

    /// A tree in which `node` replaces the node that a path leads to; `None` if it leads to none.
    /// This tree stays as it is, and both share each vector that isn't on the path.
    pub fn replace_at(&self, path: &[usize], node: Node) -> Result<Option<Node>, EcoError>
        ensures replaced { IfOk result
            (λ found. IfSome found (λ tree. IsReplaced path.now node self.now tree)) }
        ensures there { IfOk result (λ found. IsSome found ↔ IsSome (node_at self.now path.now)) }
    {
        match path {
            [] => Ok(Some(node)),
            [index, rest @ ..] => match self.child(*index) {
                Some(child) => match child.replace_at(rest, node)? {
                    Some(child) => Ok(Some(self.with_child(*index, child)?)),
                    None => Ok(None),
                },
                None => Ok(None),
            },
        }
    }
}

/// The law: the path leads to the new node, each path that leaves it leads where it led before, and
/// the kept clone of the tree is unchanged. `None` if the path leads to no node.
#[tactic(auto, using(crate::proofs::Trees::replaced_there, crate::proofs::Trees::replaced_elsewhere))]
pub fn replace_and_keep(
    tree: &Node,
    path: &[usize],
    node: Node,
) -> Result<Option<(Node, Node)>, EcoError>
    ensures kept { IfOk result (λ found. IfSome found (λ trees. trees.0 ≡ tree.now)) }
    ensures there { IfOk result
        (λ found. IfSome found (λ trees. node_at trees.1 path.now ≡ Some node)) }
    ensures elsewhere { IfOk result (λ found. IfSome found
        (λ trees. (other : List ℕ) → IsApart path.now other
        → node_at trees.1 other ≡ node_at tree.now other)) }
{
    let kept = tree.clone()?;
    match tree.replace_at(path, node)? {
        Some(changed) => Ok(Some((kept, changed))),
        None => Ok(None),
    }
}
