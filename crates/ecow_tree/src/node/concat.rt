//! One node over the elements of two. It shares all their blocks, so no element is cloned.
ghost use Rattle.std.specs.Prelude.{◌≡◌, ◌+◌, ◌<◌, ◌≤◌, ◌^◌, ◌++◌, length, IfOk, IfErr, IsFalse, IsTrue, if◌then◌else◌};
ghost use Rattle.ecow_list.specs.declared.error.EcoError.TheVariants.{Memory};
ghost use Rattle.ecow_tree.specs.Nodes.{items_of, AllFit, CanStand};

use crate::node::Node;
use crate::node::part::{TALLEST, part};
use ecow_list::{EcoError, EcoVec};

/// The index of the last of some nodes, or of the first.
fn end(len: usize, at_back: bool) -> usize
    requires { 0 < len }
    ensures back { IsTrue at_back → result + 1 ≡ len }
    ensures front { IsFalse at_back → result ≡ 0 }
    ensures within { result < len }
{
    if at_back { len - 1 } else { 0 }
}

impl<T: Drop> Node<T> {
    /// What of this node stands in one of that height: the nodes below, or the node itself.
    fn within(&self, height: usize) -> Result<EcoVec<Node<T>>, EcoError>
        requires { CanStand height self.now }
        ensures items { IfOk result (λ nodes. items_of nodes ≡ self.now.items) }
        ensures fit { IfOk result (λ nodes. AllFit height nodes) }
        ensures some { IfOk result (λ nodes. 0 < length nodes) }
        ensures memory { IfErr result (λ error. error ≡ Memory) }
    {
        if self.height == height {
            let nodes = self.nodes.clone()?;
            return Ok(nodes);
        }
        let mut nodes = EcoVec::new(self.allocator());
        let node = self.clone()?;
        if nodes.push(node).is_err() {
            return Err(EcoError::Memory);
        }
        Ok(nodes)
    }

    /// A node of that height with the elements of two.
    fn over_both(height: usize, left: &Node<T>, right: &Node<T>) -> Result<Node<T>, EcoError>
        requires left { CanStand height left.now }
        requires right { CanStand height right.now }
        requires bounded { length left.now.items + length right.now.items < 2 ^ 64 }
        ensures items { IfOk result (λ node. node.items ≡ left.now.items ++ right.now.items) }
        ensures height { IfOk result (λ node. node.height ≡ height) }
        ensures memory { IfErr result (λ error. error ≡ Memory) }
    {
        let mut nodes = left.within(height)?;
        let others = right.within(height)?;
        if nodes.extend_from_slice(others.as_slice()).is_err() {
            return Err(EcoError::Memory);
        }
        Ok(Node::over(height, left.len + right.len, nodes))
    }

    /// This node with the elements of `other`, which is no higher, behind its own or before them.
    fn with_end(&self, other: &Node<T>, at_back: bool) -> Result<Node<T>, EcoError>
        requires inner { 0 < self.now.height }
        requires no_higher { other.now.height ≤ self.now.height }
        requires some { 0 < length other.now.items }
        requires bounded { length self.now.items + length other.now.items < 2 ^ 64 }
        ensures back { IsTrue at_back
            → IfOk result (λ node. node.items ≡ self.now.items ++ other.now.items) }
        ensures front { IsFalse at_back
            → IfOk result (λ node. node.items ≡ other.now.items ++ self.now.items) }
        ensures height { IfOk result (λ node. node.height ≡ self.now.height) }
        ensures memory { IfErr result (λ error. error ≡ Memory) }
    {
        let height = self.height;
        if other.height == height || height == 1 {
            if at_back {
                return Node::over_both(height, self, other);
            }
            return Node::over_both(height, other, self);
        }
        let at = end(self.nodes.len(), at_back);
        let child = self.nodes.as_slice()[at].with_end(other, at_back)?;
        let mut nodes = self.nodes.clone()?;
        nodes.set(at, child)?;
        part(&mut nodes, at, at_back);
        Ok(Node::over(height, self.len + other.len, nodes))
    }

    /// Parts the nodes below where they are too many, with a root above both parts. Where memory is
    /// refused, it stays whole.
    fn part_root(&mut self)
        ensures { self.new.items ≡ self.old.items }
    {
        if self.height >= TALLEST {
            return;
        }
        let Some((left, right)) = self.parted(false) else {
            return;
        };
        let Ok(root) = Node::over_both(self.height + 1, &left, &right) else {
            return;
        };
        *self = root;
    }

    /// A node with the elements of two.
    pub(crate) fn concat(left: &Node<T>, right: &Node<T>) -> Result<Node<T>, EcoError>
        requires { length left.now.items + length right.now.items < 2 ^ 64 }
        ensures items { IfOk result (λ node. node.items ≡ left.now.items ++ right.now.items) }
        ensures memory { IfErr result (λ error. error ≡ Memory) }
    {
        if left.len == 0 {
            let node = right.clone()?;
            return Ok(node);
        }
        if right.len == 0 {
            let node = left.clone()?;
            return Ok(node);
        }
        let mut node = if left.height < right.height {
            right.with_end(left, false)?
        } else if left.height > 0 {
            left.with_end(right, true)?
        } else {
            Node::over_both(1, left, right)?
        };
        node.part_root();
        Ok(node)
    }
}
