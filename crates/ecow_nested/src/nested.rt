//! `Nested`: the items of a container, and its depth.
ghost use Rattle.std.specs.Prelude.{◌≡◌, ◌+◌, ◌<◌, ◌≤◌, ℕ, map, max, min};
ghost use Rattle.ecow_nested.specs.Depths.{largest};

use crate::fields::Fields;
use crate::value::Value;
use ecow_list::EcoVec;
use std::alloc::AllocError;

/// The greatest depth of a value. A recursion into the deepest value needs less than 128 KiB of
/// stack.
pub const MAX_DEPTH: u32 = 512;

/// The items of a list, or fields, with the depth of the container, which is one more than that of
/// its deepest part.
#[derive(Drop)]
pub struct Nested<C> {
    pub(crate) items: C,
    pub(crate) depth: u32,
}

impl Clone for Nested<EcoVec<Value>> {
    ghost is_clone = { λ nested copy. copy ≡ nested };

    fn clone(&self) -> Result<Self, AllocError> {
        Ok(Nested {
            items: self.items.clone()?,
            depth: self.depth,
        })
    }
}

impl Clone for Nested<Fields<Value>> {
    ghost is_clone = { λ nested copy. copy ≡ nested };

    fn clone(&self) -> Result<Self, AllocError> {
        let (items, depth) = (self.items.clone()?, self.depth);
        Ok(Nested { items, depth })
    }
}

/// An item of a list, or a field.
pub(crate) trait Part: Drop {
    /// Its depth.
    ghost depth_in: { Self → ℕ };

    fn depth_in(&self) -> u32
        ensures { result ≡ depth_in self.now };
}

/// The depth of the deepest part, but at most `most`.
#[tactic(auto, using(crate::proofs::Depths::taken_all))]
pub(crate) fn deepest<T: Part>(parts: &[T], most: u32) -> u32
    ensures { result ≡ min most (largest (map T.depth_in parts.now)) }
{
    let mut found = 0;
    for part in parts {
        found = part.depth_in().max(found);
        if found >= most {
            return most;
        }
    }
    found
}

/// Raises the depth of a container to which a part of the depth `below` is added.
pub(crate) fn raise(depth: &mut u32, part: u32)
    requires { part < MAX_DEPTH }
    ensures { depth.new ≡ max depth.old (part + 1) }
{
    if *depth <= part {
        *depth = part + 1;
    }
}

/// Lowers the depth of a container in which a part of the depth `gone` was replaced by one of the
/// depth `came`. Reads the depth of each part if the old part may have been the deepest and the new
/// one isn't as deep.
pub(crate) fn settle<T: Part>(depth: &mut u32, parts: &[T], gone: u32, came: u32)
    ensures lower { depth.new ≤ depth.old }
    ensures covers { largest (map T.depth_in parts.now) < depth.old
        → largest (map T.depth_in parts.now) < depth.new }
    ensures exact { 1 < depth.old → depth.old ≤ gone + 1 → came < gone
        → largest (map T.depth_in parts.now) < depth.old
        → depth.new ≡ largest (map T.depth_in parts.now) + 1 }
{
    if came < gone && *depth > 1 && gone >= *depth - 1 {
        *depth = deepest(parts, *depth - 1) + 1;
    }
}
