//! The iterators over the elements of a tree.
ghost use Rattle.std.specs.Prelude.{◌≡◌, length, IfSome, Some};
ghost use Rattle.std.specs.Iterator.{UpTo, YieldsFirstRef, YieldsLastRef, at_most, item_count};
ghost use Rattle.std.specs.Iterator.SizeHint.{IsWithinCount};
ghost use Rattle.ecow_tree.specs.Runs.{YieldsRun, YieldsLastRun};

use crate::tree::EcoTree;
use std::iter::FusedIterator;
use std::marker::Model;
use std::mem::replace;

/// An iterator over the elements of a tree as slices, in order, from both ends: those of one block
/// at a time.
#[derive(Drop)]
pub struct Chunks<'a, T> {
    tree: &'a EcoTree<T>,
    /// The index of the first element that is still to come.
    at: usize,
    /// The index behind the last one.
    end: usize,
}

impl<'a, T> Model for Chunks<'a, T> {
    ghost use Rattle.std.specs.Prelude.{◌-◌, ◌≤◌, List, drop, length, take};

    ghost Value = { List T };

    ghost view = { λ it. take (it.end - it.at) (drop it.at it.tree.now) };

    ghost invariant = { λ it. (it.at ≤ it.end) × (it.end ≤ length it.tree.now) };
}

impl<'a, T> Chunks<'a, T> {
    /// The number of elements that are still to come.
    fn left(&self) -> usize
        ensures { result ≡ length self.now }
    {
        self.end - self.at
    }
}

impl<'a, T> Iterator for Chunks<'a, T> {
    type Item = &'a [T];

    ghost next_gives = { YieldsRun };

    ghost remaining = { item_count (λ rest. rest) };

    fn next(&mut self) -> Option<&'a [T]> {
        let left = self.end - self.at;
        if left == 0 {
            return None;
        }
        let chunk = self.tree.chunk_at(self.at);
        let run = &chunk[..left.min(chunk.len())];
        self.at += run.len();
        Some(run)
    }
}

impl<'a, T> DoubleEndedIterator for Chunks<'a, T> {
    ghost next_back_gives = { YieldsLastRun };

    fn next_back(&mut self) -> Option<&'a [T]> {
        let left = self.end - self.at;
        if left == 0 {
            return None;
        }
        let chunk = self.tree.chunk_before(self.end);
        let run = &chunk[chunk.len() - left.min(chunk.len())..];
        self.end -= run.len();
        Some(run)
    }
}

impl<'a, T> FusedIterator for Chunks<'a, T> {}

/// An iterator over the elements of a tree by reference, in order, from both ends.
#[derive(Drop)]
pub struct Iter<'a, T> {
    /// The elements of a block that come next.
    front: &'a [T],
    /// The blocks behind it.
    chunks: Chunks<'a, T>,
    /// The elements of a block that come last.
    back: &'a [T],
}

impl<'a, T> Model for Iter<'a, T> {
    ghost use Rattle.std.specs.Prelude.{◌+◌, ◌<◌, ◌^◌, List, ◌++◌, length};

    ghost Value = { List T };

    ghost view = { λ it. it.front.now ++ (it.chunks ++ it.back.now) };

    ghost invariant = { λ it. length it.front.now + (length it.chunks + length it.back.now)
        < 2 ^ 64 };
}

impl<'a, T> Iterator for Iter<'a, T> {
    type Item = &'a T;

    ghost next_gives = { YieldsFirstRef (λ rest. rest) };

    ghost remaining = { item_count (λ rest. rest) };

    fn next(&mut self) -> Option<&'a T> {
        if self.front.is_empty() {
            self.front = match self.chunks.next() {
                Some(chunk) => chunk,
                None => replace(&mut self.back, &[]),
            };
        }
        let (first, rest) = self.front.split_first()?;
        self.front = rest;
        Some(first)
    }

    fn size_hint(&self) -> (usize, Option<usize>)
        ensures lower { IsWithinCount result.0 (at_most (length self.now)) }
        ensures upper { IfSome result.1 (UpTo (at_most (length self.now))) }
        ensures exact { result ≡ (length self.now, Some (length self.now)) }
    {
        let count = self.front.len() + (self.chunks.left() + self.back.len());
        (count, Some(count))
    }
}

impl<'a, T> DoubleEndedIterator for Iter<'a, T> {
    ghost next_back_gives = { YieldsLastRef (λ rest. rest) };

    fn next_back(&mut self) -> Option<&'a T> {
        if self.back.is_empty() {
            self.back = match self.chunks.next_back() {
                Some(chunk) => chunk,
                None => replace(&mut self.front, &[]),
            };
        }
        let (last, rest) = self.back.split_last()?;
        self.back = rest;
        Some(last)
    }
}

impl<'a, T> ExactSizeIterator for Iter<'a, T> {
    fn len(&self) -> usize {
        self.size_hint().0
    }
}

impl<'a, T> FusedIterator for Iter<'a, T> {}

impl<T> EcoTree<T> {
    /// Goes over the elements as slices, in order: those of one block at a time, up to 128.
    ///
    /// Each step takes time logarithmic in the length.
    pub fn chunks(&self) -> Chunks<'_, T>
        ensures { result ≡ self.now }
    {
        Chunks {
            tree: self,
            at: 0,
            end: self.len(),
        }
    }

    /// Goes over the elements by reference, in order.
    ///
    /// A step takes constant time, and time logarithmic in the length where a block begins.
    pub fn iter(&self) -> Iter<'_, T>
        ensures { result ≡ self.now }
    {
        Iter {
            front: &[],
            chunks: self.chunks(),
            back: &[],
        }
    }
}
