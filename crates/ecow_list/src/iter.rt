//! The iterators that own their elements. Elements that aren't taken are dropped with the iterator.
//! A vector that `drain` or `splice` changes has its new elements before the iterator is used.
ghost use Rattle.std.specs.Prelude.{◌≡◌, ◌+◌, ◌≤◌, ◌++◌, length, vec_capacity, Some, IfSome};
ghost use Rattle.std.specs.Iterator.{UpTo, YieldsFirst, YieldsLast, at_most, item_count};
ghost use Rattle.std.specs.Iterator.SizeHint.{IsWithinCount};

use ecow_block::Rest;
use std::iter::FusedIterator;
use std::marker::Model;

/// An iterator over the elements that `drain` removed, in order, from both ends.
#[derive(Drop)]
pub struct Drain<T> {
    removed: Rest<T>,
}

impl<T> Model for Drain<T> {
    ghost use Rattle.std.specs.Prelude.{List};

    ghost Value = { List T };

    ghost view = { λ it. it.removed };
}

impl<T> Drain<T> {
    pub(crate) fn new(rest: Rest<T>) -> Self
        ensures { result ≡ rest }
    {
        Drain { removed: rest }
    }

    /// The elements that are still to come, in order.
    pub fn as_slice(&self) -> &[T]
        ensures { result.now ≡ self.now }
    {
        self.removed.as_slice()
    }

    /// Appends the elements that are still to come to `elements`, which has capacity for them.
    /// Takes no memory.
    ///
    /// This project's own: `extend` of std's vector may ask for memory.
    pub fn collect_into(self, elements: &mut Vec<T>)
        requires { length elements.old.items + length self ≤ vec_capacity elements.old }
        ensures { elements.new.items ≡ elements.old.items ++ self }
    {
        self.removed.collect_into(elements);
    }
}

impl<T: Drop> Iterator for Drain<T> {
    type Item = T;

    ghost next_gives = { YieldsFirst (λ rest. rest) };

    ghost remaining = { item_count (λ rest. rest) };

    fn next(&mut self) -> Option<T> {
        self.removed.next()
    }

    fn size_hint(&self) -> (usize, Option<usize>)
        ensures lower { IsWithinCount result.0 (at_most (length self.now)) }
        ensures upper { IfSome result.1 (UpTo (at_most (length self.now))) }
        ensures exact { result ≡ (length self.now, Some (length self.now)) }
    {
        self.removed.size_hint()
    }
}

impl<T: Drop> DoubleEndedIterator for Drain<T> {
    ghost next_back_gives = { YieldsLast (λ rest. rest) };

    fn next_back(&mut self) -> Option<T> {
        self.removed.next_back()
    }
}

impl<T: Drop> ExactSizeIterator for Drain<T> {
    fn len(&self) -> usize {
        self.removed.len()
    }
}

impl<T: Drop> FusedIterator for Drain<T> {}

/// An iterator over the elements that `splice` replaced, in order, from both ends.
#[derive(Drop)]
pub struct Splice<T> {
    replaced: Rest<T>,
}

impl<T> Model for Splice<T> {
    ghost use Rattle.std.specs.Prelude.{List};

    ghost Value = { List T };

    ghost view = { λ it. it.replaced };
}

impl<T> Splice<T> {
    pub(crate) fn new(rest: Rest<T>) -> Self
        ensures { result ≡ rest }
    {
        Splice { replaced: rest }
    }

    /// The elements that are still to come, in order.
    pub fn as_slice(&self) -> &[T]
        ensures { result.now ≡ self.now }
    {
        self.replaced.as_slice()
    }

    /// Appends the elements that are still to come to `elements`, which has capacity for them.
    /// Takes no memory.
    ///
    /// This project's own: `extend` of std's vector may ask for memory.
    pub fn collect_into(self, elements: &mut Vec<T>)
        requires { length elements.old.items + length self ≤ vec_capacity elements.old }
        ensures { elements.new.items ≡ elements.old.items ++ self }
    {
        self.replaced.collect_into(elements);
    }
}

impl<T: Drop> Iterator for Splice<T> {
    type Item = T;

    ghost next_gives = { YieldsFirst (λ rest. rest) };

    ghost remaining = { item_count (λ rest. rest) };

    fn next(&mut self) -> Option<T> {
        self.replaced.next()
    }

    fn size_hint(&self) -> (usize, Option<usize>)
        ensures lower { IsWithinCount result.0 (at_most (length self.now)) }
        ensures upper { IfSome result.1 (UpTo (at_most (length self.now))) }
        ensures exact { result ≡ (length self.now, Some (length self.now)) }
    {
        self.replaced.size_hint()
    }
}

impl<T: Drop> DoubleEndedIterator for Splice<T> {
    ghost next_back_gives = { YieldsLast (λ rest. rest) };

    fn next_back(&mut self) -> Option<T> {
        self.replaced.next_back()
    }
}

impl<T: Drop> ExactSizeIterator for Splice<T> {
    fn len(&self) -> usize {
        self.replaced.len()
    }
}

/// An iterator over the elements of a vector by value, in order, from both ends.
#[derive(Drop)]
pub struct IntoIter<T> {
    rest: Rest<T>,
}

impl<T> Model for IntoIter<T> {
    ghost use Rattle.std.specs.Prelude.{List};

    ghost Value = { List T };

    ghost view = { λ it. it.rest };
}

impl<T> IntoIter<T> {
    pub(crate) fn new(rest: Rest<T>) -> Self
        ensures { result ≡ rest }
    {
        IntoIter { rest }
    }

    /// The elements that are still to come, in order.
    pub fn as_slice(&self) -> &[T]
        ensures { result.now ≡ self.now }
    {
        self.rest.as_slice()
    }
}

impl<T: Drop> Iterator for IntoIter<T> {
    type Item = T;

    ghost next_gives = { YieldsFirst (λ rest. rest) };

    ghost remaining = { item_count (λ rest. rest) };

    fn next(&mut self) -> Option<T> {
        self.rest.next()
    }

    fn size_hint(&self) -> (usize, Option<usize>)
        ensures lower { IsWithinCount result.0 (at_most (length self.now)) }
        ensures upper { IfSome result.1 (UpTo (at_most (length self.now))) }
        ensures exact { result ≡ (length self.now, Some (length self.now)) }
    {
        self.rest.size_hint()
    }
}

impl<T: Drop> DoubleEndedIterator for IntoIter<T> {
    ghost next_back_gives = { YieldsLast (λ rest. rest) };

    fn next_back(&mut self) -> Option<T> {
        self.rest.next_back()
    }
}

impl<T: Drop> ExactSizeIterator for IntoIter<T> {
    fn len(&self) -> usize {
        self.rest.len()
    }
}

impl<T: Drop> FusedIterator for IntoIter<T> {}
