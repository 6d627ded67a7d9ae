//! Texts made from the items of iterators. The size hint of an iterator isn't used, so a text is
//! inline whenever it fits.
ghost use Rattle.std.specs.Prelude.{◌≡◌, ℕ, List, ◌+◌, ◌<◌, ◌↔◌, ◌++◌, length, false, IfOk, OnOk, OnErr, IsErrOf};
ghost use Rattle.std.specs.Borrow.{Bor};
ghost use Rattle.std.specs.Str.{chars};
ghost use Rattle.std.specs.Iterator.{IsFinite, IsFiniteIterable, ExtendsWithItems, Yields};
ghost use Rattle.ecow_list.specs.Vectors.{Appends, ExtendsBy, GivesFirst, GivesItems};
ghost use Rattle.ecow_base.specs.Inline.{inline_after, inline_for, Grows};
ghost use Rattle.ecow_base.specs.Utf8.{utf8_len};
ghost use Rattle.ecow_base.specs.declared.plain.PlainText.{PlainText};
ghost use Rattle.ecow_string.specs.Appends.{AppendsBy, AppendsStrs, LeavesLastOut, joined_by, joined_strs, joined_texts};
ghost use Rattle.ecow_list.specs.Refusals.{RefusesPast};

use crate::string::SmallText;
use ecow_base::MAX_LEN;
use ecow_list::EcoError;
use std::alloc::Global;

/// A text that is joined to others.
trait Joined: Drop {
    ghost text_of: { Self → List ℕ };

    /// The text.
    fn text(&self) -> &str
        ensures { chars result.now ≡ text_of self.now };
}

impl<const N: usize> Joined for SmallText<N> {
    ghost text_of = { λ text. text.chars };

    fn text(&self) -> &str {
        self.as_str()
    }
}

impl Joined for &str {
    ghost text_of = { λ text. chars text.now };

    fn text(&self) -> &str {
        self
    }
}

impl<const N: usize> SmallText<N> {
    /// The characters that `iter` gives, each appended as `push` does. The text is inline if it has
    /// at most `N` bytes, and otherwise spilled.
    ///
    /// # Errors
    ///
    /// `Capacity` at the character that takes the text past 2^63 - 1 bytes; `Memory` if there is no
    /// memory for a block. No further character is taken from `iter` then, and the text so far is
    /// dropped. A text that fits inline is never refused.
    pub fn from_chars<I: IntoIterator<Item = char>>(
        alloc: Global,
        iter: I,
    ) -> Result<Self, EcoError>
        requires { IsFiniteIterable
            I.into_iter_gives I.IntoIter.can_next I.IntoIter.remaining iter }
        ensures chars { IfOk result
            (λ t. GivesItems I.into_iter_gives I.IntoIter.next_gives iter t.chars) }
        ensures mode { IfOk result (λ t. t.inline ≡ inline_for N (utf8_len t.chars)) }
        ensures refused { OnErr result ((items : List ℕ)
            × GivesFirst I.into_iter_gives I.IntoIter.next_gives iter items × (N < utf8_len items)
            × (IsErrOf result EcoError.Capacity ↔ (MAX_LEN < utf8_len items))) }
    {
        let mut target = Self::new(alloc);
        target.extend_chars(iter)?;
        Ok(target)
    }

    /// The texts that `iter` gives, each appended as `push_str` does. The result is inline if it
    /// has at most `N` bytes, and otherwise spilled.
    ///
    /// # Errors
    ///
    /// `Capacity` at the text that takes the result past 2^63 - 1 bytes; `Memory` if there is no
    /// memory for a block. No further text is taken from `iter` then, and the result so far is
    /// dropped. A result that fits inline is never refused.
    pub fn from_strs<'a, I: IntoIterator<Item = &'a str>>(
        alloc: Global,
        iter: I,
    ) -> Result<Self, EcoError>
        requires { IsFiniteIterable
            I.into_iter_gives I.IntoIter.can_next I.IntoIter.remaining iter }
        ensures chars { IfOk result (λ t. (items : List (Bor (List ℕ)))
            × GivesItems I.into_iter_gives I.IntoIter.next_gives iter items
            × (t.chars ≡ joined_strs items)) }
        ensures mode { IfOk result (λ t. t.inline ≡ inline_for N (utf8_len t.chars)) }
        ensures refused { OnErr result ((items : List (Bor (List ℕ)))
            × GivesFirst I.into_iter_gives I.IntoIter.next_gives iter items
            × (N < utf8_len (joined_strs items))
            × (IsErrOf result EcoError.Capacity ↔ (MAX_LEN < utf8_len (joined_strs items)))) }
    {
        let mut target = Self::new(alloc);
        target.extend_strs(iter)?;
        Ok(target)
    }

    /// The texts that `iter` gives, each appended as `push_str` does. The result is inline if it
    /// has at most `N` bytes, and otherwise spilled.
    ///
    /// # Errors
    ///
    /// `Capacity` at the text that takes the result past 2^63 - 1 bytes; `Memory` if there is no
    /// memory for a block. No further text is taken from `iter` then, and the result so far is
    /// dropped. A result that fits inline is never refused.
    pub fn from_eco_strings<I: IntoIterator<Item = Self>>(
        alloc: Global,
        iter: I,
    ) -> Result<Self, EcoError>
        requires { IsFiniteIterable
            I.into_iter_gives I.IntoIter.can_next I.IntoIter.remaining iter }
        ensures chars { IfOk result (λ t. (items : List PlainText)
            × GivesItems I.into_iter_gives I.IntoIter.next_gives iter items
            × (t.chars ≡ joined_texts items)) }
        ensures mode { IfOk result (λ t. t.inline ≡ inline_for N (utf8_len t.chars)) }
        ensures refused { OnErr result ((items : List PlainText)
            × GivesFirst I.into_iter_gives I.IntoIter.next_gives iter items
            × (N < utf8_len (joined_texts items))
            × (IsErrOf result EcoError.Capacity ↔ (MAX_LEN < utf8_len (joined_texts items)))) }
    {
        let mut target = Self::new(alloc);
        target.extend_from_texts(&mut iter.into_iter())?;
        Ok(target)
    }

    /// Appends the characters of `iter` one after another, each as `push` does. An inline text
    /// spills at the character that takes it past `N` bytes.
    ///
    /// Each character takes constant time on average. A shared text is copied at the first
    /// character; if there is none, nothing changes. The size hint of `iter` isn't used.
    ///
    /// # Errors
    ///
    /// `Capacity` if the text would pass 2^63 - 1 bytes with the next character; `Memory` if there
    /// is no memory for a larger block or a copy. The characters appended so far stay, and no
    /// further one is taken from `iter`. No character is refused that fits inline.
    pub fn extend_chars<I: IntoIterator<Item = char>>(&mut self, iter: I) -> Result<(), EcoError>
        requires { IsFiniteIterable
            I.into_iter_gives I.IntoIter.can_next I.IntoIter.remaining iter }
        ensures chars { ExtendsWithItems I.into_iter_gives I.IntoIter.next_gives Appends iter
            self.old.chars self.new.chars result }
        ensures mode { self.new.inline
            ≡ inline_after N self.old.inline (utf8_len self.new.chars) 0 }
        ensures refused { OnErr result ((items : List ℕ)
            × GivesFirst I.into_iter_gives I.IntoIter.next_gives iter items
            × (length self.new.chars + 1 ≡ length self.old.chars + length items)
            × (inline_after N self.old.inline (utf8_len (self.old.chars ++ items)) 0 ≡ false)
            × (IsErrOf result EcoError.Capacity ↔ (MAX_LEN < utf8_len (self.old.chars ++ items)))) }
    {
        self.extend_from_chars(&mut iter.into_iter())
    }

    /// Appends the characters that `iter` still gives, as `extend_chars` does.
    fn extend_from_chars<I: Iterator<Item = char>>(&mut self, iter: &mut I) -> Result<(), EcoError>
        requires ends { I.can_next iter.old × IsFinite (I.remaining iter.old) }
        ensures chars { ExtendsBy I.next_gives Appends iter.old
            self.old.chars self.new.chars result iter.new }
        ensures mode { self.new.inline
            ≡ inline_after N self.old.inline (utf8_len self.new.chars) 0 }
        ensures refused { OnErr result ((items : List ℕ)
            × Yields I.next_gives iter.old items iter.new
            × (length self.new.chars + 1 ≡ length self.old.chars + length items)
            × (inline_after N self.old.inline (utf8_len (self.old.chars ++ items)) 0 ≡ false)
            × (IsErrOf result EcoError.Capacity ↔ (MAX_LEN < utf8_len (self.old.chars ++ items)))) }
    {
        // For the proof alone: an inline text has at most `N` bytes.
        let _len = self.len();
        while let Some(c) = iter.next() {
            self.push(c)?;
        }
        Ok(())
    }

    /// Appends the texts of `iter` one after another, each as `push_str` does. An inline text
    /// spills at the item that takes it past `N` bytes.
    ///
    /// Takes time linear in the number of bytes appended, on average. A shared text is copied at
    /// the first item that isn't empty; if there is none, nothing changes. The size hint of `iter`
    /// isn't used.
    ///
    /// # Errors
    ///
    /// `Capacity` if the text would pass 2^63 - 1 bytes with the next item; `Memory` if there is no
    /// memory for a larger block or a copy. The items appended so far stay, and no further one is
    /// taken from `iter`. No item is refused that fits inline.
    pub fn extend_strs<'a, I: IntoIterator<Item = &'a str>>(
        &mut self,
        iter: I,
    ) -> Result<(), EcoError>
        requires { IsFiniteIterable
            I.into_iter_gives I.IntoIter.can_next I.IntoIter.remaining iter }
        ensures chars { ExtendsWithItems I.into_iter_gives I.IntoIter.next_gives AppendsStrs iter
            self.old.chars self.new.chars result }
        ensures mode { self.new.inline
            ≡ inline_after N self.old.inline (utf8_len self.new.chars) 0 }
        ensures refused { OnErr result
            ((items : List (Bor (List ℕ)))
            × GivesFirst I.into_iter_gives I.IntoIter.next_gives iter items
            × (inline_after N self.old.inline
            (utf8_len (self.old.chars ++ joined_strs items)) 0 ≡ false)
            × (IsErrOf result EcoError.Capacity
            ↔ (MAX_LEN < utf8_len (self.old.chars ++ joined_strs items)))
            × LeavesLastOut (λ text. chars text.now) self.old.chars items self.new.chars) }
    {
        self.extend_from_texts(&mut iter.into_iter())
    }

    /// Appends the texts that `iter` still gives, as `extend_strs` does.
    fn extend_from_texts<T: Joined, I: Iterator<Item = T>>(
        &mut self,
        iter: &mut I,
    ) -> Result<(), EcoError>
        requires ends { I.can_next iter.old × IsFinite (I.remaining iter.old) }
        ensures chars { ExtendsBy I.next_gives (AppendsBy T.text_of) iter.old
            self.old.chars self.new.chars result iter.new }
        ensures mode { self.new.inline
            ≡ inline_after N self.old.inline (utf8_len self.new.chars) 0 }
        ensures refused { OnErr result
            ((items : List T)
            × Yields I.next_gives iter.old items iter.new
            × (inline_after N self.old.inline
            (utf8_len (self.old.chars ++ joined_by T.text_of items)) 0 ≡ false)
            × (IsErrOf result EcoError.Capacity
            ↔ (MAX_LEN < utf8_len (self.old.chars ++ joined_by T.text_of items)))
            × LeavesLastOut T.text_of self.old.chars items self.new.chars) }
    {
        // For the proof alone: an inline text has at most `N` bytes.
        let _len = self.len();
        while let Some(text) = iter.next() {
            self.push_next(text.text())?;
        }
        Ok(())
    }

    /// Appends one item, as `push_str` does.
    fn push_next(&mut self, text: &str) -> Result<(), EcoError>
        ensures chars { OnOk result (self.new.chars ≡ self.old.chars ++ chars text.now) }
        ensures mode { Grows N self.old.inline (utf8_len self.old.chars) (length text.now)
            result self.new.inline }
        ensures refused { RefusesPast (utf8_len self.old.chars + length text.now)
            self.old result self.new }
        ensures len { utf8_len (self.old.chars ++ chars text.now) ≡ utf8_len self.old.chars
            + length text.now }
    {
        self.push_str(text)?;
        Ok(())
    }
}
