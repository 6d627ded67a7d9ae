//! How a name is found among many fields.
//!
//! The entries are the nodes of a binary tree: each may have a link to a left and a right entry
//! with a higher index. The search for a name starts at the first entry. At each step the next bit
//! decides between left and right: first the bits of the name's hash, and after them the bits of
//! the name itself. The search ends at the first entry with that name, or where there is no link;
//! there the entry of a new name is linked. So a search takes about as many steps as the number of
//! names has bits. For any choice of names it takes at most 72 steps more than the name has bits.
//!
//! A gap has no name, and keeps its links. An entry of a name that an earlier one has is not
//! linked; the earlier one is marked. So a marked entry can't become a gap while there is an index.
ghost use Rattle.std.specs.Prelude.{◌≡◌, ◌+◌, ◌-◌, ◌<◌, MatchResult, Some, length, nat_lt, position, take, true, ◌||◌};
ghost use Rattle.ecow_nested.specs.Index.{Ascends, IsFoundFrom, IsIndexed, bare, bares_in, bears, end_of, hash_of, is_dropped, link_of, node_of, nodes_in, turns, with_again, with_link};

use crate::fields::{Entry, INDEXED};

/// The hash of a name. Over many names, each of its upper bits is 0 about as often as 1.
fn hash(name: &[u8]) -> u64
    ensures { result ≡ hash_of name.now }
{
    name.iter().fold(0, |hash: u64, byte: &u8| {
        hash.wrapping_add(*byte as u64)
            .wrapping_mul(11400714819323198485)
    })
}

/// Whether the search for a name continues on the right at this depth.
fn turns_right(name: &[u8], hash: u64, depth: usize) -> bool
    requires { hash ≡ hash_of name.now }
    ensures { result ≡ turns name.now depth }
{
    if depth < 64 {
        return (hash >> (63 - depth) as u32) % 2 == 1;
    }
    match name.get((depth - 64) / 8) {
        Some(byte) => (*byte >> ((depth - 64) % 8) as u32) % 2 == 1,
        // No text has a byte 255, so two names differ at the latest right after the shorter one.
        None => true,
    }
}

/// There is no index if the left link of the first entry is greater than this.
const DROPPED: usize = 1 << 63;

/// How many fields are appended after the index was dropped until it is made anew.
const PENDING: usize = 64;

impl<T> Entry<T> {
    /// The index of the entry that is linked on a side; 0 if there is none.
    fn link(&self, right: bool) -> usize
        ensures { result ≡ link_of right (node_of self.now) }
    {
        if right { self.right } else { self.left }
    }

    /// Whether there is a field with this name.
    fn bears(&self, name: &str) -> bool
        ensures { result ≡ bears name.now (node_of self.now) }
    {
        match &self.field {
            Some(field) => field.name.as_str() == name,
            None => false,
        }
    }

    /// Removes both links, and the mark that a later field has the same name.
    fn clear_links(&mut self)
        ensures { self.new ≡ bare self.old }
    {
        self.left = 0;
        self.right = 0;
        self.again = false;
    }

    /// Marks that a later field has the same name.
    fn mark_again(&mut self)
        ensures { self.new ≡ with_again self.old }
    {
        self.again = true;
    }

    /// Links the entry at `at` on a side.
    fn set_link(&mut self, right: bool, place: usize)
        ensures { self.new ≡ with_link right place self.old }
    {
        if right {
            self.right = place;
        } else {
            self.left = place;
        }
    }
}

/// The place of the first entry with this name, found by looking at each entry.
fn scan<T>(entries: &[Entry<T>], name: &str) -> Option<usize>
    ensures { result ≡ position (λ entry. bears name.now (node_of entry)) entries.now }
{
    entries.iter().position(|entry| entry.bears(name))
}

/// The place of the first entry with this name.
pub(crate) fn find_place<T>(entries: &[Entry<T>], name: &str) -> Option<usize>
    requires { IsFoundFrom INDEXED entries.now }
    ensures { result ≡ position (λ entry. bears name.now (node_of entry)) entries.now }
{
    if lacks_index(entries) {
        return scan(entries, name);
    }
    match seek(entries, name) {
        Ok(at) => Some(at),
        Err(_) => None,
    }
}

/// The place of the first entry with this name. If there is none, the entry and its side where an
/// entry with this name would be linked.
fn seek<T>(entries: &[Entry<T>], name: &str) -> Result<usize, (usize, bool)>
    requires some { 0 < length entries.now }
    requires ascends { Ascends (nodes_in entries.now) }
    ensures end { end_of (nodes_in entries.now) name.now ≡ Some result }
    ensures within { MatchResult result (λ at. at < length entries.now)
        (λ end. end.0 < length entries.now) }
{
    let bytes = name.as_bytes();
    let hash = hash(bytes);
    let mut at = 0;
    let mut depth = 0;
    loop {
        let entry = &entries[at];
        if entry.bears(name) {
            return Ok(at);
        }
        let right = turns_right(bytes, hash, depth);
        let next = entry.link(right);
        if next == 0 {
            return Err((at, right));
        }
        at = next;
        depth += 1;
    }
}

/// Links the entry at `count` where the search for its name ends among the entries before it. If
/// one of these has the name, marks that one instead.
fn include<T>(entries: &mut [Entry<T>], count: usize)
    requires within { count < length entries.old }
    requires before { IsIndexed (nodes_in (take count entries.old)) }
    ensures indexed { IsIndexed (nodes_in (take (count + 1) entries.new)) }
    ensures same { bares_in entries.new ≡ bares_in entries.old }
{
    entries[count].clear_links();
    if count == 0 {
        return;
    }
    let shared = &entries[..];
    let Some(field) = &shared[count].field else {
        return;
    };
    match seek(&shared[..count], field.name.as_str()) {
        Ok(at) => entries[at].mark_again(),
        Err((at, right)) => entries[at].set_link(right, count),
    }
}

/// Whether there is no index.
pub(crate) fn lacks_index<T>(entries: &[Entry<T>]) -> bool
    ensures { result ≡ (nat_lt (length entries.now) INDEXED || is_dropped entries.now) }
{
    entries.len() < INDEXED || is_dropped(entries)
}

/// Whether the index is dropped.
fn is_dropped<T>(entries: &[Entry<T>]) -> bool
    ensures { result ≡ is_dropped entries.now }
{
    match entries {
        [first, ..] => first.left > DROPPED,
        [] => true,
    }
}

/// Completes the index, which the entries before `count` have already.
pub(crate) fn index_from<T>(entries: &mut [Entry<T>], count: usize)
    requires before { IsIndexed (nodes_in (take count entries.old)) }
    ensures indexed { IsIndexed (nodes_in entries.new) }
    ensures same { bares_in entries.new ≡ bares_in entries.old }
    ensures len { length entries.new ≡ length entries.old }
{
    for at in count..entries.len() {
        include(entries, at);
    }
}

/// Adds the last entry to the index. If the index was dropped, counts the entry.
pub(crate) fn include_last<T>(entries: &mut [Entry<T>], few: usize)
    requires some { 0 < length entries.old }
    requires found { IsFoundFrom few (take (length entries.old - 1) entries.old) }
    ensures found { IsFoundFrom few entries.new }
    ensures same { bares_in entries.new ≡ bares_in entries.old }
    ensures len { length entries.new ≡ length entries.old }
{
    let last = entries.len() - 1;
    if last < few {
        if last + 1 >= few {
            index_from(entries, 0);
        }
    } else if entries[0].left <= DROPPED {
        index_from(entries, last);
    } else if entries[0].left > DROPPED + PENDING {
        index_from(entries, 0);
    } else {
        entries[0].left += 1;
    }
}

/// Drops the index, which is wrong after a removal whose place isn't kept as a gap.
pub(crate) fn drop_index<T>(entries: &mut [Entry<T>])
    ensures dropped { is_dropped entries.new ≡ true }
    ensures same { bares_in entries.new ≡ bares_in entries.old }
    ensures len { length entries.new ≡ length entries.old }
{
    if let [first, ..] = entries {
        if first.left <= DROPPED {
            first.left = DROPPED + 1;
        }
    }
}
