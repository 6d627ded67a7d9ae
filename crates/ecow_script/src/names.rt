//! Gives each name of a script a number.
ghost use Rattle.std.specs.Prelude.{◌≡◌, ◌∷◌, [], ◌++◌, length, IfOk, OnOk, OnErr, map, None, List, ℕ, Some, if◌then◌else◌, nat_eq};
ghost use Rattle.std.specs.Str.{bytes_eq};
ghost use Rattle.ecow_script.specs.Words.{number_of};
ghost use Rattle.ecow_script.specs.Naming.{packed, number_at, by_key, short_at, long_at, further_at, IsBytes, Puts};
ghost use Rattle.ecow_script.specs.Numbering.{Numbering, Numbering-prop};

use ecow_model::Name;
use std::alloc::{AllocError, Global};
use std::collections::{BTreeMap, HashMap};
use std::marker::Model;

/// The most bytes of a name that is kept as a number.
const SHORT: usize = 7;

/// How many names are kept in hash maps. The author of a script can choose names that collide
/// there, and colliding names are found one after another. So all names after these are kept in a
/// tree.
const HASHED: usize = 1024;

/// The names that were read so far, numbered from 0 in their order. Only proofs know the list of
/// names.
#[derive(Drop)]
pub(crate) struct Names<'a> {
    /// The number of the next new name.
    count: Name,
    /// The number of each name.
    maps: Maps<'a>,
    ghost listed: { Numbering (number_at maps) count } by { Numbering-prop (number_at maps) count },
}

/// The numbers of names, in a hash map by their text.
type Long<'a> = HashMap<&'a str, Name>;

/// The numbers of names, in a tree by their text.
type Further<'a> = BTreeMap<&'a str, Name>;

/// The numbers of names.
#[derive(Drop)]
pub(crate) struct Maps<'a> {
    /// Names of seven bytes or fewer, each as one number.
    short: HashMap<u64, Name>,
    /// Longer names among the first.
    long: Long<'a>,
    /// All names after the first.
    further: Further<'a>,
}

impl<'a> Maps<'a> {
    fn new(alloc: Global) -> Self
        ensures { (word : List ℕ) → number_at result word ≡ None }
    {
        Maps {
            short: HashMap::new(alloc),
            long: HashMap::new(alloc),
            further: BTreeMap::new(alloc),
        }
    }

    /// The number of a word; `None` if it has none.
    fn get(&self, word: &'a str) -> Option<Name>
        ensures { result ≡ number_at self.now word.now }
    {
        match self.hashed(word) {
            Some(number) => Some(number),
            None => self.further.get(&word).copied(),
        }
    }

    fn hashed(&self, word: &'a str) -> Option<Name>
        ensures { result ≡ by_key (short_at self.now.short) (packed word.now)
            (long_at self.now.long word.now) }
    {
        match packed(word.as_bytes()) {
            Some(key) => self.short.get(&key).copied(),
            None => self.long.get(&word).copied(),
        }
    }

    /// Keeps the number of a new word.
    fn put(&mut self, word: &'a str, number: Name) -> Result<(), AllocError>
        requires { number_at self.old word.now ≡ None }
        ensures ok { OnOk result ((w : List ℕ) → IsBytes w
            → number_at self.new w
            ≡ (if bytes_eq word.now w then Some number else number_at self.old w)) }
        ensures unchanged { OnErr result
            ((w : List ℕ) → number_at self.new w ≡ number_at self.old w) }
    {
        if self.short.len().saturating_add(self.long.len()) >= HASHED {
            return put_further(&mut self.further, word, number);
        }
        match packed(word.as_bytes()) {
            Some(key) => put_short(&mut self.short, key, number),
            None => put_long(&mut self.long, word, number),
        }
    }
}

fn put_short(map: &mut HashMap<u64, Name>, key: u64, number: Name) -> Result<(), AllocError>
    ensures ok { OnOk result ((q : ℕ)
        → short_at map.new q ≡ (if nat_eq key q then Some number else short_at map.old q)) }
    ensures unchanged { OnErr result ((q : ℕ) → short_at map.new q ≡ short_at map.old q) }
{
    map.insert(key, number)?;
    Ok(())
}

fn put_long<'a>(map: &mut Long<'a>, word: &'a str, number: Name) -> Result<(), AllocError>
    ensures ok { OnOk result (Puts (long_at map.old) (long_at map.new) word.now number) }
    ensures unchanged { OnErr result ((q : List ℕ) → long_at map.new q ≡ long_at map.old q) }
{
    map.insert(word, number)?;
    Ok(())
}

fn put_further<'a>(map: &mut Further<'a>, word: &'a str, number: Name) -> Result<(), AllocError>
    ensures ok { OnOk result (Puts (further_at map.old) (further_at map.new) word.now number) }
    ensures unchanged { OnErr result ((q : List ℕ) → further_at map.new q ≡ further_at map.old q) }
{
    map.insert(word, number)?;
    Ok(())
}

/// A short word as a number, which is found faster than its bytes: the length, and then the bytes.
/// Different words give different numbers.
fn packed(word: &[u8]) -> Option<u64>
    ensures { result ≡ packed word.now }
{
    if word.len() > SHORT {
        return None;
    }
    let mut key = word.len() as u64;
    for byte in word {
        key = key * 256 + u64::from(*byte);
    }
    Some(key)
}

impl<'a> Model for Names<'a> {
    ghost use Rattle.std.specs.Prelude.{List, ℕ};

    ghost Value = { List (List ℕ) };

    ghost view = { λ a. a.listed.0 };
}

impl<'a> Names<'a> {
    /// Makes empty names. Takes no memory.
    pub(crate) fn new(alloc: Global) -> Self
        ensures { result ≡ [] }
    {
        Names {
            count: 0,
            maps: Maps::new(alloc),
        }
    }

    /// The number of a name; `None` if it wasn't read before.
    pub(crate) fn get(&self, word: &'a str) -> Option<Name>
        ensures { result ≡ number_of word.now self.now }
    {
        self.maps.get(word)
    }

    /// Gives a new name the next number.
    pub(crate) fn add(&mut self, word: &'a str) -> Result<Name, AllocError>
        requires { number_of word.now self.old ≡ None }
        ensures number { IfOk result (λ number. number ≡ length self.old) }
        ensures ok { OnOk result (self.new ≡ self.old ++ word.now ∷ []) }
        ensures unchanged { OnErr result (self.new ≡ self.old) }
    {
        let number = self.count;
        let Some(count) = number.checked_add(1) else {
            return Err(AllocError);
        };
        self.maps.put(word, number)?;
        self.count = count;
        Ok(number)
    }
}
