//! Comparisons that follow an element's own equality and order, and texts in maps and vectors.
ghost use Rattle.std.specs.Prelude.{◌==◌, ◌%◌};
ghost use Rattle.std.proofs.Common.{rules};
ghost use Rattle.std.specs.Cmp.{partial_order_from_own_ties};
ghost use Rattle.std.specs.Cmp.Rules.{comparing, hashing};
ghost use Rattle.std.specs.Ordering.{on, nat_cmp, as_partial_cmp};
ghost use Rattle.std.specs.Hash as fed;

use crate::tests::calls::shared;
use ecow_list::{EcoError, EcoVec};
use ecow_string::{EcoString, SmallText};
use std::alloc::Global;
use std::cmp::{Ordering, Reverse};
use std::collections::{BTreeMap, HashMap};
use std::hash::{BuildHasher, BuildHasherDefault, FoldHasher, Hash, Hasher};
use std::test::Fail;

/// A number that is compared by its last decimal digit only.
#[derive(Clone, Copy)]
struct Digit(u64);

impl PartialEq for Digit {
    ghost eq = { on (λ d. d.0 % 10) ◌==◌ };

    ghost laws = { Prim.search (comparing, rules) };

    fn eq(&self, other: &Digit) -> bool {
        self.0 % 10 == other.0 % 10
    }
}

impl Eq for Digit {
    ghost laws = { Prim.search (comparing, rules) };
}

impl Ord for Digit {
    ghost cmp = { on (λ d. d.0 % 10) nat_cmp };

    ghost total = { Prim.search (comparing, rules) };

    ghost matches_partial_cmp = { Prim.search (comparing, rules) };

    ghost matches_eq = { Prim.search (comparing, rules) };

    fn cmp(&self, other: &Digit) -> Ordering {
        (self.0 % 10).cmp(&(other.0 % 10))
    }
}

impl PartialOrd for Digit {
    ghost partial_cmp = { as_partial_cmp (on (λ d. d.0 % 10) nat_cmp) };

    ghost laws = { partial_order_from_own_ties (Prim.search (comparing, rules))
        (Prim.search (comparing, rules)) };

    fn partial_cmp(&self, other: &Digit) -> Option<Ordering> {
        Some(self.cmp(other))
    }
}

impl Hash for Digit {
    ghost hash_input = { λ d. fed.u64 (d.0 % 10) };

    ghost respects_eq = { Prim.search (hashing, rules) };

    fn hash<H: Hasher>(&self, state: &mut H) {
        state.write_u64(self.0 % 10);
    }
}

fn hash_of<T: Hash>(value: &T) -> u64 {
    let hasher: BuildHasherDefault<FoldHasher> = BuildHasherDefault::new();
    hasher.hash_one(value)
}

#[test]
fn elements_are_equal_as_they_say(rt: HostRuntime) -> Result<(), Fail> {
    let twelve = EcoVec::from_slice(rt.alloc(), &[Digit(12)])?;
    let two = EcoVec::from_slice(rt.alloc(), &[Digit(2)])?;
    let three = EcoVec::from_slice(rt.alloc(), &[Digit(3)])?;
    assert!(rt; twelve == two && twelve.cmp(&two) == Ordering::Equal);
    assert!(rt; twelve != three && twelve < three && hash_of(&twelve) == hash_of(&two));
    Ok(())
}

#[test]
fn elements_are_ordered_as_they_say(rt: HostRuntime) -> Result<(), Fail> {
    let one = EcoVec::from_slice(rt.alloc(), &[Reverse(1)])?;
    let two = EcoVec::from_slice(rt.alloc(), &[Reverse(2)])?;
    let none = EcoVec::new(rt.alloc());
    assert!(rt; two < one && none < two && none < one);
    Ok(())
}

#[test]
fn texts_are_ordered_as_their_bytes(rt: HostRuntime) -> Result<(), Fail> {
    let last_of_three = EcoString::from_char(rt.alloc(), '\u{ffff}')?;
    let first_of_four = EcoString::from_char(rt.alloc(), '\u{10000}')?;
    assert!(rt; last_of_three < first_of_four);
    Ok(())
}

/// A spilled text, however short it is.
fn spilled(alloc: Global, text: &str) -> Result<EcoString, Fail> {
    let bytes = EcoVec::from_slice(alloc, text.as_bytes())?;
    EcoString::try_from(bytes).map_err(|_| "a str".into())
}

#[test]
fn a_key_is_found_in_either_mode(rt: HostRuntime) -> Result<(), Fail> {
    let (key, other) = (spilled(rt.alloc(), "foo")?, spilled(rt.alloc(), "bar")?);
    let mut hashed = HashMap::new(rt.alloc());
    hashed.insert(EcoString::from_str(rt.alloc(), "foo")?, 1)?;
    let mut ordered = BTreeMap::new(rt.alloc());
    ordered.insert(EcoString::from_str(rt.alloc(), "foo")?, 2)?;
    assert!(rt; !key.is_inline() && hashed.get(&key) == Some(&1) && ordered.get(&key) == Some(&2));
    assert!(rt; hashed.get(&other).is_none() && ordered.get(&other).is_none());
    Ok(())
}

/// A vector of these texts.
fn texts(alloc: Global, texts: [&str; 3]) -> Result<EcoVec<EcoString>, EcoError> {
    let mut list = EcoVec::new(alloc);
    for text in texts {
        let text = EcoString::from_str(alloc, text)?;
        list.push(text).map_err(|rejected| rejected.error)?;
    }
    Ok(list)
}

#[test]
fn texts_of_a_vector_are_sorted(rt: HostRuntime) -> Result<(), Fail> {
    let mut list = texts(rt.alloc(), ["foo", "bar", "foo"])?;
    let before = shared(&list)?;
    list.make_mut()?.sort_unstable();
    assert!(rt; list == texts(rt.alloc(), ["bar", "foo", "foo"])?);
    assert!(rt; before == texts(rt.alloc(), ["foo", "bar", "foo"])?);
    Ok(())
}

#[test]
fn a_sigma_at_the_end_of_a_word_is_final(rt: HostRuntime) -> Result<(), Fail> {
    let text = EcoString::from_str(rt.alloc(), "AΣ")?;
    let lower = text.to_lowercase()?;
    assert_eq!(rt; lower.as_str(), "aς");
    Ok(())
}

#[test]
fn a_text_is_inline_by_the_limit_of_its_type(rt: HostRuntime) -> Result<(), Fail> {
    let welcome: SmallText<23> = SmallText::from_str(rt.alloc(), "Welcome")?;
    let whole = welcome
        .add(" to earth! 🌱")
        .map_err(|rejected| rejected.error)?;
    let mut part = whole.clone()?;
    assert!(rt; part.pop()? == Some('🌱') && part.is_inline() && whole.is_inline());
    assert!(rt; part.as_str() == "Welcome to earth! " && whole.as_str() == "Welcome to earth! 🌱");
    Ok(())
}

#[test]
fn what_is_replaced_is_inline_by_its_length(rt: HostRuntime) -> Result<(), Fail> {
    let three: SmallText<3> = SmallText::from_str(rt.alloc(), "ab")?;
    let five: SmallText<5> = SmallText::from_str(rt.alloc(), "ab")?;
    let (three, five) = (three.replace("", "-")?, five.replace("", "-")?);
    assert!(rt; three.as_str() == "-a-b-" && five.as_str() == "-a-b-");
    assert!(rt; !three.is_inline() && five.is_inline());
    Ok(())
}
