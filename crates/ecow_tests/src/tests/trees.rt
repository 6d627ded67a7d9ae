//! Types that hold a vector of themselves: which shapes are possible, what a change deep in a tree
//! copies, and how deep a tree may be to be dropped.
use crate::tests::calls::push;
use ecow_bytes::EcoBytes;
use ecow_list::{EcoError, EcoVec, Rejected};
use ecow_string::EcoString;
use ecow_test_calls::counting::{Counting, Tally};
use std::alloc::{AllocError, Global};
use std::test::Fail;

/// A node with a text and bytes beside its children, and derived traits.
#[derive(Clone, Drop, PartialEq)]
struct Syntax {
    text: EcoString,
    bytes: EcoBytes,
    below: EcoVec<Syntax>,
}

/// A node whose children are optional.
#[derive(Clone, Drop, PartialEq)]
struct Lazy {
    below: Option<EcoVec<Lazy>>,
}

/// A node with a vector of vectors of children.
#[derive(Clone, Drop, PartialEq)]
struct Rows {
    rows: EcoVec<EcoVec<Rows>>,
}

/// A node whose children have a number each.
#[derive(Clone, Drop, PartialEq)]
struct Numbered {
    below: EcoVec<(u64, Numbered)>,
}

/// An enum with variants of all these kinds.
#[derive(Clone, Debug, Drop, Eq, Hash, Ord, PartialEq, PartialOrd)]
enum Datum {
    Number(u64),
    Text(EcoString),
    List(EcoVec<Datum>),
    Pair(EcoVec<Datum>, Option<EcoVec<Datum>>),
}

/// A generic node, with a label of any type.
#[derive(Clone, Drop, PartialEq)]
struct Rose<T> {
    label: T,
    below: EcoVec<Rose<T>>,
}

fn one<T: Clone>(alloc: Global, element: T) -> Result<EcoVec<T>, EcoError> {
    let mut list = EcoVec::new(alloc);
    push(&mut list, element)?;
    Ok(list)
}

fn syntax_of(alloc: Global, text: &str, below: EcoVec<Syntax>) -> Result<Syntax, EcoError> {
    Ok(Syntax {
        text: EcoString::from_str(alloc, text)?,
        bytes: EcoBytes::from_slice(alloc, &[1, 2])?,
        below,
    })
}

/// Whether a value equals its clone.
fn has_equal_clone<T: Clone + Drop + PartialEq>(value: T) -> Result<bool, AllocError> {
    Ok(value.clone()? == value)
}

fn a_tree(alloc: Global) -> Result<Syntax, EcoError> {
    let leaf = syntax_of(alloc, "x", EcoVec::new(alloc))?;
    syntax_of(alloc, "f", one(alloc, leaf)?)
}

fn two_rows(alloc: Global) -> Result<Rows, EcoError> {
    let rows = one(alloc, EcoVec::new(alloc))?;
    let rows = one(alloc, one(alloc, Rows { rows })?)?;
    Ok(Rows { rows })
}

fn a_rose(alloc: Global) -> Result<Rose<u8>, EcoError> {
    let (label, below) = (2, EcoVec::new(alloc));
    let below = one(alloc, Rose { label, below })?;
    Ok(Rose { label: 1, below })
}

#[test]
fn nodes_hold_vectors_of_nodes(rt: HostRuntime) -> Result<(), Fail> {
    assert!(rt; has_equal_clone(a_tree(rt.alloc())?)?);
    assert!(rt; has_equal_clone(a_rose(rt.alloc())?)?);
    Ok(())
}

#[test]
fn vectors_of_nodes_stand_in_other_types(rt: HostRuntime) -> Result<(), Fail> {
    let below = Some(one(rt.alloc(), Lazy { below: None })?);
    assert!(rt; has_equal_clone(Lazy { below })?);
    assert!(rt; has_equal_clone(two_rows(rt.alloc())?)?);
    let below = EcoVec::new(rt.alloc());
    let below = one(rt.alloc(), (7, Numbered { below }))?;
    assert!(rt; has_equal_clone(Numbered { below })?);
    Ok(())
}

/// A list of one text.
fn a_list(alloc: Global) -> Result<Datum, EcoError> {
    let text = Datum::Text(EcoString::from_str(alloc, "a")?);
    Ok(Datum::List(one(alloc, text)?))
}

fn a_pair(alloc: Global) -> Result<Datum, EcoError> {
    let second = one(alloc, a_list(alloc)?)?;
    let first = one(alloc, Datum::Number(1))?;
    Ok(Datum::Pair(first, Some(second)))
}

#[test]
fn variants_hold_vectors(rt: HostRuntime) -> Result<(), Fail> {
    assert!(rt; has_equal_clone(a_pair(rt.alloc())?)?);
    assert!(rt; a_pair(rt.alloc())? > a_list(rt.alloc())?);
    Ok(())
}

/// A node that counts its clones and its drop.
#[derive(Clone, Drop)]
struct Node {
    counting: Counting,
    below: EcoVec<Node>,
}

fn leaf(tally: &Tally, alloc: Global) -> Result<Node, EcoError> {
    Ok(Node {
        counting: tally.element()?,
        below: EcoVec::new(alloc),
    })
}

fn leaves(tally: &Tally, alloc: Global, n: usize) -> Result<EcoVec<Node>, EcoError> {
    let mut nodes = EcoVec::new(alloc);
    for _ in 0..n {
        push(&mut nodes, leaf(tally, alloc)?)?;
    }
    Ok(nodes)
}

/// A vector of nodes, with this many children each.
fn nodes(tally: &Tally, alloc: Global, n: usize, each: usize) -> Result<EcoVec<Node>, EcoError> {
    let mut nodes = leaves(tally, alloc, n)?;
    for index in 0..n {
        let below = leaves(tally, alloc, each)?;
        if index < nodes.len() {
            nodes.update(index, |node| node.below = below)?;
        }
    }
    Ok(nodes)
}

/// Replaces the third node.
fn write(list: &mut EcoVec<Node>, node: Node) -> Result<(), Rejected<Node>> {
    if list.len() < 3 {
        return Ok(());
    }
    list.set(2, node)
}

/// Replaces the third child of the second node.
fn replace_below(list: &mut EcoVec<Node>, node: Node) -> Result<(), EcoError> {
    if list.len() < 2 {
        return Ok(());
    }
    list.update(1, |second| write(&mut second.below, node))??;
    Ok(())
}

/// A clone of the nodes in which the third child of the second node is replaced.
fn changed(tally: &Tally, alloc: Global, tree: &EcoVec<Node>) -> Result<EcoVec<Node>, EcoError> {
    let mut changed = tree.clone()?;
    replace_below(&mut changed, leaf(tally, alloc)?)?;
    Ok(changed)
}

#[test]
fn a_change_copies_the_vectors_along_its_path(rt: HostRuntime) -> Result<(), Fail> {
    let tally = Tally::new(rt.alloc())?;
    let tree = nodes(&tally, rt.alloc(), 4, 3)?;
    let copy = changed(&tally, rt.alloc(), &tree)?;
    // Four nodes, and the three children of one of them, of which one was replaced.
    assert!(rt; tally.has(7, 1));
    assert_eq!(rt; tally.counts_without(copy), (7, 8));
    assert_eq!(rt; tally.counts_without(tree), (7, 24));
    Ok(())
}

#[test]
fn a_million_nodes_are_dropped(rt: HostRuntime) -> Result<(), Fail> {
    let tally = Tally::new(rt.alloc())?;
    let tree = nodes(&tally, rt.alloc(), 1000, 999)?;
    assert_eq!(rt; tally.counts_without(tree), (0, 1000000));
    Ok(())
}

/// A chain of this many nodes, each the only child of the one before.
fn chain(tally: &Tally, alloc: Global, n: usize) -> Result<EcoVec<Node>, EcoError> {
    let mut below = EcoVec::new(alloc);
    for _ in 0..n {
        let counting = tally.element()?;
        below = one(alloc, Node { counting, below })?;
    }
    Ok(below)
}

// The checked build of `rt try` needs more stack for each node, and runs out of it.
#[test]
fn a_chain_of_ten_thousand_nodes_is_dropped(rt: HostRuntime) -> Result<(), Fail> {
    let tally = Tally::new(rt.alloc())?;
    let chain = chain(&tally, rt.alloc(), 10000)?;
    assert_eq!(rt; tally.counts_without(chain), (0, 10000));
    Ok(())
}
