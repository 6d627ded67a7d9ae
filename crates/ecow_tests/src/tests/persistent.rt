//! The list in a tree: how many elements a change clones, what it drops, and how high the tree is.
use crate::tests::calls::error_of;
use ecow_list::{EcoError, Rejected};
use ecow_test_calls::counting::{Counting, Source, Tally};
use ecow_tree::EcoTree;
use std::alloc::Global;
use std::mem::replace;
use std::test::Fail;

/// A list of so many counted elements, with the numbers from 0 on.
fn counted(alloc: Global, tally: &Tally, len: i64) -> Result<EcoTree<Counting>, EcoError> {
    numbered(alloc, tally, 0, len)
}

/// A list of counted elements, with the numbers from `first` up to `end`.
fn numbered(
    alloc: Global,
    tally: &Tally,
    first: i64,
    end: i64,
) -> Result<EcoTree<Counting>, EcoError> {
    let mut list = EcoTree::new(alloc);
    for number in first..end {
        push(&mut list, tally.numbered(number)?)?;
    }
    Ok(list)
}

fn push<T: Clone>(list: &mut EcoTree<T>, value: T) -> Result<(), EcoError> {
    list.push(value).map_err(|rejected| rejected.error)
}

fn set<T: Clone>(list: &mut EcoTree<T>, index: usize, value: T) -> Result<(), EcoError> {
    if index >= list.len() {
        return Ok(());
    }
    list.set(index, value).map_err(|rejected| rejected.error)
}

/// The number of the element at an index.
fn number(list: &EcoTree<Counting>, index: usize) -> Option<i64> {
    Some(list.get(index)?.number)
}

/// Blocks hold up to 128 elements, and a change clones those of one shared block at most.
#[test]
fn a_change_clones_a_block_that_is_shared(rt: HostRuntime) -> Result<(), Fail> {
    let (alloc, tally) = (rt.alloc(), Tally::new(rt.alloc())?);
    let mut list = counted(alloc, &tally, 5000)?;
    assert!(rt; tally.has(0, 0) && list.len() == 5000 && list.height() > 0);
    let before = list.clone()?;
    assert!(rt; tally.has(0, 0));

    // The first write to a block clones it, and the next finds it its own.
    set(&mut list, 1000, tally.numbered(-1)?)?;
    let (first, drops) = (tally.clones(), tally.drops());
    assert!(rt; 0 < first && first <= 128 && drops == 1);
    set(&mut list, 1000, tally.numbered(-2)?)?;
    assert!(rt; tally.has(first, 2));
    set(&mut list, 4999, tally.numbered(-3)?)?;
    let second = tally.clones().wrapping_sub(first);
    assert!(rt; 0 < second && second <= 128 && tally.drops() == 3);
    push(&mut list, tally.numbered(5000)?)?;
    assert!(rt; tally.has(first.wrapping_add(second), 3));
    assert_eq!(rt; number(&list, 1000), Some(-2));
    assert_eq!(rt; number(&list, 4999), Some(-3));
    assert_eq!(rt; number(&list, 5000), Some(5000));
    assert_eq!(rt; number(&list, 5001), None);
    assert!(rt; list.len() == 5001 && before.len() == 5000);
    for (index, expected) in [(999, 999), (1000, 1000), (1001, 1001), (4999, 4999)] {
        assert_eq!(rt; number(&before, index), Some(expected));
    }

    // What the blocks have in common is dropped with the last of them.
    drop(list);
    assert!(rt; tally.has_live(5000));
    drop(before);
    assert!(rt; tally.has_live(0));
    Ok(())
}

/// A refused clone leaves the list, and hands the value back.
#[test]
fn a_refused_clone_leaves_the_list(rt: HostRuntime) -> Result<(), Fail> {
    let (alloc, tally) = (rt.alloc(), Tally::refusing(rt.alloc(), 3)?);
    let mut list = counted(alloc, &tally, 1000)?;
    let other = list.clone()?;
    let value = tally.numbered(-1)?;
    assert!(rt; list.len() == 1000);
    if 500 < list.len() {
        match list.set(500, value) {
            Err(Rejected { error, value }) => {
                assert!(rt; error == EcoError::Memory && value.number == -1);
            }
            Ok(()) => assert!(rt; false),
        }
    }
    assert_eq!(rt; number(&list, 500), Some(500));
    assert!(rt; tally.has_live(1000) && other.len() == 1000);
    set(&mut list, 500, tally.numbered(-1)?)?;
    assert_eq!(rt; number(&list, 500), Some(-1));
    assert_eq!(rt; number(&other, 500), Some(500));
    Ok(())
}

/// Whether a list holds these numbers.
fn holds(list: &EcoTree<Counting>, numbers: &[i64]) -> bool {
    let mut both = list.iter().zip(numbers.iter());
    list.len() == numbers.len() && both.all(|(element, number)| element.number == *number)
}

/// Inserts an element with this number into a list, and the number into a `Vec`.
fn insert(
    list: &mut EcoTree<Counting>,
    numbers: &mut Vec<i64>,
    index: usize,
    value: Counting,
) -> Result<(), EcoError> {
    if index > list.len() || index > numbers.len() {
        return Err(EcoError::Capacity);
    }
    numbers.insert(index, value.number)?;
    list.insert(index, value).map_err(|rejected| rejected.error)
}

/// Removes the element at an index, or the last one if there is none, from a list and from a `Vec`.
/// Whether both gave the same.
fn removes_alike(
    list: &mut EcoTree<Counting>,
    numbers: &mut Vec<i64>,
    index: usize,
) -> Result<bool, EcoError> {
    if index < list.len() && index < numbers.len() {
        return Ok(list.remove(index)?.number == numbers.remove(index));
    }
    Ok(list.pop()?.map(|last| last.number) == numbers.pop())
}

/// Inserts and removals at places all over leave what they leave of a `Vec`. None is refused, and
/// none clones.
#[test]
fn changes_are_those_of_a_vector(rt: HostRuntime) -> Result<(), Fail> {
    let (alloc, tally) = (rt.alloc(), Tally::new(rt.alloc())?);
    let (mut list, mut numbers) = (EcoTree::new(alloc), Vec::new(alloc));
    for number in 0..3000 {
        let value = tally.numbered(number as i64)?;
        insert(&mut list, &mut numbers, number * 7919 % (number + 1), value)?;
    }
    assert!(rt; tally.has(0, 0) && numbers.len() == 3000 && holds(&list, numbers.as_slice()));
    for number in 0..2900 {
        assert!(rt; removes_alike(&mut list, &mut numbers, number * 7919 % 3001)?);
    }
    assert!(rt; tally.has(0, 2900) && numbers.len() == 100 && holds(&list, numbers.as_slice()));
    Ok(())
}

/// A removal from a list that shares its blocks clones those of one block at most, and the others
/// keep their elements.
#[test]
fn a_removal_clones_a_block_that_is_shared(rt: HostRuntime) -> Result<(), Fail> {
    let (alloc, tally) = (rt.alloc(), Tally::new(rt.alloc())?);
    let mut list = counted(alloc, &tally, 5000)?;
    let before = list.clone()?;
    if 1000 < list.len() {
        assert_eq!(rt; list.remove(1000)?.number, 1000);
    }
    assert!(rt; 0 < tally.clones() && tally.clones() <= 128);
    assert_eq!(rt; number(&list, 1000), Some(1001));
    assert_eq!(rt; number(&before, 1000), Some(1000));
    assert!(rt; list.len() == 4999 && before.len() == 5000);
    Ok(())
}

/// Whether a list holds the numbers from `first` up to `end`.
fn runs(list: &EcoTree<Counting>, first: i64, end: i64) -> bool {
    let mut number = first;
    for element in list.iter() {
        if element.number != number {
            return false;
        }
        number = number.wrapping_add(1);
    }
    number == end
}

/// Takes the elements from `at` on. Past the end this is refused.
fn split_off<T: Clone>(list: &mut EcoTree<T>, at: usize) -> Result<EcoTree<T>, EcoError> {
    if at > list.len() {
        return Err(EcoError::Capacity);
    }
    list.split_off(at)
}

/// Splits a list before `at`, and puts its parts together in the other order.
fn turn<T: Clone>(list: &mut EcoTree<T>, at: usize) -> Result<(), EcoError> {
    let mut rest = split_off(list, at)?;
    rest.append(list)?;
    *list = rest;
    Ok(())
}

/// Does the same to a `Vec`.
fn turn_numbers(numbers: &mut Vec<i64>, at: usize) {
    if at <= numbers.len() {
        numbers.rotate_left(at);
    }
}

/// Turns a list of so many elements, fewer than 5000, and a `Vec` at places all over. Whether both
/// hold the same then, and no element was cloned or dropped.
fn turns_alike(alloc: Global, len: usize) -> Result<bool, EcoError> {
    if len >= 5000 {
        return Ok(false);
    }
    let tally = Tally::new(alloc)?;
    let mut list = counted(alloc, &tally, len as i64)?;
    let mut numbers = Vec::new(alloc);
    for number in 0..len {
        numbers.push(number as i64)?;
    }
    for number in 0..1000 {
        let at = number * 7919 % (len + 1);
        turn(&mut list, at)?;
        turn_numbers(&mut numbers, at);
    }
    Ok(tally.has(0, 0) && holds(&list, numbers.as_slice()))
}

/// A list that shares nothing is split and put together again without a clone.
#[test]
fn turns_are_those_of_a_vector(rt: HostRuntime) -> Result<(), Fail> {
    for len in [0, 1, 100, 128, 129, 3000] {
        assert!(rt; turns_alike(rt.alloc(), len)?);
    }
    Ok(())
}

/// A list that shares nothing is truncated without a clone, and the elements behind are dropped.
#[test]
fn a_truncation_drops_the_rest(rt: HostRuntime) -> Result<(), Fail> {
    let (alloc, tally) = (rt.alloc(), Tally::new(rt.alloc())?);
    let mut list = counted(alloc, &tally, 3000)?;
    for len in [4000, 3000, 2999, 2000, 1920, 130, 128, 127, 1, 0] {
        list.truncate(len)?;
        let left = len.min(3000);
        assert!(rt; tally.clones() == 0 && tally.has_live(left as u64));
        assert!(rt; runs(&list, 0, left as i64));
    }
    Ok(())
}

/// Splits a list of so many elements before `at`, and truncates it there, while another list shares
/// its blocks. Whether the split clones so many elements, and the truncation as many at most, and
/// all lists hold what they should.
fn cuts(alloc: Global, len: u32, at: u32, clones: u64) -> Result<bool, EcoError> {
    let tally = Tally::new(alloc)?;
    let (end, middle) = (len as i64, at as i64);
    let all = counted(alloc, &tally, end)?;
    let (mut front, mut short) = (all.clone()?, all.clone()?);
    let back = split_off(&mut front, at as usize)?;
    let split = tally.clones();
    short.truncate(at as usize)?;
    let truncated = tally.clones().wrapping_sub(split);
    let are_right = runs(&all, 0, end) && runs(&front, 0, middle) && runs(&back, middle, end);
    let is_short = runs(&short, 0, middle);
    drop(all);
    drop(short);
    let are_dropped = tally.has_live(len as u64);
    Ok(split == clones && truncated <= clones && are_right && is_short && are_dropped)
}

/// A cut of a list that shares its blocks clones the elements of the leaf that it cuts. Where one
/// leaf ends and the next begins it clones none.
#[test]
fn a_cut_clones_a_leaf_that_is_shared(rt: HostRuntime) -> Result<(), Fail> {
    let alloc = rt.alloc();
    assert!(rt; cuts(alloc, 0, 0, 0)? && cuts(alloc, 1, 0, 0)? && cuts(alloc, 1, 1, 0)?);
    assert!(rt; cuts(alloc, 100, 50, 100)? && cuts(alloc, 128, 127, 128)?);
    assert!(rt; cuts(alloc, 129, 128, 0)? && cuts(alloc, 129, 127, 128)?);
    for (at, clones) in [
        (0, 0),
        (1, 128),
        (500, 128),
        (512, 0),
        (999, 104),
        (1000, 0),
    ] {
        assert!(rt; cuts(alloc, 1000, at, clones)?);
    }
    for (at, clones) in [(128, 0), (2500, 128), (2560, 0), (4992, 0), (4993, 8)] {
        assert!(rt; cuts(alloc, 5000, at, clones)?);
    }
    Ok(())
}

/// Replaces a range. One that isn't in the list is refused.
fn replace_range<T: Clone>(
    list: &mut EcoTree<T>,
    start: usize,
    end: usize,
    new: &[T],
) -> Result<(), EcoError> {
    if start > end || end > list.len() {
        return Err(EcoError::Capacity);
    }
    list.replace_range(start..end, new)
}

/// Replaces a range of 1,000 elements by three while another list shares the blocks, and puts three
/// more in while none does. Whether the first call clones so many elements beside the three, and
/// the second the three alone, and both lists hold what they should.
fn replaces(alloc: Global, start: u32, end: u32, clones: u64) -> Result<bool, EcoError> {
    let tally = Tally::new(alloc)?;
    let mut list = counted(alloc, &tally, 1000)?;
    let before = list.clone()?;
    let new = elements(alloc, &tally, 7000, 7003)?;
    replace_range(&mut list, start as usize, end as usize, new.as_slice())?;
    let once = tally.clones() == clones.wrapping_add(3);
    let mut back = split_off(&mut list, start as usize)?;
    let behind = split_off(&mut back, 3)?;
    let are_right = runs(&before, 0, 1000) && runs(&list, 0, start as i64);
    let are_new = runs(&back, 7000, 7003) && runs(&behind, end as i64, 1000);
    drop(before);
    let own = tally.clones();
    list.append(&mut back)?;
    replace_range(&mut list, start as usize, start as usize, new.as_slice())?;
    let twice = tally.clones() == own.wrapping_add(3);
    Ok(once && twice && are_right && are_new && list.len() as u64 == (start as u64).wrapping_add(6))
}

/// A replaced range of a list that shares its blocks clones the elements of the leaves in which it
/// begins and ends. The others stay shared.
#[test]
fn a_replaced_range_clones_the_leaves_that_it_cuts(rt: HostRuntime) -> Result<(), Fail> {
    let alloc = rt.alloc();
    for (start, end, clones) in [
        (0, 0, 0),
        (0, 1000, 0),
        (128, 256, 0),
        (1000, 1000, 0),
        (5, 5, 128),
        (130, 140, 128),
        (100, 300, 256),
        (128, 300, 128),
        (999, 1000, 104),
    ] {
        assert!(rt; replaces(alloc, start, end, clones)?);
    }
    Ok(())
}

/// A change of either part of a list that was split copies one leaf at most.
#[test]
fn a_change_of_a_part_copies_its_way(rt: HostRuntime) -> Result<(), Fail> {
    let (alloc, tally) = (rt.alloc(), Tally::new(rt.alloc())?);
    let all = counted(alloc, &tally, 5000)?;
    let mut front = all.clone()?;
    let mut back = split_off(&mut front, 2500)?;
    assert!(rt; tally.has(128, 0));

    // The parts of the leaf that was cut are no longer shared.
    set(&mut front, 2499, tally.numbered(-1)?)?;
    set(&mut back, 0, tally.numbered(-2)?)?;
    push(&mut front, tally.numbered(-3)?)?;
    assert!(rt; tally.has(128, 2));
    set(&mut front, 0, tally.numbered(-4)?)?;
    assert!(rt; tally.has(256, 3));
    set(&mut back, 1000, tally.numbered(-5)?)?;
    assert!(rt; tally.has(384, 4) && runs(&all, 0, 5000));
    Ok(())
}

/// Appends a list to another, while further lists share the blocks of both. Whether no element was
/// cloned, and all lists hold what they should.
fn appends(alloc: Global, middle: i64, end: i64) -> Result<bool, EcoError> {
    let tally = Tally::new(alloc)?;
    let mut list = counted(alloc, &tally, middle)?;
    let mut other = numbered(alloc, &tally, middle, end)?;
    let (first, second) = (list.clone()?, other.clone()?);
    list.append(&mut other)?;
    let are_right = runs(&first, 0, middle) && runs(&second, middle, end) && runs(&list, 0, end);
    drop(first);
    drop(second);

    // The list has all blocks alone then, so a change clones nothing either.
    push(&mut list, tally.numbered(end)?)?;
    set(&mut list, 0, tally.numbered(0)?)?;
    let is_right = runs(&list, 0, end.wrapping_add(1));
    Ok(other.is_empty() && are_right && is_right && tally.has(0, 1))
}

#[test]
fn an_append_clones_nothing(rt: HostRuntime) -> Result<(), Fail> {
    let alloc = rt.alloc();
    for (middle, end) in [(0, 5), (5, 5), (5, 10), (128, 129), (128, 256), (5, 1000)] {
        assert!(rt; appends(alloc, middle, end)?);
    }
    for (middle, end) in [
        (1000, 1005),
        (1000, 2000),
        (300, 5000),
        (5000, 5300),
        (2500, 5000),
    ] {
        assert!(rt; appends(alloc, middle, end)?);
    }
    Ok(())
}

/// A list that is appended to itself has each block twice. A change copies it in one place.
#[test]
fn a_list_is_appended_to_itself(rt: HostRuntime) -> Result<(), Fail> {
    let (alloc, tally) = (rt.alloc(), Tally::new(rt.alloc())?);
    let mut list = counted(alloc, &tally, 1000)?;
    let mut other = list.clone()?;
    list.append(&mut other)?;
    assert!(rt; list.len() == 2000 && tally.has(0, 0));
    set(&mut list, 500, tally.numbered(-1)?)?;
    assert!(rt; tally.has(128, 1));
    assert_eq!(rt; number(&list, 500), Some(-1));
    assert_eq!(rt; number(&list, 1500), Some(500));
    drop(list);
    assert!(rt; tally.has_live(0));
    Ok(())
}

/// Counted elements with the numbers from `first` up to `end`.
fn elements(alloc: Global, tally: &Tally, first: i64, end: i64) -> Result<Vec<Counting>, EcoError> {
    let mut elements = Vec::new(alloc);
    for number in first..end {
        elements.push(tally.numbered(number)?)?;
    }
    Ok(elements)
}

/// Extends a list of `len` elements up to `end`, while another list shares its blocks, and then
/// once more. Whether each new element was cloned once, and `last` others the first time.
fn extends(alloc: Global, len: i64, end: i64, last: u64) -> Result<bool, EcoError> {
    let tally = Tally::new(alloc)?;
    let mut list = counted(alloc, &tally, len)?;
    let before = list.clone()?;
    let more = elements(alloc, &tally, len, end)?;
    let added = more.len() as u64;
    list.extend_from_slice(more.as_slice())?;
    let once = tally.has(added.wrapping_add(last), 0);
    let are_right = runs(&before, 0, len) && runs(&list, 0, end);
    drop(before);
    list.extend_from_slice(more.as_slice())?;
    let twice = tally.clones() == added.wrapping_mul(2).wrapping_add(last);
    let made = EcoTree::from_slice(alloc, more.as_slice())?;
    let thrice = tally.clones() == added.wrapping_mul(3).wrapping_add(last);
    Ok(once && twice && thrice && are_right && runs(&made, len, end))
}

/// An extension clones each new element once. If the new elements fit into the last leaf, and it is
/// shared, its elements are cloned too.
#[test]
fn an_extension_clones_each_element_once(rt: HostRuntime) -> Result<(), Fail> {
    let alloc = rt.alloc();
    assert!(rt; extends(alloc, 0, 0, 0)? && extends(alloc, 0, 5, 0)? && extends(alloc, 0, 300, 0)?);
    for (end, last) in [(5, 0), (6, 5), (128, 5), (129, 0), (300, 0)] {
        assert!(rt; extends(alloc, 5, end, last)?);
    }
    assert!(rt; extends(alloc, 128, 129, 0)? && extends(alloc, 1024, 1025, 0)?);
    for (end, last) in [(1000, 0), (1003, 104), (1024, 104), (1025, 0), (2000, 0)] {
        assert!(rt; extends(alloc, 1000, end, last)?);
    }
    let tally = Tally::new(alloc)?;
    let list = EcoTree::from_vec(tally.list(alloc, 300)?).map_err(error_of)?;
    assert!(rt; list.len() == 300 && tally.has(300, 300));
    Ok(())
}

/// The number of an element, which is 7 then. Past the end this is refused.
fn update(list: &mut EcoTree<Counting>, index: usize) -> Result<i64, EcoError> {
    if index >= list.len() {
        return Err(EcoError::Capacity);
    }
    list.update(
        index,
        |element: &mut Counting| replace(&mut element.number, 7),
    )
}

/// Cuts, extends or changes a list of 300 elements that is shared, or makes one. The clone with
/// that number is refused. Whether the call is refused then, and leaves all elements.
fn refuses(alloc: Global, call: usize, refused: u64) -> Result<bool, EcoError> {
    let tally = Tally::refusing(alloc, refused)?;
    let mut list = counted(alloc, &tally, 300)?;
    let all = list.clone()?;
    let more = elements(alloc, &tally, 300, 303)?;
    let answer = match call {
        0 => split_off(&mut list, 200).map(drop),
        1 => list.truncate(200),
        2 => list.extend_from_slice(more.as_slice()),
        4 => update(&mut list, 200).map(drop),
        _ => EcoTree::from_slice(alloc, more.as_slice()).map(drop),
    };
    let is_refused = answer.err() == Some(EcoError::Memory);
    Ok(is_refused && runs(&list, 0, 300) && runs(&all, 0, 300) && tally.has_live(303))
}

/// The leaf that is cut or changed has 128 elements, and the last one 44. Three are added.
#[test]
fn each_refused_clone_leaves_the_lists(rt: HostRuntime) -> Result<(), Fail> {
    for (call, clones) in [(0, 128_u64), (1, 128), (2, 47), (3, 3), (4, 128)] {
        for refused in 0..clones {
            assert!(rt; refuses(rt.alloc(), call, refused.wrapping_add(1))?);
        }
        assert!(rt; !refuses(rt.alloc(), call, 129)?);
    }
    Ok(())
}

/// The number of leaves, if all but the last have at least so many elements.
fn leaves(list: &EcoTree<i64>, least: usize) -> Option<usize> {
    let (mut leaves, mut is_last) = (0_usize, false);
    for chunk in list.chunks() {
        if is_last {
            return None;
        }
        leaves = leaves.wrapping_add(1);
        is_last = chunk.len() < least;
    }
    Some(leaves)
}

/// A list of so many elements made of a slice.
fn of_slice(alloc: Global, len: i64) -> Result<EcoTree<i64>, EcoError> {
    let mut numbers = Vec::new(alloc);
    for number in 0..len {
        numbers.push(number)?;
    }
    EcoTree::from_slice(alloc, numbers.as_slice())
}

/// Leaves are full. Those that are extended by three have 126 elements before the next one begins.
#[test]
fn leaves_are_filled(rt: HostRuntime) -> Result<(), Fail> {
    let list = of_slice(rt.alloc(), 1000)?;
    assert_eq!(rt; leaves(&list, 128), Some(8));
    assert_eq!(rt; list.chunks().last().map(|chunk| chunk.len()), Some(104));
    let mut list = EcoTree::new(rt.alloc());
    for _ in 0..1000 {
        list.extend_from_slice(&[1, 2, 3])?;
    }
    assert_eq!(rt; leaves(&list, 126), Some(24));
    Ok(())
}

/// Nodes over 16 others each have 3 levels above 782 leaves, and above 2000. Those over 4 have 6 at
/// most above as many leaves as 2000 cuts leave.
#[test]
fn the_height_is_logarithmic(rt: HostRuntime) -> Result<(), Fail> {
    let alloc = rt.alloc();
    let mut list = of_slice(alloc, 100000)?;
    assert_eq!(rt; leaves(&list, 128), Some(782));
    assert_eq!(rt; list.height(), 3);
    for number in 0..2000 {
        turn(&mut list, number * 7919 % 100001)?;
    }
    assert!(rt; list.len() == 100000 && list.height() <= 5);

    // 2000 leaves of three elements.
    let mut list = EcoTree::new(alloc);
    for _ in 0..2000 {
        let mut few = EcoTree::from_slice(alloc, &[1, 2, 3])?;
        list.append(&mut few)?;
    }
    assert_eq!(rt; leaves(&list, 3), Some(2000));
    assert_eq!(rt; list.height(), 3);
    Ok(())
}

/// A node is over 16 others at most, so a tree with more than 256 leaves has at least 3 levels
/// above them. This is so too where lists were appended and cut off in turn.
#[test]
fn nodes_stay_small(rt: HostRuntime) -> Result<(), Fail> {
    let alloc = rt.alloc();
    let piece = of_slice(alloc, 5 * 128)?;
    let mut list = EcoTree::new(alloc);
    for _ in 0..500 {
        let mut more = piece.clone()?;
        list.append(&mut more)?;
        if list.len() > 40 * 128 {
            list.truncate(list.len() - 4 * 128)?;
        }
    }
    assert_eq!(rt; leaves(&list, 128), Some(532));
    assert!(rt; list.height() >= 3);
    Ok(())
}
