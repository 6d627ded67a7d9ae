//! Loops that repeat one call of `EcoVec`, or a few. The vector has the elements `items`, and the
//! loop is repeated `count` times. Each function returns a sum of what it saw. If memory is
//! refused, a loop does less, and returns another sum.

use crate::elements::Element;
use crate::rounds::sum_of;
use ecow_list::{EcoVec, range_in};
use std::alloc::Global;
use std::mem::replace;

pub(crate) fn list_of<T: Element>(alloc: Global, items: &[T]) -> EcoVec<T> {
    match EcoVec::from_slice(alloc, items) {
        Ok(list) => list,
        Err(_) => EcoVec::new(alloc),
    }
}

/// Fills an empty vector by pushes.
pub(crate) fn push<T: Element + Copy>(alloc: Global, items: &[T], count: u64) -> u64 {
    sum_of(count, |_| {
        let mut list = EcoVec::new(alloc);
        for item in items {
            let _done = list.push(*item);
        }
        list.len() as u64
    })
}

#[inline(never)]
fn cloned<T: Element>(list: &EcoVec<T>) -> Option<EcoVec<T>> {
    list.clone().ok()
}

/// Makes a clone and drops it.
pub(crate) fn clone<T: Element>(alloc: Global, items: &[T], count: u64) -> u64 {
    let list = list_of(alloc, items);
    sum_of(count, |_| cloned(&list).map_or(0, |copy| copy.len() as u64))
}

/// Makes a clone, pushes one element to it and drops it.
pub(crate) fn clone_push<T: Element + Copy>(alloc: Global, items: &[T], count: u64) -> u64 {
    let list = list_of(alloc, items);
    let mut sum = 0u64;
    for _ in 0..count {
        if let Some(mut copy) = cloned(&list) {
            if let Some(first) = items.first() {
                let _done = copy.push(*first);
            }
            sum = sum.wrapping_add(copy.len() as u64);
        }
    }
    sum
}

/// Fills a vector that has the capacity from the slice, and pops all elements.
pub(crate) fn pop<T: Element>(alloc: Global, items: &[T], count: u64) -> u64 {
    let mut list = list_of(alloc, items);
    let mut sum = 0u64;
    for _ in 0..count {
        for _ in 0..items.len() {
            if let Ok(Some(item)) = list.pop() {
                sum = sum.wrapping_add(item.seen());
            }
        }
        let _done = list.extend_from_slice(items);
    }
    sum
}

/// Removes the element in the middle and inserts it again.
pub(crate) fn insert_remove<T: Element>(alloc: Global, items: &[T], count: u64) -> u64 {
    let mut list = list_of(alloc, items);
    let middle = items.len() / 2;
    let mut sum = 0u64;
    for _ in 0..count {
        if middle < list.len()
            && let Ok(item) = list.remove(middle)
        {
            sum = sum.wrapping_add(item.seen());
            if middle <= list.len() {
                let _done = list.insert(middle, item);
            }
        }
    }
    sum
}

/// Removes the first element and appends it.
pub(crate) fn remove_first<T: Element>(alloc: Global, items: &[T], count: u64) -> u64 {
    let mut list = list_of(alloc, items);
    let mut sum = 0u64;
    for _ in 0..count {
        if list.len() > 0
            && let Ok(item) = list.remove(0)
        {
            sum = sum.wrapping_add(item.seen());
            let _done = list.push(item);
        }
    }
    sum
}

/// Changes the element in the middle.
pub(crate) fn update(alloc: Global, items: &[u64], count: u64) -> u64 {
    let mut list = list_of(alloc, items);
    let middle = items.len() / 2;
    let mut sum = 0u64;
    for round in 0..count {
        if middle < list.len()
            && let Ok(item) = list.update(middle, |item| replace(item, round))
        {
            sum = sum.wrapping_add(item);
        }
    }
    sum
}

/// Makes a vector from the slice.
pub(crate) fn from_slice<T: Element>(alloc: Global, items: &[T], count: u64) -> u64 {
    sum_of(count, |_| list_of(alloc, items).len() as u64)
}

/// Appends the slice to an empty vector.
pub(crate) fn extend<T: Element>(alloc: Global, items: &[T], count: u64) -> u64 {
    sum_of(count, |_| {
        let mut list = EcoVec::new(alloc);
        let _done = list.extend_from_slice(items);
        list.len() as u64
    })
}

/// Appends the slice to an empty vector in pieces of at most eight elements.
pub(crate) fn extend_pieces<T: Element>(alloc: Global, items: &[T], count: u64) -> u64 {
    sum_of(count, |_| {
        let mut list = EcoVec::new(alloc);
        for piece in items.chunks(8) {
            let _done = list.extend_from_slice(piece);
        }
        list.len() as u64
    })
}

/// Appends the slice to a vector, which is cleared whenever it has more than a thousand elements.
pub(crate) fn extend_few<T: Element>(alloc: Global, items: &[T], count: u64) -> u64 {
    let mut list = EcoVec::new(alloc);
    let mut sum = 0u64;
    for _ in 0..count {
        if list.len() > 1000 {
            list.clear();
        }
        let _done = list.extend_from_slice(items);
        sum = sum.wrapping_add(list.len() as u64);
    }
    sum
}

/// Makes a clone, borrows it for writing, and exchanges two elements.
fn written<T: Element>(list: &EcoVec<T>) -> Option<EcoVec<T>> {
    let mut copy = cloned(list)?;
    if let Ok(slice) = copy.make_mut()
        && slice.len() > 1
    {
        slice.swap(0, 1);
    }
    Some(copy)
}

/// Makes a clone, writes to it and sorts it.
pub(crate) fn sort<T: Element>(alloc: Global, items: &[T], count: u64) -> u64 {
    let list = list_of(alloc, items);
    let mut sum = 0u64;
    for _ in 0..count {
        if let Some(mut copy) = written(&list) {
            if let Ok(slice) = copy.make_mut() {
                slice.sort_unstable();
            }
            sum = sum.wrapping_add(copy.as_slice().last().map_or(0, |item| item.seen()));
        }
    }
    sum
}

/// Makes a clone and writes to it.
pub(crate) fn write<T: Element>(alloc: Global, items: &[T], count: u64) -> u64 {
    let list = list_of(alloc, items);
    sum_of(count, |_| match written(&list) {
        Some(copy) => copy.as_slice().first().map_or(0, |item| item.seen()),
        None => 0,
    })
}

/// Fills a vector from the slice and drops those elements that 64 divides. They are few, so that a
/// processor foresees what it keeps, of short vectors as of long ones.
pub(crate) fn retain<T: Element>(alloc: Global, items: &[T], count: u64) -> u64 {
    sum_of(count, |_| {
        let mut list = list_of(alloc, items);
        let _done = list.retain(|item| item.seen() % 64 != 0);
        list.len() as u64
    })
}

/// Fills a vector from the slice, and replaces the quarter that begins at the middle by the last
/// third of the slice.
pub(crate) fn splice<T: Element + Copy>(alloc: Global, items: &[T], count: u64) -> u64 {
    let added = &items[items.len() - items.len() / 3..];
    let (start, end) = quarter(items);
    let mut sum = 0u64;
    for _ in 0..count {
        let mut list = list_of(alloc, items);
        if range_in(&(start..end), list.len())
            && let Ok(removed) = list.splice(start..end, added.iter().copied())
        {
            for item in removed {
                sum = sum.wrapping_add(item.seen());
            }
        }
        sum = sum.wrapping_add(list.len() as u64);
    }
    sum
}

/// The range of the quarter that begins at the middle of a slice.
fn quarter<T>(items: &[T]) -> (usize, usize) {
    let start = items.len() / 2;
    (start, start + items.len() / 4)
}

/// Fills a vector from the slice, and drains the quarter that begins at the middle.
pub(crate) fn drain<T: Element>(alloc: Global, items: &[T], count: u64) -> u64 {
    let (start, end) = quarter(items);
    let mut sum = 0u64;
    for _ in 0..count {
        let mut list = list_of(alloc, items);
        if range_in(&(start..end), list.len())
            && let Ok(removed) = list.drain(start..end)
        {
            for item in removed {
                sum = sum.wrapping_add(item.seen());
            }
        }
        sum = sum.wrapping_add(list.len() as u64);
    }
    sum
}

#[inline(never)]
fn total<T: Element>(list: &EcoVec<T>) -> u64 {
    let mut sum = 0u64;
    for item in list.iter() {
        sum = sum.wrapping_add(item.seen());
    }
    sum
}

/// Adds up the elements of two vectors by reference. The vectors take turns.
pub(crate) fn iter<T: Element>(alloc: Global, items: &[T], count: u64) -> u64 {
    let (even, odd) = (list_of(alloc, items), list_of(alloc, items));
    sum_of(
        count,
        |round| total(if round % 2 == 0 { &even } else { &odd }),
    )
}

/// Fills a vector from the slice, and adds up its elements by value.
pub(crate) fn into_iter<T: Element>(alloc: Global, items: &[T], count: u64) -> u64 {
    let mut sum = 0u64;
    for _ in 0..count {
        if let Ok(rest) = list_of(alloc, items).into_iter() {
            for item in rest {
                sum = sum.wrapping_add(item.seen());
            }
        }
    }
    sum
}
