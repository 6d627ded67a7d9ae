//! What `make bench` times. `ecow_bench CALL ELEMENT LENGTH COUNT` repeats a loop COUNT times on a
//! list of LENGTH elements, and prints a sum of what it saw. If CALL begins with `bytes_`, `text_`
//! or `nested_`, the loop is on LENGTH bytes, letters or parts. `ecow_bench NAME workload SIZE
//! COUNT` runs a whole program. Without arguments it runs each whole program at two small sizes.
#![tactic(auto)]

mod bytes;
mod elements;
mod history;
mod loops;
mod nested;
mod pairs;
mod random;
mod rounds;
mod symbols;
mod templates;
mod texts;
mod trees;

use ecow_list::{EcoError, EcoVec};
use elements::Element;
use std::alloc::{AllocError, Global};
use std::env::Env;
use std::{env, io};

/// Each whole program, and two small sizes.
const WORKLOADS: [(&str, usize, u64); 4] = [
    ("history", 5000, 20),
    ("symbols", 10, 1000),
    ("templates", 10, 20),
    ("trees", 3, 20),
];

fn main(rt: HostRuntime) -> io::Result<()> {
    let words = arguments(&rt)?;
    let [call, element, length, count] = words.as_slice() else {
        return print_all(&rt);
    };
    match (length.parse(), count.parse()) {
        (Ok(length), Ok(count)) => print_one(&rt, call, element, length, count),
        _ => Ok(()),
    }
}

/// What a whole program saw; 0 if there is no such program or no memory.
fn workload(alloc: Global, name: &str, length: usize, count: u64) -> u64 {
    let seen: Result<u64, EcoError> = match name {
        "history" => history::history(alloc, length, count),
        "symbols" => symbols::symbols(alloc, length, count),
        "templates" => templates::templates(alloc, length, count),
        "trees" => trees::trees(alloc, length, count),
        _ => Ok(0),
    };
    seen.unwrap_or(0)
}

/// Prints what each whole program saw at small sizes.
fn print_all(rt: &HostRuntime) -> io::Result<()> {
    for (name, length, count) in WORKLOADS {
        println!(rt; "{name} {}", workload(rt.alloc(), name, length, count))?;
    }
    Ok(())
}

/// Prints what the loop of one call saw, on `len` elements and `count` times.
fn print_one(
    rt: &HostRuntime,
    call: &str,
    element: &str,
    length: usize,
    count: u64,
) -> io::Result<()> {
    if element == "workload" {
        println!(rt; "{}", workload(rt.alloc(), call, length, count))?;
        return Ok(());
    }
    let numbers = numbers(rt.alloc(), length)?;
    let seen = sum(rt.alloc(), call, element, numbers.as_slice(), count)?;
    println!(rt; "{seen}")?;
    Ok(())
}

/// The words after the program's name.
fn arguments(rt: &(impl Env + AllocGlobal)) -> io::Result<Vec<String>> {
    let mut words = env::args(rt)?;
    let _program = words.next();
    Ok(words.collect(rt.alloc())?)
}

/// Unordered numbers. A large block is freed first, so that the C library keeps such blocks from
/// then on.
fn numbers(alloc: Global, length: usize) -> Result<Vec<u64>, AllocError> {
    let large: Vec<u8> = Vec::with_capacity(alloc, 32505856)?;
    drop(large);
    let mut numbers = Vec::with_capacity(alloc, length)?;
    let mut state = 88172645463325252u64;
    for _ in 0..length {
        state ^= state << 13;
        state ^= state >> 7;
        state ^= state << 17;
        numbers.push(state)?;
    }
    Ok(numbers)
}

/// What a loop saw; 0 if there is no such call. All loops on lists are for numbers, and some are
/// for other elements, too.
fn sum(
    alloc: Global,
    call: &str,
    element: &str,
    numbers: &[u64],
    count: u64,
) -> Result<u64, AllocError> {
    if call.starts_with("bytes_") {
        let bytes = letters(alloc, numbers)?;
        return Ok(sum_of_bytes(alloc, call, bytes.as_slice(), count));
    }
    if call.starts_with("text_") {
        let text = prose(alloc, numbers)?;
        return Ok(sum_of_texts(alloc, call, text.as_str(), count));
    }
    if call.starts_with("nested_") {
        return Ok(nested::sum(alloc, call, numbers.len(), count).unwrap_or(0));
    }
    match element {
        "u8" => sum_of_copies::<u8>(alloc, call, numbers, count),
        "[u64;3]" => sum_of_copies::<[u64; 3]>(alloc, call, numbers, count),
        "[u64;8]" => sum_of_copies::<[u64; 8]>(alloc, call, numbers, count),
        "vector" => sum_of_items::<EcoVec<u64>>(alloc, call, numbers, count),
        "String" => sum_of_items::<String>(alloc, call, numbers, count),
        _ => sum_of_numbers(alloc, call, numbers, count),
    }
}

/// A lower case letter for each number.
fn prose(alloc: Global, items: &[u64]) -> Result<String, AllocError> {
    let mut prose = String::with_capacity(alloc, items.len())?;
    for item in items {
        prose.push(char::from(b'a' + (*item % 26) as u8))?;
    }
    Ok(prose)
}

fn sum_of_texts(alloc: Global, call: &str, text: &str, count: u64) -> u64 {
    match call {
        "text_from_str" => texts::from_str(alloc, text, count),
        "text_clone" => pairs::clone(|| texts::text_of(alloc, text), count),
        "text_push_a" => texts::push(alloc, 'a', text, count),
        "text_push_e" => texts::push(alloc, 'é', text, count),
        "text_push_str" => texts::push_str(alloc, text, count),
        "text_pop" => texts::pop(alloc, text, count),
        "text_insert_str" => texts::insert_str(alloc, text, count),
        "text_replace_rare" => texts::replace(alloc, "qzx", text, count),
        "text_replace_often" => texts::replace(alloc, "v", text, count),
        "text_to_uppercase" => texts::to_uppercase(alloc, text, count),
        "text_repeat" => texts::repeat(alloc, text, count),
        "text_format" => texts::format(alloc, text, count),
        "text_to_eco_string" => texts::to_eco_string(alloc, count),
        _ => pairs::compare(call, || texts::text_of(alloc, text), count),
    }
}

/// A byte for each number.
fn letters(alloc: Global, items: &[u64]) -> Result<Vec<u8>, AllocError> {
    let mut letters = Vec::with_capacity(alloc, items.len())?;
    for item in items {
        letters.push((*item % 251) as u8)?;
    }
    Ok(letters)
}

fn sum_of_bytes(alloc: Global, call: &str, bytes: &[u8], count: u64) -> u64 {
    match call {
        "bytes_from_slice" => bytes::from_slice(alloc, bytes, count),
        "bytes_clone" => pairs::clone(|| bytes::bytes_of(alloc, bytes), count),
        "bytes_push" => bytes::push(alloc, bytes, count),
        "bytes_extend" => bytes::extend(alloc, bytes, count),
        "bytes_repeat" => bytes::repeat(alloc, bytes, count),
        "bytes_insert_slice" => bytes::insert_slice(alloc, bytes, count),
        _ => pairs::compare(call, || bytes::bytes_of(alloc, bytes), count),
    }
}

/// The elements of the list, made from the numbers.
fn elements_of<T: Element>(alloc: Global, numbers: &[u64]) -> Result<Vec<T>, AllocError> {
    let mut items = Vec::with_capacity(alloc, numbers.len())?;
    for number in numbers {
        items.push(T::from_number(alloc, *number)?)?;
    }
    Ok(items)
}

fn sum_of_numbers(
    alloc: Global,
    call: &str,
    numbers: &[u64],
    count: u64,
) -> Result<u64, AllocError> {
    Ok(match call {
        "push" => loops::push(alloc, numbers, count),
        "clone" => loops::clone(alloc, numbers, count),
        "clone_push" => loops::clone_push(alloc, numbers, count),
        "pop" => loops::pop(alloc, numbers, count),
        "update" => loops::update(alloc, numbers, count),
        "from_slice" => loops::from_slice(alloc, numbers, count),
        "extend" => loops::extend(alloc, numbers, count),
        "extend_pieces" => loops::extend_pieces(alloc, numbers, count),
        "extend_few" => loops::extend_few(alloc, numbers, count),
        "sort" => loops::sort(alloc, numbers, count),
        "retain" => loops::retain(alloc, numbers, count),
        "iter" => loops::iter(alloc, numbers, count),
        "into_iter" => loops::into_iter(alloc, numbers, count),
        _ => return sum_of_copies::<u64>(alloc, call, numbers, count),
    })
}

fn sum_of_copies<T: Element + Copy>(
    alloc: Global,
    call: &str,
    numbers: &[u64],
    count: u64,
) -> Result<u64, AllocError> {
    if call == "splice" {
        let items: Vec<T> = elements_of(alloc, numbers)?;
        return Ok(loops::splice(alloc, items.as_slice(), count));
    }
    sum_of_items::<T>(alloc, call, numbers, count)
}

fn sum_of_items<T: Element>(
    alloc: Global,
    call: &str,
    numbers: &[u64],
    count: u64,
) -> Result<u64, AllocError> {
    let items: Vec<T> = elements_of(alloc, numbers)?;
    let items = items.as_slice();
    Ok(match call {
        "insert_remove" => loops::insert_remove(alloc, items, count),
        "remove_first" => loops::remove_first(alloc, items, count),
        "write" => loops::write(alloc, items, count),
        "drain" => loops::drain(alloc, items, count),
        _ => pairs::compare(call, || loops::list_of(alloc, items), count),
    })
}
