//! Tries the calls of values, and what no script can say of the stores. The gate refuses each
//! request for memory of each part in turn: a call or a command then does its work, or is refused
//! and leaves everything as it was. With the argument `strict` no request is refused, so no call
//! may be refused for memory.
#![tactic(auto)]

mod stores;
mod values;

use ecow_test_calls::arguments::is_given;
use ecow_test_calls::watch::Watch;
use std::io::{self, Read};

/// The number of the one part to run, counted from 1, which is read from standard input; 0 if there
/// is none.
fn wanted_part(rt: &HostRuntime) -> usize {
    let mut word = [0u8; 4];
    let mut number = 0usize;
    if rt.reader().read(&mut word).is_ok() {
        for byte in word {
            if byte.is_ascii_digit() {
                number = number
                    .wrapping_mul(10)
                    .wrapping_add(usize::from(byte.wrapping_sub(48)));
            }
        }
    }
    number
}

/// Prints whether a part is as it must be.
fn report(rt: &HostRuntime, name: &str, holds: bool, watch: Watch) -> io::Result<()> {
    if holds && watch.is_kept() {
        return println!(rt; "{name}: as before or done");
    }
    let (call, state) = watch.wrong().unwrap_or(("", ""));
    println!(rt; "{name}: wrong {call} {state}")
}

/// Runs the wanted part or all parts, and prints a line for each.
fn main(rt: HostRuntime) -> io::Result<()> {
    let (alloc, strict, wanted) = (rt.alloc(), is_given(&rt, "strict"), wanted_part(&rt));
    let names = values::NAMES.iter().chain(stores::NAMES.iter());
    for (part, name) in names.enumerate() {
        if wanted == 0 || wanted == part.wrapping_add(1) {
            let watch = Watch::new(alloc, strict);
            let holds = match part.checked_sub(values::NAMES.len()) {
                Some(part) => stores::part_holds(part, &watch),
                None => values::part_holds(part, &watch),
            };
            report(&rt, name, holds, watch)?;
        }
    }
    Ok(())
}
