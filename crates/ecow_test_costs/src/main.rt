//! Measures what each call costs, and prints a row for each call in each state, as the tables of
//! `docs/COSTS.md` have them. Calls are marked, so that their requests for memory, the last column,
//! can be counted from outside the program. With the argument `hash` no call is marked, and the
//! program prints how many rows there are, and their hash.
#![tactic(auto)]

mod marks;
mod measure;
mod prints;
mod rows;

use crate::marks::Meter;
use crate::measure::{add_bytes, add_copies, add_elements, add_texts, add_units, add_vectors};
use crate::rows::Rows;
use ecow_bytes::SmallBytes;
use ecow_string::SmallText;
use ecow_test_calls::arguments::is_given;
use std::alloc::Global;
use std::hash::{DefaultHasher, Hash, Hasher};
use std::io;

/// Adds the rows of one type, at each inline limit.
macro_rules! add_at {
    ($add:ident $value:ident($rows:expr): [$($limit:literal),*]) => {
        $($add::<$value<$limit>>($rows);)*
    };
}

/// The rows of all tables.
fn all_rows(alloc: Global, marked: bool) -> Rows {
    let mut rows = Rows::new(Meter::new(alloc, marked));
    add_vectors(&mut rows);
    add_copies(&mut rows);
    add_units(&mut rows);
    add_elements::<()>(&mut rows, ": ()");
    add_elements::<u8>(&mut rows, ": u8");
    add_elements::<u32>(&mut rows, ": u32");
    add_elements::<i64>(&mut rows, ": i64");
    add_elements::<[i64; 13]>(&mut rows, ": [i64; 13]");
    add_at!(add_bytes SmallBytes(&mut rows): [0, 1, 3, 15, 23, 255]);
    add_at!(add_texts SmallText(&mut rows): [0, 1, 3, 15, 23, 255]);
    prints::add_rows(&mut rows);
    rows
}

/// Prints all rows, with calls marked, or their number and hash, in which two builds of the program
/// must agree.
fn main(rt: HostRuntime) -> io::Result<()> {
    if !is_given(&rt, "hash") {
        return print!(rt; "{}", all_rows(rt.alloc(), true).text);
    }
    let rows = all_rows(rt.alloc(), false);
    let mut hasher = DefaultHasher::new();
    rows.text.as_str().hash(&mut hasher);
    println!(rt;
        "{} rows, hash {}",
        rows.text.as_str().lines().count(),
        hasher.finish()
    )
}
