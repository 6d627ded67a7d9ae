//! Measures `eco_format!` and `to_eco_string`, which make an `EcoString`.
use crate::marks::Meter;
use crate::rows::{Cost, Form, Rows};
use ecow_list::EcoError;
use ecow_string::{EcoString, ToEcoString, eco_format};
use ecow_test_calls::tables::TIMES;
use std::alloc::{AllocError, Global};
use std::fmt;

/// Formats seven letters this many times.
#[derive(Drop)]
struct Pieces(usize);

impl fmt::Display for Pieces {
    fn fmt<W: fmt::Write>(&self, f: &mut fmt::Formatter<W>) -> fmt::Result {
        for _ in 0..self.0 {
            f.write_str("letters")?;
        }
        Ok(())
    }
}

/// A call, with the number of letters, or of pieces of seven letters, that it formats.
#[derive(Clone, Copy)]
enum Print {
    Format(usize),
    FormatPieces(usize),
    ToEcoString(usize),
    PiecesToEcoString(usize),
}

fn calls() -> [(Print, &'static str); 8] {
    [
        (Print::Format(15), "eco_format!(15)"),
        (Print::Format(16), "eco_format!(16)"),
        (Print::Format(1000), "eco_format!(1000)"),
        (Print::FormatPieces(TIMES), "eco_format!(14286 of 7)"),
        (Print::ToEcoString(15), "to_eco_string(15)"),
        (Print::ToEcoString(16), "to_eco_string(16)"),
        (Print::ToEcoString(1000), "to_eco_string(1000)"),
        (Print::PiecesToEcoString(TIMES), "to_eco_string(14286 of 7)"),
    ]
}

fn printed(call: Print, letters: &str, alloc: Global) -> Result<EcoString, fmt::Error> {
    match call {
        Print::Format(_) => eco_format!(in alloc; "{letters}"),
        Print::FormatPieces(count) => eco_format!(in alloc; "{}", Pieces(count)),
        Print::ToEcoString(_) => letters.to_eco_string(alloc),
        Print::PiecesToEcoString(count) => Pieces(count).to_eco_string(alloc),
    }
}

/// A string of `len` letters.
fn letters(alloc: Global, len: usize) -> Result<String, AllocError> {
    let mut letters = String::new(alloc);
    for _ in 0..len {
        letters.push('b')?;
    }
    Ok(letters)
}

fn cost(meter: Meter, call: Print, name: &'static str) -> Result<Cost, EcoError> {
    let letters = match call {
        Print::Format(len) | Print::ToEcoString(len) => letters(meter.alloc, len)?,
        _ => String::new(meter.alloc),
    };
    let _begun = meter.begin();
    let text = printed(call, letters.as_str(), meter.alloc)?;
    let _ended = meter.end();
    let form = if text.is_inline() {
        Form::Inline
    } else {
        Form::Sole
    };
    Ok(Cost::of_making(name, form, text.capacity()))
}

pub(crate) fn add_rows(rows: &mut Rows) {
    for (call, name) in calls() {
        rows.add(cost(rows.meter, call, name));
    }
}
