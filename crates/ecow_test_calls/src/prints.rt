//! Values that are formatted into texts.
use crate::watch::Watch;
use ecow_string::{EcoString, ToEcoString, eco_format};
use std::fmt;

/// Whether a value was formatted as expected, or refused for memory. A text that fits inline takes
/// no memory.
fn is_printed(watch: &Watch, printed: Result<EcoString, fmt::Error>, want: &str) -> bool {
    match printed {
        Ok(text) => text.as_str() == want && text.is_inline() == (want.len() <= 15),
        Err(_) => want.len() > 15 && watch.may_refuse(),
    }
}

pub fn printing_holds(watch: &Watch) -> bool {
    let alloc = watch.alloc;
    let short = 12345.to_eco_string(alloc);
    let long = "printed past 15 bytes".to_eco_string(alloc);
    let joined = eco_format!(in alloc; "{}, {}", 12345, 6);
    let several = eco_format!(in alloc; "{}, and {}, and {}", 12345, "more", 'c');
    is_printed(watch, short, "12345")
        && is_printed(watch, long, "printed past 15 bytes")
        && is_printed(watch, joined, "12345, 6")
        && is_printed(watch, several, "12345, and more, and c")
}
