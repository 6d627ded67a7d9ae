// rust: no file: the crate has the macros of the original
//! `eco_format!`.

/// The text that std's `format!` makes, as an `EcoString`. It takes the allocator first, as std's
/// does: `eco_format!(in alloc; "{x}")`.
///
/// # Errors
///
/// `fmt::Error` if a value can't be printed, or if there is no memory for the text.
#[macro_export]
macro_rules! eco_format {
    (in $alloc:expr; $($arg:tt)+) => {
        $crate::EcoString::format($alloc, format_args!($($arg)+))
    };
}
