//! How values and errors are formatted: vectors and bytes as their slices, texts as their `str`s.
use ecow_bytes::{EcoBytes, SmallBytes};
use ecow_list::{EcoError, EcoVec, IntoArray, Rejected};
use ecow_string::{EcoString, SmallText};
use std::alloc::{AllocError, Global};
use std::fmt::{Debug, Display};
use std::test::Fail;

/// Whether exactly up to `N` bytes are inline, in bytes and in texts with this limit.
fn is_limit<const N: usize>(limit: usize) -> bool {
    SmallBytes::<N>::INLINE_LIMIT == limit && SmallText::<N>::INLINE_LIMIT == limit
}

#[test]
fn limits_are_those_of_the_type(rt: HostRuntime) {
    assert!(rt; is_limit::<0>(0) && is_limit::<1>(1) && is_limit::<3>(3));
    assert!(rt; EcoBytes::INLINE_LIMIT == 15 && EcoString::INLINE_LIMIT == 15);
    assert!(rt; is_limit::<23>(23) && is_limit::<255>(255));
}

/// The debug text of a list, in each format.
fn debugged<T: Debug>(alloc: Global, value: &T) -> Result<String, AllocError> {
    format!(in alloc; "{value:?}|{value:#?}|{value:3?}|{value:02?}")
}

/// Whether the debug text of a value is that of these bytes.
fn is_debugged_as<T: Debug + Drop>(
    alloc: Global,
    value: T,
    bytes: &[u8],
) -> Result<bool, AllocError> {
    Ok(debugged(alloc, &value)? == debugged(alloc, &bytes)?)
}

/// Spilled bytes.
fn spilled(alloc: Global, bytes: &[u8]) -> Result<EcoBytes, EcoError> {
    Ok(EcoBytes::from(EcoVec::from_slice(alloc, bytes)?))
}

/// Whether the debug text of bytes is that of their slice: as a vector, spilled, and as they are
/// made.
fn is_debugged(alloc: Global, bytes: &[u8]) -> Result<bool, EcoError> {
    Ok(
        is_debugged_as(alloc, EcoVec::from_slice(alloc, bytes)?, bytes)?
            && is_debugged_as(alloc, spilled(alloc, bytes)?, bytes)?
            && is_debugged_as(alloc, EcoBytes::from_slice(alloc, bytes)?, bytes)?,
    )
}

#[test]
fn lists_and_bytes_are_debugged_as_slices(rt: HostRuntime) -> Result<(), Fail> {
    let bytes: Vec<u8> = (0..=255).collect(rt.alloc())?;
    for len in [0, 1, 2, 15, 16, 100, 256] {
        let Some(part) = bytes.as_slice().get(..len) else {
            return Err("256 bytes".into());
        };
        assert!(rt; is_debugged(rt.alloc(), part)?, "{len}");
    }
    Ok(())
}

#[test]
fn a_list_is_debugged(rt: HostRuntime) -> Result<(), Fail> {
    let list = EcoVec::from_slice(rt.alloc(), &[1, -2, 300])?;
    let printed = format!(in rt.alloc(); "{list:?}")?;
    assert_eq!(rt; printed.as_str(), "[1, -2, 300]");
    Ok(())
}

/// A text in each format: padded on each side, padded far, cut, and for debugging.
fn printed<T: Debug + Display>(alloc: Global, text: &T) -> Result<String, AllocError> {
    let near = format!(in alloc; "{text}|{text:?}|{text:>8}|{text:*^8}|{text:<8}|{text:.2}|")?;
    let far = format!(in alloc; "{text:-^7.3}|{text:02}|{text:>204}|{text:*^304}|{text:<1004}")?;
    format!(in alloc; "{near}{far}")
}

/// Whether a text is formatted as its `str` is.
fn is_printed(alloc: Global, text: &str) -> Result<bool, EcoError> {
    let value = EcoString::from_str(alloc, text)?;
    Ok(printed(alloc, &value)? == printed(alloc, &text)?)
}

#[test]
fn texts_are_printed_as_str_is(rt: HostRuntime) -> Result<(), Fail> {
    for text in [
        "",
        "a'b",
        "grün",
        "é\t\"\\",
        "\u{0}\u{7f}\r\n",
        "0123456789abcdef",
        "sixteen letters 🌱",
    ] {
        assert!(rt; is_printed(rt.alloc(), text)?, "{text}");
    }
    Ok(())
}

#[test]
fn a_long_text_is_printed_as_str_is(rt: HostRuntime) -> Result<(), Fail> {
    let mut long = String::new(rt.alloc());
    for _ in 0..500 {
        long.push_str("é\t")?;
    }
    assert!(rt; is_printed(rt.alloc(), long.as_str())?);
    Ok(())
}

#[test]
fn a_text_is_debugged_cut_and_padded(rt: HostRuntime) -> Result<(), Fail> {
    let value = EcoString::from_str(rt.alloc(), "grün\n")?;
    let told = format!(in rt.alloc(); "{value:?}|{value:12?}|{value:.3}|{value:_>7}")?;
    assert_eq!(rt; told.as_str(), "\"grün\\n\"|\"grün\\n\"|grü|__grün\n");
    Ok(())
}

/// Errors and their messages, alone and with the value that came back.
const ERRORS: [(EcoError, &str); 2] = [
    (
        EcoError::Memory,
        "out of memory|out of memory|Rejected { error: Memory, value: 7 }",
    ),
    (
        EcoError::Capacity,
        "capacity overflow|capacity overflow|Rejected { error: Capacity, value: 7 }",
    ),
];

#[test]
fn errors_say_what_is_wanting(rt: HostRuntime) -> Result<(), Fail> {
    for (error, said) in ERRORS {
        let rejected = Rejected { error, value: 7 };
        let told = format!(in rt.alloc(); "{error}|{rejected}|{rejected:?}")?;
        assert_eq!(rt; told.as_str(), said);
    }
    Ok(())
}

/// The message of an error, and its debug text.
fn both_ways(alloc: Global, error: IntoArray<u8>) -> Result<String, AllocError> {
    format!(in alloc; "{error}|{error:?}")
}

#[test]
fn a_vector_of_another_length_is_no_array(rt: HostRuntime) -> Result<(), Fail> {
    let list = EcoVec::from_slice(rt.alloc(), &[3, 5])?;
    let told = both_ways(rt.alloc(), IntoArray::Length(list))?;
    assert_eq!(rt;
        told.as_str(),
        "the vector has another length than the array|Length([3, 5])"
    );
    Ok(())
}

#[test]
fn a_vector_that_is_refused_is_no_array(rt: HostRuntime) -> Result<(), Fail> {
    for (error, said) in [
        (EcoError::Memory, "out of memory|Refused(Memory, [3, 5])"),
        (
            EcoError::Capacity,
            "capacity overflow|Refused(Capacity, [3, 5])",
        ),
    ] {
        let list = EcoVec::from_slice(rt.alloc(), &[3, 5])?;
        let told = both_ways(rt.alloc(), IntoArray::Refused(error, list))?;
        assert_eq!(rt; told.as_str(), said);
    }
    Ok(())
}
