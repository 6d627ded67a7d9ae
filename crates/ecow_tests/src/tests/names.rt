//! Measures how long a script takes whose names are close together in a hash map.
use crate::tests::streams::{Reader, Writer, ended};
use ecow_tool::End;
use std::alloc::Global;
use std::hash::{BuildHasher, BuildHasherDefault, FoldHasher};
use std::io;
use std::io::Write;
use std::test::Fail;
use std::time::CpuClock;

/// How many names are timed.
const TIMED: u32 = 100_000;

/// The number of groups in which a hash map keeps this many names.
const GROUPS: u64 = 16_384;

/// The standard library's hash of a name: of a number if the name has at most seven bytes, and of a
/// text otherwise.
fn hash_of(name: &str) -> u64 {
    let hasher: BuildHasherDefault<FoldHasher> = BuildHasherDefault::new();
    if name.len() > 7 {
        return hasher.hash_one(name);
    }
    let mut key = name.len() as u64;
    for byte in name.as_bytes() {
        key = key.wrapping_mul(256).wrapping_add(u64::from(*byte));
    }
    hasher.hash_one(key)
}

/// Whether a hash map keeps a name in the first sixteenth of its groups.
fn is_close(name: &str) -> bool {
    let hash = hash_of(name);
    ((hash ^ hash >> 32) & (GROUPS - 1)) < GROUPS / 16
}

/// A script that makes `TIMED` names with this beginning: any names, or only close ones.
fn named(alloc: Global, front: &str, close: bool) -> io::Result<Vec<u8>> {
    let mut script = Vec::new(alloc);
    let mut left = TIMED;
    for number in 0..u32::MAX {
        if left == 0 {
            break;
        }
        let name = format!(in alloc; "{front}{number:06x}")?;
        if !close || is_close(name.as_str()) {
            writeln!(script, "vec new {name}")?;
            left -= 1;
        }
    }
    Ok(script)
}

/// The milliseconds of processor time that a script takes; `None` if it doesn't make each name.
fn time_of(
    rt: &(impl AllocGlobal + CpuClock),
    front: &str,
    close: bool,
) -> io::Result<Option<u128>> {
    let script = named(rt.alloc(), front, close)?;
    let mut reader = Reader::new(script.as_slice(), usize::MAX);
    let mut writer = Writer::new(rt.alloc(), usize::MAX, 0);
    let began = rt.thread_cpu_time()?;
    let end = ended(rt.alloc(), false, &mut reader, &mut writer);
    let ended = rt.thread_cpu_time()?;
    if end != End::Done || writer.taken.len() != "ok\n".len() * TIMED as usize {
        return Ok(None);
    }
    Ok(Some(ended.saturating_sub(began).as_millis()))
}

#[test]
fn names_that_lie_close_together_take_no_longer(rt: HostRuntime) -> Result<(), Fail> {
    for front in ["a", "abc"] {
        let (plain, close) = (time_of(&rt, front, false)?, time_of(&rt, front, true)?);
        let (Some(plain), Some(close)) = (plain, close) else {
            return Err("a name was not made".into());
        };
        let most = plain.saturating_mul(4).saturating_add(20);
        assert!(rt; close <= most, "{front}: {plain} and {close} ms");
    }
    Ok(())
}
