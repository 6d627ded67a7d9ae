//! `ecow-run [--counted] FILE`: runs a script of commands on named values.
#![tactic(auto)]

use ecow_tool::{End, Exit, read_arguments, run_counted, run_store};
use std::alloc::AllocError;
use std::env::{Env, FillError};
use std::fs::File;
use std::io;
use std::process::ExitCode;

/// How many bytes a word has at most that names a file, as the operating system has it.
const LONGEST_PATH: usize = 4096;

fn main(rt: HostRuntime) -> ExitCode {
    let exit = match arguments(&rt) {
        Ok(words) => run(&rt, words.as_slice()),
        Err(_) => Exit::After(End::Memory),
    };
    let _ = eprint!(rt; "{exit}");
    ExitCode::from(exit.status())
}

/// The words after the program's name. A word that isn't UTF-8, or is too long, can't be the name
/// of a file here: it is an empty word, which names none either.
fn arguments(rt: &(impl Env + AllocGlobal)) -> Result<Vec<String>, AllocError> {
    let mut words = Vec::new(rt.alloc());
    let mut buffer = [0; LONGEST_PATH];
    for place in 1..usize::MAX {
        match rt.arg(place, &mut buffer) {
            Ok(len) => words.push(word(&buffer[..len]).to_string(rt.alloc())?)?,
            Err(FillError::TooLong) => words.push(String::new(rt.alloc()))?,
            Err(FillError::NotPresent) => break,
        }
    }
    Ok(words)
}

/// The word of which these are the bytes.
fn word(bytes: &[u8]) -> &str {
    match str::from_utf8(bytes) {
        Ok(word) => word,
        Err(_) => "",
    }
}

/// Runs the script that the words name.
fn run(rt: &HostRuntime, words: &[String]) -> Exit {
    let Some((counted, place)) = read_arguments(words) else {
        return Exit::Usage;
    };
    Exit::After(match File::open(rt, &words[place]) {
        Ok(mut file) if counted => run_counted(rt.alloc(), &mut file, &mut io::writer(rt)),
        Ok(mut file) => run_store(rt.alloc(), &mut file, &mut io::writer(rt)),
        Err(_) => End::File,
    })
}
