//! Runs the program over readers and writers that are slow, are interrupted or fail, in both
//! stores. The golden scripts test its answers, and `tools/gate/ends.sh` real files and outputs.
use crate::tests::streams::{Reader, Writer, ended};
use ecow_tool::End;
use std::process::Abort;

/// A script of texts, and the answers to it.
const STORED: (&[u8], &[u8]) = (
    b"text from_str t \"abcd\\u{1F600}\"
text truncate t 5
text remove t 4
text contents t
bytes from_list b [255]
text from_bytes b u
bytes len t
",
    b"ok
refused boundary
\"\xf0\x9f\x98\x80\"
\"abcd\"
ok
refused not-utf8
refused kind
",
);

/// A script of lists that share a block until one is written to, and the answers to it.
const COUNTED: (&[u8], &[u8]) = (
    b"vec from_list a [1,2,3]
vec clone a b
vec push b 4
vec contents b
",
    b"ok
ok
ok
[1,2,3,4]
blocks 2 copied 3 moved 0
",
);

/// How a script is read: how many bytes at a time, whether each read is interrupted first, and
/// which read fails. How its answers are written: how many bytes at a time, which write fails, and
/// whether flushing fails. Then how the program ends, and how many bytes the writer took.
type Row = ((usize, bool, usize), (usize, usize, bool), End, usize);

const MAX: usize = usize::MAX;

const ROWS: [Row; 18] = [
    ((1, false, 0), (MAX, 0, false), End::Done, MAX),
    ((1, true, 0), (MAX, 0, false), End::Done, MAX),
    ((7, true, 0), (MAX, 0, false), End::Done, MAX),
    ((1000, true, 0), (MAX, 0, false), End::Done, MAX),
    ((9, false, 1), (MAX, 0, false), End::File, 0),
    ((9, false, 2), (MAX, 0, false), End::File, 0),
    ((9, false, 3), (MAX, 0, false), End::File, 0),
    ((9, true, 3), (MAX, 0, false), End::File, 0),
    ((MAX, false, 0), (1, 0, false), End::Done, MAX),
    ((MAX, false, 0), (5, 0, false), End::Done, MAX),
    ((MAX, false, 0), (1000, 0, false), End::Done, MAX),
    ((MAX, false, 0), (1, 1, false), End::Output, 0),
    ((MAX, false, 0), (1, 2, false), End::Output, 1),
    ((MAX, false, 0), (5, 2, false), End::Output, 5),
    ((MAX, false, 0), (5, 3, false), End::Output, 10),
    ((MAX, false, 0), (0, 0, false), End::Output, 0),
    ((MAX, false, 0), (MAX, 1, false), End::Output, 0),
    ((MAX, false, 0), (MAX, 0, true), End::Output, MAX),
];

/// Whether the run of a script ends as the row says, and writes that many bytes of its answers.
fn is_answered(rt: &(impl Abort + AllocGlobal), counted: bool, row: &Row) -> bool {
    let (script, answers) = if counted { COUNTED } else { STORED };
    let ((read, interrupts, failing), (written, refused, loses), wanted, count) = *row;
    let mut reader = Reader::new(script, read);
    (reader.interrupts, reader.failing) = (interrupts, failing);
    let mut writer = Writer::new(rt.alloc(), written, refused);
    writer.loses = loses;
    let end = ended(rt.alloc(), counted, &mut reader, &mut writer);
    let taken = writer.taken.as_slice();
    let is_read_once = reader.ends == 1 || wanted == End::File;
    let front = answers.starts_with(taken) && taken.len() == count.min(answers.len());
    end == wanted && front && is_read_once
}

#[test]
fn scripts_and_answers_may_come_in_pieces_and_fail(rt: HostRuntime) {
    for counted in [false, true] {
        for (place, row) in ROWS.iter().enumerate() {
            assert!(rt; is_answered(&rt, counted, row), "{counted} {place}");
        }
    }
}
