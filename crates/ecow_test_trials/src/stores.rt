//! Tries what no script can say of the stores: `fill`, runs without memory for their outcomes,
//! clones of elements that are counted and refused, and other inline limits than 15.
use ecow_counted::{Counted, Filled};
use ecow_list::{EcoError, Rejected};
use ecow_model::{BytesCommand, Command, Items, Outcome, Refusal, Text, TextCommand, VecCommand};
use ecow_store::SmallStore;
use ecow_test_calls::counting::{Counting, Source, Tally};
use ecow_test_calls::watch::Watch;
use std::alloc::{AllocError, Global};
use std::ops::Bound;

/// What each part is about.
pub(crate) const NAMES: [&str; 7] = [
    "filled lists",
    "runs",
    "clones in a store",
    "clones in counted lists",
    "bytes and texts of a store, none inline",
    "bytes and texts of a store, 4 inline",
    "bytes and texts of a store, 23 inline",
];

/// Whether the part with this number, counted from 0, holds.
pub(crate) fn part_holds(part: usize, watch: &Watch) -> bool {
    let alloc = watch.alloc;
    let said = match part {
        0 => filling_holds(alloc, watch),
        1 => runs_hold(alloc, watch),
        2 => clones_hold::<SmallStore<Counting, 15>>(alloc, watch),
        3 => clones_hold::<Counted<Counting>>(alloc, watch),
        4 => limit_holds::<0>(&mut SmallStore::new(alloc), alloc, watch),
        5 => limit_holds::<4>(&mut SmallStore::new(alloc), alloc, watch),
        _ => limit_holds::<23>(&mut SmallStore::new(alloc), alloc, watch),
    };
    // Memory for what the test gives to a store may be refused, too.
    said.unwrap_or_else(|_| watch.may_refuse())
}

fn lacks_memory<E>(outcome: &Outcome<E>) -> bool {
    matches!(outcome, Outcome::Refused(Refusal::Memory))
}

/// How many numbers a list is filled with, how many of them move, and the list's capacity.
const FILLED: [(usize, u64, usize); 5] = [
    (0, 0, 0),
    (4, 0, 4),
    (5, 4, 8),
    (9, 12, 16),
    (17, 28, 32),
];

/// How many numbers a list takes until a request is refused, how many of them move, and its
/// capacity. The first is for a refused name or first block, the others for a larger block.
const FULL: [(usize, u64, usize); 4] = [(0, 0, 0), (4, 0, 4), (8, 4, 8), (16, 12, 16)];

/// Fills lists with the numbers from 0 on, and with zero-sized elements, which take memory only for
/// the name and the first block.
fn filling_holds(alloc: Global, watch: &Watch) -> Result<bool, AllocError> {
    let mut hold = true;
    for wanted in FILLED {
        let (mut items, mut counted) = (Vec::new(alloc), Counted::new(alloc));
        for item in 0..wanted.0 {
            items.push(item)?;
        }
        let filled = counted.fill(0, items);
        let held = counted.get(0).unwrap_or(&[]);
        let are_right = held.iter().enumerate().all(|(place, item)| place == *item);
        hold = costs_are_right(&counted, filled, wanted, &FULL, watch) && are_right && hold;
    }
    let (items, mut counted) = (Vec::from_array(alloc, [(); 9])?, Counted::new(alloc));
    let filled = counted.fill(0, items);
    Ok(hold && costs_are_right(&counted, filled, (9, 12, 16), &FULL[..1], watch))
}

fn costs_are_right<T>(
    counted: &Counted<T>,
    filled: Filled,
    wanted: (usize, u64, usize),
    full: &[(usize, u64, usize)],
    watch: &Watch,
) -> bool {
    let capacity = counted.capacity(0).unwrap_or(0);
    let costs = (filled.accepted, counted.moved(), capacity);
    match filled.refusal {
        None => costs == wanted,
        Some(Refusal::Memory) => full.contains(&costs) && watch.may_refuse(),
        Some(_) => false,
    }
}

/// Makes a list of three, appends one more, and asks for the length.
fn list_commands(alloc: Global) -> Result<[VecCommand<i64>; 3], AllocError> {
    let (name, items) = (0, Items::new(Vec::from_array(alloc, [1, 2, 3])?));
    Ok([
        VecCommand::FromList { name, items },
        VecCommand::Push { name, value: 4 },
        VecCommand::Len { name },
    ])
}

/// Runs commands in both stores. They come back if there is no memory for their outcomes.
fn runs_hold(alloc: Global, watch: &Watch) -> Result<bool, AllocError> {
    let mut commands = Vec::new(alloc);
    for command in list_commands(alloc)? {
        commands.push(Command::Vec(command))?;
    }
    let (mut store, mut counted) = (SmallStore::<i64, 15>::new(alloc), Counted::new(alloc));
    let of_store = run_holds(store.run(commands), watch);
    let counted_commands = Vec::from_array(alloc, list_commands(alloc)?)?;
    Ok(of_store && run_holds(counted.run(counted_commands), watch))
}

fn run_holds<C: Drop>(ran: Result<Vec<Outcome<i64>>, Rejected<Vec<C>>>, watch: &Watch) -> bool {
    match ran {
        Ok(outcomes) => match (outcomes.first(), outcomes.get(1), outcomes.last()) {
            (Some(Outcome::Done), Some(Outcome::Done), Some(Outcome::Count(4))) => true,
            (Some(Outcome::Done), Some(second), Some(Outcome::Count(3))) => {
                lacks_memory(second) && watch.may_refuse()
            }
            (Some(first), _, Some(Outcome::Refused(Refusal::NoName))) => {
                lacks_memory(first) && watch.may_refuse()
            }
            _ => false,
        },
        Err(rejected) => {
            rejected.error == EcoError::Memory && rejected.value.len() == 3 && watch.may_refuse()
        }
    }
}

/// What both stores do with lists.
trait Lists: Drop {
    fn start(alloc: Global) -> Self;

    fn carry_out(&mut self, command: VecCommand<Counting>) -> Outcome<Counting>;

    /// How many elements were copied so far, if the store counts them.
    fn copies(&self) -> Option<u64> {
        None
    }
}

impl Lists for SmallStore<Counting, 15> {
    fn start(alloc: Global) -> Self {
        SmallStore::new(alloc)
    }

    fn carry_out(&mut self, command: VecCommand<Counting>) -> Outcome<Counting> {
        self.step(Command::Vec(command))
    }
}

impl Lists for Counted<Counting> {
    fn start(alloc: Global) -> Self {
        Counted::new(alloc)
    }

    fn carry_out(&mut self, command: VecCommand<Counting>) -> Outcome<Counting> {
        self.step(command)
    }

    fn copies(&self) -> Option<u64> {
        Some(self.copied())
    }
}

/// How many elements a command copies, how many it clones in all, and how many exist afterwards.
type Costs = (u64, u64, u64);

/// The command with this number, on a list of four whose block another name shares.
fn nth_command(
    number: usize,
    alloc: Global,
    tally: &Tally,
) -> Result<(VecCommand<Counting>, Costs), AllocError> {
    let (name, index, value, additional, n) = (0, 1, tally.element()?, 4, 3);
    let bounds = (Bound::Included(1), Bound::Excluded(3));
    let marks = Items::new(Vec::from_array(alloc, [true, false, true, false])?);
    let items = Items::new(tally.elements(alloc, 2)?);
    Ok(match number {
        0 => (VecCommand::Push { name, value }, (4, 4, 9)),
        1 => (VecCommand::Insert { name, index, value }, (4, 4, 9)),
        2 => (VecCommand::Pop { name }, (4, 4, 7)),
        3 => (VecCommand::Remove { name, index }, (4, 4, 7)),
        4 => (VecCommand::Write { name, index, value }, (4, 4, 8)),
        5 => (VecCommand::Truncate { name, target: 1 }, (1, 1, 5)),
        6 => (VecCommand::Clear { name }, (0, 0, 4)),
        7 => (VecCommand::Retain { name, marks }, (4, 4, 6)),
        8 => (VecCommand::Drain { name, bounds }, (4, 4, 6)),
        9 => (
            VecCommand::Splice {
                name,
                bounds,
                items,
            },
            (4, 4, 8),
        ),
        10 => (VecCommand::Extend { name, items }, (4, 6, 10)),
        11 => (VecCommand::Reserve { name, additional }, (4, 4, 8)),
        12 => (VecCommand::Read { name, index }, (0, 1, 4)),
        13 => (VecCommand::Contents { name }, (0, 4, 4)),
        14 => (VecCommand::FromElem { name: 2, value, n }, (0, 3, 7)),
        _ => (VecCommand::Clone { from: 0, to: 2 }, (0, 0, 4)),
    })
}

/// Carries out each command: with no clone refused, and with each of its clones refused in turn. No
/// request for memory may be refused here.
fn clones_hold<K: Lists>(alloc: Global, watch: &Watch) -> Result<bool, AllocError> {
    let mut hold = true;
    if watch.is_strict() {
        for number in 0..16 {
            for refused in 0..8 {
                hold = clone_holds::<K>(alloc, number, refused)? && hold;
            }
        }
    }
    Ok(hold)
}

fn clone_holds<K: Lists>(alloc: Global, number: usize, refused: u64) -> Result<bool, AllocError> {
    let (tally, mut store) = (Tally::refusing(alloc, refused)?, K::start(alloc));
    let items = Items::new(tally.elements(alloc, 4)?);
    store.carry_out(VecCommand::FromList { name: 0, items });
    store.carry_out(VecCommand::Clone { from: 0, to: 1 });
    let (command, (copied, cloned, live)) = nth_command(number, alloc, &tally)?;
    let is_refused = lacks_memory(&store.carry_out(command));
    let copies = store.copies();
    let is_right = if is_refused {
        refused > 0 && refused <= cloned && tally.has_live(4) && copies.unwrap_or(0) == 0
    } else {
        tally.clones() == cloned && tally.has_live(live) && copies.unwrap_or(copied) == copied
    };
    drop(store);
    Ok(is_right && tally.has_live(0))
}

const LETTERS: &str = "abcdefghijklmnopqrstuvwxyz";

/// Makes bytes and a text of as many letters as fit inline, and clones them. Then it appends a
/// letter, removes it again, shrinks the capacity, and reserves capacity for one more. A command
/// that is refused for memory must change nothing.
fn limit_holds<const N: usize>(
    store: &mut SmallStore<i64, N>,
    alloc: Global,
    watch: &Watch,
) -> Result<bool, AllocError> {
    let (name, additional, all) = (0, 1, LETTERS.get(..N).unwrap_or(""));
    let byte = LETTERS.as_bytes().get(N).copied().unwrap_or(0);
    let c = char::from(byte);
    let bytes = Items::new(Vec::from_slice(alloc, all.as_bytes())?);
    let text = Text::new(String::from_str(alloc, all)?);
    let commands = [
        Command::Bytes(BytesCommand::FromList { name, bytes }),
        Command::Bytes(BytesCommand::Clone { from: name, to: 1 }),
        Command::Bytes(BytesCommand::Push { name, byte }),
        Command::Bytes(BytesCommand::Pop { name }),
        Command::Bytes(BytesCommand::ShrinkToFit { name }),
        Command::Bytes(BytesCommand::Reserve { name, additional }),
        Command::Bytes(BytesCommand::Drop { name }),
        Command::Text(TextCommand::FromStr { name, text }),
        Command::Text(TextCommand::Clone { from: name, to: 2 }),
        Command::Text(TextCommand::Push { name, c }),
        Command::Text(TextCommand::Pop { name }),
        Command::Text(TextCommand::ShrinkToFit { name }),
        Command::Text(TextCommand::Reserve { name, additional }),
        Command::Text(TextCommand::Drop { name }),
    ];
    let more = N.saturating_add(1);
    let (full, longer, spilled) = (Some((N, true)), Some((more, false)), Some((N, false)));
    let wanted = [full, full, longer, spilled, full, spilled, None];
    let (mut before, mut number) = (None, 0usize);
    for command in commands {
        let outcome = store.step(command);
        let held = held(store, name);
        if lacks_memory(&outcome) {
            return Ok(held == before && watch.may_refuse());
        }
        // The commands on the text leave the same as those on the bytes.
        if wanted.get(number % wanted.len()) != Some(&held) {
            return Ok(false);
        }
        before = held;
        number = number.wrapping_add(1);
    }
    Ok(held(store, 1) == full && held(store, 2) == full)
}

/// How many letters the value under a name has, and whether it is inline.
fn held<const N: usize>(store: &mut SmallStore<i64, N>, name: u32) -> Option<(usize, bool)> {
    let (bytes, question) = match (store.get_bytes(name), store.get_str(name)) {
        (Some(bytes), _) => (bytes, Command::Bytes(BytesCommand::IsInline { name })),
        (_, Some(text)) => {
            let question = Command::Text(TextCommand::IsInline { name });
            (text.as_bytes(), question)
        }
        _ => return None,
    };
    let (len, are_letters) = (bytes.len(), LETTERS.as_bytes().starts_with(bytes));
    match store.step(question) {
        Outcome::Flag(is_inline) if are_letters => Some((len, is_inline)),
        _ => None,
    }
}
