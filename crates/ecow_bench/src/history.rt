//! An undo history: a document in three levels. A clone of it is kept before each edit.

use crate::random::{Random, part, prose};
use ecow_list::{EcoError, EcoVec};
use ecow_string::EcoString;
use std::alloc::Global;

/// How many lines a part has, and how many parts a page has.
const FAN: usize = 50;

/// The most letters of a line at first.
const LONGEST: usize = 80;

type Lines = EcoVec<EcoString>;

type Page = EcoVec<Lines>;

type Document = EcoVec<Page>;

/// A document of this many lines.
fn document_of(
    alloc: Global,
    random: &mut Random,
    prose: &str,
    lines: usize,
) -> Result<Document, EcoError> {
    let mut document = EcoVec::new(alloc);
    for _ in 0..lines / (FAN * FAN) {
        let mut page = EcoVec::new(alloc);
        for _ in 0..FAN {
            page.push(few_lines(alloc, random, prose)?)?;
        }
        document.push(page)?;
    }
    Ok(document)
}

fn few_lines(alloc: Global, random: &mut Random, prose: &str) -> Result<Lines, EcoError> {
    let mut few = EcoVec::new(alloc);
    for _ in 0..FAN {
        few.push(EcoString::from_str(alloc, part(random, prose, LONGEST))?)?;
    }
    Ok(few)
}

/// What a document consists of, at each of its levels.
trait Level {
    /// Inserts a letter into a random line.
    fn edit(&mut self, random: &mut Random) -> Result<(), EcoError>;

    /// The length of a random line; 0 if there is none.
    fn looked_at(&self, random: &mut Random) -> u64;
}

impl Level for EcoString {
    fn edit(&mut self, random: &mut Random) -> Result<(), EcoError> {
        let at = random.below(self.len().saturating_add(1));
        if self.is_char_boundary(at) {
            self.insert_str(at, "x")?;
        }
        Ok(())
    }

    fn looked_at(&self, _random: &mut Random) -> u64 {
        self.len() as u64
    }
}

impl<T: Level + Clone> Level for EcoVec<T> {
    fn edit(&mut self, random: &mut Random) -> Result<(), EcoError> {
        let parts = self.make_mut()?;
        let at = random.below(parts.len());
        match parts.get_mut(at) {
            Some(part) => part.edit(random),
            None => Ok(()),
        }
    }

    fn looked_at(&self, random: &mut Random) -> u64 {
        let parts = self.as_slice();
        match parts.get(random.below(parts.len())) {
            Some(part) => part.looked_at(random),
            None => 0,
        }
    }
}

/// Edits a document this many times, keeps a clone before each edit, and goes back.
pub(crate) fn history(alloc: Global, lines: usize, edits: u64) -> Result<u64, EcoError> {
    let mut random = Random::new();
    let prose = prose(alloc, &mut random)?;
    let mut document = document_of(alloc, &mut random, prose.as_str(), lines)?;
    let mut snapshots = Vec::new(alloc);
    for _ in 0..edits {
        snapshots.push(document.clone()?)?;
        document.edit(&mut random)?;
    }
    let mut sum = document.looked_at(&mut random);
    for _ in 0..edits {
        if let Some(before) = snapshots.pop() {
            document = before;
            sum = sum.wrapping_add(document.looked_at(&mut random));
        }
    }
    Ok(sum)
}
