//! A template that is filled many times, each time with one more new value.

use crate::random::{Random, part, prose};
use ecow_list::{EcoError, EcoVec};
use ecow_string::EcoString;
use std::alloc::Global;

/// The number of values.
const NAMES: usize = 20;

/// A part of the template: a text, and the number of the value after it.
#[derive(Drop)]
struct Hole {
    literal: EcoString,
    name: usize,
}

/// A template with this many holes.
fn template(
    alloc: Global,
    random: &mut Random,
    prose: &str,
    holes: usize,
) -> Result<Vec<Hole>, EcoError> {
    let mut template = Vec::new(alloc);
    for _ in 0..holes {
        let literal = EcoString::from_str(alloc, part(random, prose, 40))?;
        template.push(Hole {
            literal,
            name: random.below(NAMES),
        })?;
    }
    Ok(template)
}

fn values(alloc: Global, random: &mut Random, prose: &str) -> Result<EcoVec<EcoString>, EcoError> {
    let mut values = EcoVec::new(alloc);
    for _ in 0..NAMES {
        values.push(EcoString::from_str(alloc, part(random, prose, 30))?)?;
    }
    Ok(values)
}

/// The values, with a random one replaced.
fn changed(
    alloc: Global,
    random: &mut Random,
    prose: &str,
    values: &EcoVec<EcoString>,
) -> Result<EcoVec<EcoString>, EcoError> {
    let mut own = values.clone()?;
    let at = random.below(NAMES);
    if at < own.len() {
        own.set(at, EcoString::from_str(alloc, part(random, prose, 30))?)?;
    }
    Ok(own)
}

/// The template filled with these values.
fn filled(
    alloc: Global,
    template: &[Hole],
    values: &EcoVec<EcoString>,
) -> Result<EcoString, EcoError> {
    let mut page = EcoString::new(alloc);
    for hole in template {
        page.push_str(hole.literal.as_str())?;
        if let Some(value) = values.as_slice().get(hole.name) {
            page.push_str(value.as_str())?;
        }
    }
    Ok(page)
}

/// Fills a template with `holes` holes `fills` times, and keeps the pages.
pub(crate) fn templates(alloc: Global, holes: usize, fills: u64) -> Result<u64, EcoError> {
    let mut random = Random::new();
    let prose = prose(alloc, &mut random)?;
    let template = template(alloc, &mut random, prose.as_str(), holes)?;
    let values = values(alloc, &mut random, prose.as_str())?;
    let mut pages = Vec::new(alloc);
    for _ in 0..fills {
        let own = changed(alloc, &mut random, prose.as_str(), &values)?;
        pages.push(filled(alloc, template.as_slice(), &own)?)?;
    }
    let mut sum = 0u64;
    for page in pages.as_slice() {
        sum = sum.wrapping_add(page.len() as u64);
    }
    Ok(sum)
}
