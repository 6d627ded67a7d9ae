//! Templates: texts with holes, as `Dear {name},`, that are filled from a map.
ghost use Rattle.std.specs.Prelude.{◌≡◌, List, IfOk, IfSome, IfNone, IsSomeAnd, flat_map};
ghost use Rattle.ecow_uses.specs.declared.template.Piece.{Piece};
ghost use Rattle.std.specs.Str.{chars};
ghost use Rattle.ecow_uses.specs.Template.{IsUnclosed, Lacks, Spells, filled, opening};

use ecow_list::{EcoError, EcoVec};
use ecow_string::EcoString;
use std::alloc::{AllocError, Global};
use std::collections::BTreeMap;

/// A part of a template.
#[derive(Drop)]
pub enum Piece {
    /// Text without `{`, which is written as it is.
    Text(EcoString),
    /// A hole with its name, which has no `}`. It is written in braces.
    Hole(EcoString),
}

impl Clone for Piece {
    ghost is_clone = { λ piece copy. copy ≡ piece };

    fn clone(&self) -> Result<Self, AllocError> {
        match self {
            Piece::Text(text) => Ok(Piece::Text(text.clone()?)),
            Piece::Hole(name) => Ok(Piece::Hole(name.clone()?)),
        }
    }
}

/// The pieces of a template; `None` if its last hole isn't closed.
pub fn parse(alloc: Global, template: &str) -> Result<Option<EcoVec<Piece>>, EcoError>
    ensures pieces { IfOk result
        (λ parsed. IfSome parsed (λ pieces. Spells pieces (chars template.now))) }
    ensures unclosed { IfOk result (λ parsed. IfNone parsed (IsUnclosed (chars template.now))) }
{
    let mut pieces = EcoVec::new(alloc);
    let mut part = EcoString::new(alloc);
    let mut in_hole = false;
    for c in template.chars() {
        if in_hole {
            if c == '}' {
                pieces.push(Piece::Hole(part))?;
                part = EcoString::new(alloc);
                in_hole = false;
            } else {
                part.push(c)?;
            }
        } else if c == '{' {
            pieces.push(Piece::Text(part))?;
            part = EcoString::new(alloc);
            in_hole = true;
        } else {
            part.push(c)?;
        }
    }
    if in_hole {
        return Ok(None);
    }
    pieces.push(Piece::Text(part))?;
    Ok(Some(pieces))
}

/// The text of a template, with each hole filled by the value of its name. A hole without a value
/// is left empty.
pub fn render(
    alloc: Global,
    pieces: &EcoVec<Piece>,
    values: &BTreeMap<EcoString, EcoString>,
) -> Result<EcoString, EcoError>
    ensures { IfOk result (λ text. text.chars ≡ flat_map (filled values.now) pieces.now) }
{
    let mut text = EcoString::new(alloc);
    for piece in pieces {
        match piece {
            Piece::Text(part) => text.push_str(part.as_str())?,
            Piece::Hole(name) => {
                if let Some(value) = values.get(name) {
                    text.push_str(value.as_str())?;
                }
            }
        }
    }
    Ok(text)
}

/// The text of a template, with each hole filled; `None` if its last hole isn't closed.
///
/// The law: a template without `{` is its own text, whatever the values are.
#[tactic(auto, using(crate::proofs::Holes::no_open_end))]
pub fn fill(
    alloc: Global,
    template: &str,
    values: &BTreeMap<EcoString, EcoString>,
) -> Result<Option<EcoString>, EcoError>
    ensures unclosed { IfOk result (λ text. IfNone text (IsUnclosed (chars template.now))) }
    ensures filled { IfOk result
        (λ text. IfSome text (λ text. (pieces : List Piece) × Spells pieces (chars template.now)
        × (text.chars ≡ flat_map (filled values.now) pieces))) }
    ensures no_hole { Lacks opening (chars template.now)
        → IfOk result (λ text. IsSomeAnd text (λ text. text.chars ≡ chars template.now)) }
{
    match parse(alloc, template)? {
        Some(pieces) => Ok(Some(render(alloc, &pieces, values)?)),
        None => Ok(None),
    }
}
