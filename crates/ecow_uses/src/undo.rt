//! A document with undo and redo. Each state is a clone that shares its lines with the others: an
//! edit copies the handles of the lines once, and no text.
ghost use Rattle.std.specs.Prelude.{◌≡◌, ◌<◌, ◌≤◌, [], true, false, length, IfOk, OnErr, OnOk, insert, remove, slice_set};
ghost use Rattle.ecow_uses.specs.History.{edited, IsUndone};

use ecow_list::{EcoError, EcoVec};
use ecow_string::EcoString;
use std::alloc::{AllocError, Global};
use std::marker::Model;

/// The lines of a document, with all states to undo to and to redo to.
#[derive(Drop)]
pub struct History {
    lines: EcoVec<EcoString>,
    past: Vec<EcoVec<EcoString>>,
    future: Vec<EcoVec<EcoString>>,
}

impl Model for History {
    ghost use Rattle.std.specs.Prelude.{List};
    ghost use Rattle.ecow_base.specs.declared.plain.PlainText.{PlainText};
    ghost use Rattle.ecow_uses.specs.History.{Timeline};

    ghost Value = { Timeline (List PlainText) };

    ghost view = { λ h. record { present = h.lines; past = h.past.items; future = h.future.items } };
}

impl History {
    /// Makes an empty document without a past. Takes no memory.
    pub fn new(alloc: Global) -> Self
        ensures lines { result.present ≡ [] }
        ensures past { result.past ≡ [] }
        ensures future { result.future ≡ [] }
    {
        History {
            lines: EcoVec::new(alloc),
            past: Vec::new(alloc),
            future: Vec::new(alloc),
        }
    }

    /// The lines, in order.
    pub fn lines(&self) -> &[EcoString]
        ensures { result.now ≡ self.now.present }
    {
        &self.lines
    }

    /// A clone of the document, which shares its lines. No later edit changes it.
    pub fn snapshot(&self) -> Result<EcoVec<EcoString>, AllocError>
        ensures { IfOk result (λ lines. lines ≡ self.now.present) }
    {
        self.lines.clone()
    }

    /// Replaces the line at `at`. If it is refused, nothing changes.
    pub fn replace(&mut self, at: usize, line: EcoString) -> Result<(), EcoError>
        requires { at < length self.old.present }
        ensures ok { OnOk result (self.new ≡ edited self.old (slice_set self.old.present at line)) }
        ensures unchanged { OnErr result (self.new ≡ self.old) }
    {
        let mut lines = self.lines.clone()?;
        lines.set(at, line)?;
        self.settle(lines)
    }

    /// Inserts a line before the one at `at`, or at the end. If it is refused, nothing changes.
    pub fn insert(&mut self, at: usize, line: EcoString) -> Result<(), EcoError>
        requires { at ≤ length self.old.present }
        ensures ok { OnOk result (self.new ≡ edited self.old (insert self.old.present at line)) }
        ensures unchanged { OnErr result (self.new ≡ self.old) }
    {
        let mut lines = self.lines.clone()?;
        lines.insert(at, line)?;
        self.settle(lines)
    }

    /// Removes the line at `at`. If it is refused, nothing changes.
    pub fn remove(&mut self, at: usize) -> Result<(), EcoError>
        requires { at < length self.old.present }
        ensures ok { OnOk result (self.new ≡ edited self.old (remove self.old.present at)) }
        ensures unchanged { OnErr result (self.new ≡ self.old) }
    {
        let mut lines = self.lines.clone()?;
        lines.remove(at)?;
        self.settle(lines)
    }

    /// Makes these lines the present, and the old present the last of the past.
    fn settle(&mut self, lines: EcoVec<EcoString>) -> Result<(), EcoError>
        ensures ok { OnOk result (self.new ≡ edited self.old lines) }
        ensures unchanged { OnErr result (self.new ≡ self.old) }
    {
        let before = self.lines.clone()?;
        self.past.push(before)?;
        self.lines = lines;
        self.future.clear();
        Ok(())
    }

    /// Undoes the last edit; `false` if there is none. If it is refused, nothing changes.
    pub fn undo(&mut self) -> Result<bool, AllocError>
        ensures undone { IfOk result (λ done. done ≡ true → IsUndone self.old self.new) }
        ensures nothing { IfOk result (λ done. done ≡ false → (self.old.past ≡ [])
            × (self.new ≡ self.old)) }
        ensures unchanged { OnErr result (self.new ≡ self.old) }
    {
        if self.past.is_empty() {
            return Ok(false);
        }
        let after = self.lines.clone()?;
        self.future.push(after)?;
        if let Some(before) = self.past.pop() {
            self.lines = before;
        }
        Ok(true)
    }

    /// Redoes the edit that was undone last; `false` if there is none. If it is refused, nothing
    /// changes.
    pub fn redo(&mut self) -> Result<bool, AllocError>
        ensures redone { IfOk result (λ done. done ≡ true → IsUndone self.new self.old) }
        ensures nothing { IfOk result (λ done. done ≡ false → (self.old.future ≡ [])
            × (self.new ≡ self.old)) }
        ensures unchanged { OnErr result (self.new ≡ self.old) }
    {
        if self.future.is_empty() {
            return Ok(false);
        }
        let before = self.lines.clone()?;
        self.past.push(before)?;
        if let Some(after) = self.future.pop() {
            self.lines = after;
        }
        Ok(true)
    }
}

/// The law: after an edit is undone, the lines and their past are those before the edit.
pub fn replace_and_undo(history: &mut History, at: usize, line: EcoString) -> Result<bool, EcoError>
    requires { at < length history.old.present }
    ensures undone { IfOk result (λ done. done ≡ true) }
    ensures lines { OnOk result (history.new.present ≡ history.old.present) }
    ensures past { OnOk result (history.new.past ≡ history.old.past) }
{
    history.replace(at, line)?;
    Ok(history.undo()?)
}

/// The law: an edit that is undone and redone leaves what it left at first.
pub fn undo_and_redo(history: &mut History) -> Result<bool, AllocError>
    ensures { OnOk result (history.new ≡ history.old) }
{
    let undone = history.undo()?;
    if undone {
        return history.redo();
    }
    Ok(false)
}
