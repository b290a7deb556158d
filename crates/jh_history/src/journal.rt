//! The events of a board, in order.
ghost use Rattle.std.specs.Prelude.{◌≡◌, ◌+◌, ◌<◌, ◌≤◌, ◌↔◌, [], ◌∷◌, ◌++◌, length, slice_get, OnOk, OnErr, IsOk, IsTrue, option_copied};

use crate::entry::Entry;
use crate::form::Form;
use jh_num::NoMemory;
use std::alloc::Global;
use std::marker::Model;

/// The entries of a journal, oldest first, and its form. Contracts see the entries as a list, beside the number of
/// those that may be pushed without memory.
#[derive(Drop)]
pub struct Journal {
    form: Form,
    entries: Vec<Entry>,
}

impl Model for Journal {
    ghost use Rattle.jh_history.specs.Log.{Log};
    ghost use Rattle.std.specs.Prelude.{◌-◌, vec_len, vec_capacity};

    ghost Value = { Log };

    ghost view = { λ j. record { form = j.form; entries = j.entries.items; spare = vec_capacity j.entries - vec_len j.entries } };
}

impl Journal {
    /// A journal of form Two without entries, which takes no memory yet.
    pub fn new(alloc: Global) -> Self
        ensures form { result.form ≡ Form.Two }
        ensures entries { result.entries ≡ [] }
    {
        Journal::with(alloc, Form::Two)
    }

    /// A journal of the form without entries, which takes no memory yet.
    pub fn with(alloc: Global, form: Form) -> Self
        ensures form { result.form ≡ form }
        ensures entries { result.entries ≡ [] }
    {
        Journal {
            form,
            entries: Vec::new(alloc),
        }
    }

    /// The form of the journal.
    pub fn form(&self) -> Form
        ensures { result ≡ self.now.form }
    {
        self.form
    }

    /// How many entries the journal has.
    pub fn len(&self) -> usize
        ensures { result ≡ length self.now.entries }
    {
        self.entries.len()
    }

    /// Whether the journal has no entry.
    pub fn is_empty(&self) -> bool
        ensures { IsTrue result ↔ (self.now.entries ≡ []) }
    {
        self.entries.is_empty()
    }

    /// The entry at the index, from 0; `None` at or past the length.
    pub fn get(&self, index: usize) -> Option<&Entry>
        ensures { option_copied result ≡ slice_get self.now.entries index }
    {
        self.entries.get(index)
    }

    /// All entries, the oldest first.
    pub fn as_slice(&self) -> &[Entry]
        ensures { result.now ≡ self.now.entries }
    {
        self.entries.as_slice()
    }

    /// Puts the entry at the end. It succeeds with a positive spare, and takes one of it at most.
    pub fn push(&mut self, entry: Entry) -> Result<(), NoMemory>
        ensures form { self.new.form ≡ self.old.form }
        ensures ok { OnOk result (self.new.entries ≡ self.old.entries ++ entry ∷ []) }
        ensures err { OnErr result (self.new.entries ≡ self.old.entries) }
        ensures succeeds { 0 < self.old.spare → IsOk result }
        ensures spare { self.old.spare ≤ self.new.spare + 1 }
    {
        self.entries.push(entry)?;
        Ok(())
    }

    /// Makes room for so many entries more. No entry changes, nor the form.
    pub fn reserve(&mut self, more: usize) -> Result<(), NoMemory>
        ensures form { self.new.form ≡ self.old.form }
        ensures entries { self.new.entries ≡ self.old.entries }
        ensures ok { OnOk result (more ≤ self.new.spare) }
        ensures spare { self.old.spare ≤ self.new.spare }
    {
        self.entries.reserve(more)?;
        Ok(())
    }
}
