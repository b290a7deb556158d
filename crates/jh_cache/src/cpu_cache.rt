//! The translations of one CPU.
ghost use Rattle.std.specs.Prelude.{◌≡◌, ◌≤◌, [], ◌∷◌, ◌++◌, IfOk, length};
ghost use Rattle.std.specs.VecDeque.{deque_capacity};
ghost use Rattle.jh_cache.specs.Translations.{filled, flushed, is_for, looked, newest, without, IsHeld};

use crate::translation::Translation;
use jh_desc::Hit;
use jh_num::NoMemory;
use std::alloc::Global;
use std::collections::VecDeque;
use std::marker::Model;

/// How many translations a CPU holds at most.
const HELD: usize = 64;

/// One CPU's translations, the oldest first. It has room for all of them.
#[derive(Drop)]
pub struct CpuCache {
    translations: VecDeque<Translation>,
}

impl Model for CpuCache {
    ghost use Rattle.std.specs.Prelude.{List, ◌≤◌};
    ghost use Rattle.jh_cache.specs.Translations.{IsHeld};
    ghost use Rattle.std.specs.VecDeque.{deque_capacity};
    ghost use Rattle.jh_cache.specs.declared.translation.Translation.{Translation};

    ghost Value = { List Translation };

    ghost view = { λ c. c.translations.items };

    ghost invariant = { λ c. IsHeld c.translations.items × (64 ≤ deque_capacity c.translations) };
}

/// Takes the translation of the page in the tables with the tag out, where there is one.
fn take_out(list: &mut VecDeque<Translation>, tag: u8, page: u64)
    ensures items { list.new.items ≡ without (is_for tag page) list.old.items }
    ensures few { length list.new.items ≤ length list.old.items }
    ensures room { deque_capacity list.new ≡ deque_capacity list.old }
{
    list.retain(|t| !t.is_for(tag, page));
}

/// Takes the oldest out where the list is full.
fn drop_oldest(list: &mut VecDeque<Translation>)
    requires { length list.old.items ≤ 64 }
    ensures items { list.new.items ≡ newest 63 list.old.items }
    ensures few { length list.new.items ≤ 63 }
    ensures room { deque_capacity list.new ≡ deque_capacity list.old }
{
    if list.len() == HELD {
        // the oldest is dropped
        let _ = list.pop_front();
    }
}

/// Puts the translation at the end of a list that has room.
fn append(list: &mut VecDeque<Translation>, translation: Translation)
    requires few { length list.old.items ≤ 63 }
    requires room { 64 ≤ deque_capacity list.old }
    ensures items { list.new.items ≡ list.old.items ++ translation ∷ [] }
    ensures room { deque_capacity list.new ≡ deque_capacity list.old }
{
    // the list has room, so this takes no memory and succeeds
    let _ = list.push_back(translation);
}

/// What the translations have for the page in the tables with the tag.
fn found(list: &[Translation], tag: u8, page: u64) -> Option<Hit>
    ensures { result ≡ looked list.now tag page }
{
    list.iter().find(|t| t.is_for(tag, page)).map(|t| t.hit)
}

impl CpuCache {
    /// No translation, with room for 64.
    pub fn new(alloc: Global) -> Result<Self, NoMemory>
        ensures { IfOk result (λ list. list ≡ []) }
    {
        let translations = VecDeque::with_capacity(alloc, HELD)?;
        Ok(CpuCache { translations })
    }

    /// What is cached for the page that begins at the address `page`, in the tables with the tag; `None` where nothing
    /// is.
    pub fn look(&self, tag: u8, page: u64) -> Option<Hit>
        ensures { result ≡ looked self.now tag page }
    {
        let (older, newer) = self.translations.as_slices();
        match found(older, tag, page) {
            Some(hit) => Some(hit),
            None => found(newer, tag, page),
        }
    }

    /// Puts the translation last. It takes the place of another of the same tag and page, else of the oldest where 64
    /// are held. It takes no memory.
    pub fn fill(&mut self, translation: Translation)
        ensures value { self.new ≡ filled translation self.old }
        ensures held { IsHeld self.new }
    {
        take_out(&mut self.translations, translation.tag, translation.page);
        drop_oldest(&mut self.translations);
        append(&mut self.translations, translation);
    }

    /// Drops the translations of the tag, and no other.
    pub fn flush(&mut self, tag: u8)
        ensures value { self.new ≡ flushed tag self.old }
        ensures held { IsHeld self.new }
    {
        self.translations.retain(|t| t.tag != tag);
    }
}
