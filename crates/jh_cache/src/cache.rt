//! The translations of all CPUs.
ghost use Rattle.std.specs.Prelude.{◌≡◌, ◌≢◌, ℕ, ◌<◌, ◌≤◌, [], IfOk, length, map};
ghost use Rattle.jh_cache.specs.Translations.{filled, flushed, looked, translations_of, AreApart};

use crate::cpu_cache::CpuCache;
use crate::translation::Translation;
use jh_desc::Hit;
use jh_num::NoMemory;
use std::alloc::Global;
use std::marker::Model;

/// For each CPU a list of translations. Only opening takes memory.
#[derive(Drop)]
pub struct Cache {
    caches: Vec<CpuCache>,
}

impl Model for Cache {
    ghost use Rattle.std.specs.Prelude.{ℕ, List};
    ghost use Rattle.jh_cache.specs.declared.translation.Translation.{Translation};
    ghost use Rattle.jh_cache.specs.Translations.{translations_of, IsHeld};

    ghost Value = { List (List Translation) };

    ghost view = { λ c. c.caches.items };

    ghost invariant = { λ c. (cpu : ℕ) → IsHeld (translations_of c.caches.items cpu) };
}

/// Drops the translations of the tag from each of the lists.
fn flush_each(caches: &mut [CpuCache], tag: u8)
    ensures { caches.new ≡ map (flushed tag) caches.old }
{
    for cache in caches.iter_mut() {
        cache.flush(tag);
    }
}

impl Cache {
    /// Lists without a translation for that many CPUs.
    pub fn open(alloc: Global, cpus: u8) -> Result<Self, NoMemory>
        ensures cpus { IfOk result (λ cache. length cache ≡ cpus) }
        ensures empty { IfOk result (λ cache. (cpu : ℕ) → translations_of cache cpu ≡ []) }
    {
        let mut caches = Vec::with_capacity(alloc, cpus as usize)?;
        for _ in 0..cpus {
            let cache = CpuCache::new(alloc)?;
            caches.push(cache)?;
        }
        Ok(Cache { caches })
    }

    /// What the CPU has cached for the page in the tables with the tag; `None` where it has nothing.
    pub fn look(&self, cpu: u8, tag: u8, page: u64) -> Option<Hit>
        requires { cpu < length self.now }
        ensures { result ≡ looked (translations_of self.now cpu) tag page }
    {
        self.caches[cpu as usize].look(tag, page)
    }

    /// Caches what a walk found for the page in the tables with the tag. It takes the place of another of
    /// the same tag and page, else of the CPU's oldest translation where 64 are held.
    pub fn fill(&mut self, cpu: u8, tag: u8, page: u64, hit: Hit)
        requires { cpu < length self.old }
        ensures filled { translations_of self.new cpu ≡ filled (record { tag = tag; page = page; hit = hit }) (translations_of self.old cpu) }
        ensures others { (other : ℕ) → other ≢ cpu → translations_of self.new other ≡ translations_of self.old other }
        ensures cpus { length self.new ≡ length self.old }
    {
        let cache = &mut self.caches[cpu as usize];
        cache.fill(Translation { tag, page, hit });
    }

    /// Drops the translations of the tag on every CPU, and no other.
    pub fn flush(&mut self, tag: u8)
        ensures { self.new ≡ map (flushed tag) self.old }
    {
        flush_each(&mut self.caches, tag);
    }
}

/// No CPU has more than 64 translations at any time.
pub fn at_most_64_are_held(cache: &Cache)
    ensures { (cpu : ℕ) → length (translations_of cache.now cpu) ≤ 64 }
{
    // for the proof: the invariant of the cache
    let _ = &cache.caches;
}

/// No CPU has two translations of one page with one tag at any time.
pub fn pages_are_held_once(cache: &Cache)
    ensures { (cpu : ℕ) → AreApart (translations_of cache.now cpu) }
{
    // for the proof: the invariant of the cache
    let _ = &cache.caches;
}
