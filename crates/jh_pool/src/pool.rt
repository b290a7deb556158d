//! The pages of one range: those that are free, and those that somebody took.
ghost use Rattle.std.specs.Prelude.{◌≡◌, ◌≢◌, ℕ, ◌+◌, ◌*◌, ◌%◌, ◌≤◌, ◌↔◌, true, not, IsNone, IfNone, IfSome, OnSome, IfOk, count_by, sum_by};
ghost use Rattle.jh_num.specs.declared.address.TheConstants.{ADDRESS_END};
ghost use Rattle.jh_pool.specs.Pages.{is_free, page_addresses, used_of, AreHadOnce, IsPageOf, IsTakenPage};

use jh_num::{NoMemory, PAGE_SIZE};
use std::alloc::Global;
use std::marker::Model;

/// A pool of pages. Its list of free pages has room for all of them, so only opening takes memory.
#[derive(Drop)]
pub struct Pool {
    base: u64,
    size: u32,
    free: Vec<u64>,
}

impl Model for Pool {
    ghost use Rattle.std.specs.Prelude.{vec_capacity};
    ghost use Rattle.jh_pool.specs.Pages.{PoolView};
    ghost use Rattle.jh_pool.specs.SoundPool.{IsSoundPool};

    ghost Value = { PoolView };

    ghost view = { λ p. record { base = p.base; size = p.size; free = p.free.items } };

    ghost invariant = { λ p. IsSoundPool p.base p.size p.free.items (vec_capacity p.free) };
}

impl Pool {
    /// A pool of that many pages from `base` on, all of them free.
    pub fn open(alloc: Global, base: u64, pages: u32) -> Result<Self, NoMemory>
        requires aligned { base % 4096 ≡ 0 }
        requires place { base + 4096 * pages ≤ ADDRESS_END }
        ensures base { IfOk result (λ pool. pool.base ≡ base) }
        ensures size { IfOk result (λ pool. pool.size ≡ pages) }
        ensures free { IfOk result (λ pool. (page : ℕ) → IsPageOf pool page → is_free pool page ≡ true) }
        ensures used { IfOk result (λ pool. used_of pool ≡ 0) }
    {
        let mut free = Vec::with_capacity(alloc, pages as usize)?;
        for k in 0..pages {
            free.push(base + PAGE_SIZE * u64::from(pages - 1 - k))?;
        }
        Ok(Pool {
            base,
            size: pages,
            free,
        })
    }

    /// Takes a page that nobody has; `None` where each is taken. Which of the free pages it is isn't said.
    pub fn take(&mut self) -> Option<u64>
        ensures none { IsNone result ↔ (used_of self.old ≡ self.old.size) }
        ensures unchanged { IfNone result (self.new ≡ self.old) }
        ensures page { IfSome result (IsPageOf self.old) }
        ensures was_free { IfSome result (λ page. is_free self.old page ≡ true) }
        ensures taken { IfSome result (IsTakenPage self.new) }
        ensures others { IfSome result (λ page. (q : ℕ) → q ≢ page → is_free self.new q ≡ is_free self.old q) }
        ensures base { self.new.base ≡ self.old.base }
        ensures size { self.new.size ≡ self.old.size }
        ensures used { OnSome result (used_of self.new ≡ used_of self.old + 1) }
    {
        self.free.pop()
    }

    /// Gives back a page that was taken.
    pub fn give(&mut self, page: u64)
        requires { IsTakenPage self.old page }
        ensures given { is_free self.new page ≡ true }
        ensures others { (q : ℕ) → q ≢ page → is_free self.new q ≡ is_free self.old q }
        ensures base { self.new.base ≡ self.old.base }
        ensures size { self.new.size ≡ self.old.size }
        ensures used { used_of self.new + 1 ≡ used_of self.old }
    {
        // succeeds, since there is room for all pages
        let _ = self.free.push(page);
    }

    /// How many pages are taken.
    pub fn used(&self) -> u32
        ensures value { result ≡ used_of self.now }
        ensures exact { result ≡ count_by (λ page. not (is_free self.now page)) (page_addresses self.now) }
    {
        self.size - self.free.len() as u32
    }

    /// How many pages there are.
    pub fn size(&self) -> u32
        ensures { result ≡ self.now.size }
    {
        self.size
    }
}

/// Where each page that is taken is had once, and no other page is had, the sum over all pages of how
/// often each is had is how many are taken.
pub fn pages_taken_once_are_counted(pool: &Pool)
    ensures { (had : ℕ → ℕ) → AreHadOnce pool.now had → sum_by had (page_addresses pool.now) ≡ used_of pool.now }
{
    // for the proof: the invariant of the pool
    let _ = &pool.free;
}
