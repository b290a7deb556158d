//! One tree of tables edited in turns.
ghost use Rattle.std.specs.Prelude.{◌≡◌, ℕ, ◌+◌, ◌%◌, ◌<◌, ◌≤◌, ◌⊎◌, ◌↔◌, ◌||◌, Some, None, false, length, map, true};
ghost use Rattle.jh_num.specs.declared.address.TheConstants.{ADDRESS_END};
ghost use Rattle.jh_frames.specs.Memory.{byte_at, word_in};
ghost use Rattle.jh_shape.specs.Claims.{claims_of};
ghost use Rattle.jh_shape.specs.Shapes.{want_of};
ghost use Rattle.jh_shape.specs.SoundClaims.{AreSoundClaims};
ghost use Rattle.jh_shape.specs.Wanted.{Wants};
ghost use Rattle.jh_desc.specs.declared.descriptor.Hit.{Hit as AnyHit};
ghost use Rattle.jh_pool.specs.Pages.{is_free, used_of, IsTakenPage};
ghost use Rattle.jh_cache.specs.Translations.{flushed};
ghost use Rattle.jh_walk.specs.Pages.{pages_reached, Grows};
ghost use Rattle.jh_walk.specs.Walks.{levels, walk_of};
ghost use Rattle.jh_edit.specs.Trees.{lack_of, walked};
ghost use Rattle.jh_edit.specs.Plans.{ahead_count, Plans};
ghost use Rattle.jh_edit.specs.Tables.{is_mine, is_over, words, AreTables, HasTaken, IsPoolOf};
ghost use Rattle.jh_edit.specs.Turns.{turns_of, Breaks, KeepsRight, LeavesAlone};
ghost use Rattle.jh_edit.specs.Moves.{Move as AnyMove};
ghost use Rattle.jh_edit.specs.Private.Steps.{IsStep};

use crate::counting::{LEVELS, pages_from, turns_from};
use crate::finding::{Node, begin_of, find};
use crate::laws::{claims_want_tables_below_tables, where_nothing_is_left_tables_stand};
use crate::mending::{mend, take_away};
use crate::turns::{
    turns_account_for_pages, turns_break_before_they_make, turns_keep_the_plan,
    turns_keep_the_tables_apart, turns_lead_where_it_is_wanted, turns_leave_right_words,
    turns_write_their_own_pages,
};
use jh_cache::Cache;
use jh_desc::what_is_written_is_read;
use jh_frames::Frames;
use jh_pool::Pool;
use jh_shape::Target;
use std::marker::Model;

/// A page that an edit has taken and written, and the place of the word that will lead to it.
#[derive(Clone, Copy, PartialEq, Eq, Debug)]
pub struct Ahead {
    pub at: u64,
    pub page: u64,
}

/// An edit of one tree of tables, to a target or until nothing of it is left.
#[derive(Drop)]
pub struct Edit {
    table: u64,
    left: u32,
    removing: bool,
    ahead: Option<Ahead>,
    cursor: u64,
}

impl Model for Edit {
    ghost use Rattle.jh_edit.specs.Plans.{EditView};

    ghost Value = { EditView };

    ghost view = { λ e. record { table = e.table; left = e.left; removing = e.removing; ahead = e.ahead; cursor = e.cursor } };
}

impl Edit {
    /// The edit of the tables as they stand to the target.
    pub fn new(table: u64, t: &Target, f: &Frames) -> Self
        requires aligned { table % 4096 ≡ 0 }
        requires place { table < ADDRESS_END }
        requires cells { length t.now.cells.now ≤ 15 }
        requires sound { AreSoundClaims (claims_of t.now) }
        ensures table { result.table ≡ table }
        ensures aim { result.removing ≡ false }
        ensures ahead { result.ahead ≡ None }
        ensures left { result.left ≡ turns_of (want_of (claims_of t.now)) (word_in (byte_at f.now)) levels table 0 }
        ensures plan { Plans result (want_of (claims_of t.now)) (word_in (byte_at f.now)) }
    {
        Edit {
            table,
            left: turns_from(t, f, LEVELS, table, 0),
            removing: false,
            ahead: None,
            cursor: 0,
        }
    }

    /// The edit that gives all tables back.
    pub fn remove(table: u64, f: &Frames) -> Self
        requires aligned { table % 4096 ≡ 0 }
        requires place { table < ADDRESS_END }
        ensures table { result.table ≡ table }
        ensures aim { result.removing ≡ true }
        ensures left { result.left ≡ pages_reached (word_in (byte_at f.now)) levels table }
        ensures plan { (want : Wants) → Plans result want (word_in (byte_at f.now)) }
    {
        Edit {
            table,
            left: pages_from(f, LEVELS, table),
            removing: true,
            ahead: None,
            cursor: 0,
        }
    }

    /// How many turns are left.
    pub fn left(&self) -> u32
        ensures { result ≡ self.now.left }
    {
        self.left
    }

    /// What one turn does, but for the number of turns that are left.
    fn step(&mut self, t: &Target, f: &mut Frames, p: &mut Pool, c: &mut Cache, tag: u8)
        requires cells { length t.now.cells.now ≤ 15 }
        requires sound { self.old.removing ≡ false → AreSoundClaims (claims_of t.now) }
        requires tables { AreTables f.old self.old.table }
        requires plan { Plans self.old (want_of (claims_of t.now)) (words f.old) }
        requires left { 0 < self.old.left }
        requires pool { IsPoolOf p.old f.old }
        requires taken { HasTaken self.old (words f.old) p.old }
        requires enough { self.old.removing ≡ false → lack_of (want_of (claims_of t.now)) (words f.old) levels self.old.table 0 + used_of p.old ≤ p.old.size + ahead_count self.old.ahead }
        ensures { (move : AnyMove) × IsStep tag (want_of (claims_of t.now)) self.old self.new f.old f.new p.old p.new c.old c.new move }
    {
        where_nothing_is_left_tables_stand();
        // for the proof: memory lies below the end of addresses
        let _ = f.holds(self.table);
        if self.removing {
            take_away(self.table, f, p, c, tag);
            return;
        }
        if let Some(ahead) = self.ahead {
            what_is_written_is_read();
            f.set_word(ahead.at, ahead.page + 3);
            self.ahead = None;
            return;
        }
        let root = Node {
            page: self.table,
            start: 0,
            below: LEVELS - 1,
        };
        if let Some(todo) = find(t, f, self.cursor, root) {
            self.cursor = begin_of(todo);
            self.ahead = mend(todo, self.table, t, f, p, c, tag);
        }
    }

    /// One turn. It takes no memory. Translations that the cache has of the tables are those with the tag.
    pub fn turn(&mut self, t: &Target, f: &mut Frames, p: &mut Pool, c: &mut Cache, tag: u8)
        requires cells { length t.now.cells.now ≤ 15 }
        requires sound { self.old.removing ≡ false → AreSoundClaims (claims_of t.now) }
        requires tables { AreTables f.old self.old.table }
        requires plan { Plans self.old (want_of (claims_of t.now)) (words f.old) }
        requires left { 0 < self.old.left }
        requires pool { IsPoolOf p.old f.old }
        requires taken { HasTaken self.old (words f.old) p.old }
        requires enough { self.old.removing ≡ false → lack_of (want_of (claims_of t.now)) (words f.old) levels self.old.table 0 + used_of p.old ≤ p.old.size + ahead_count self.old.ahead }
        ensures left { self.new.left + 1 ≡ self.old.left }
        ensures table { self.new.table ≡ self.old.table }
        ensures aim { self.new.removing ≡ self.old.removing }
        ensures plan { is_over self.new ≡ false → Plans self.new (want_of (claims_of t.now)) (words f.new) }
        ensures tables { AreTables f.new self.new.table }
        ensures one_page { (page : ℕ) × (((is_mine self.old (words f.old) page || is_mine self.new (words f.new) page) ≡ true) × ((q : ℕ) → (q < page) ⊎ (page + 4096 ≤ q) → byte_at f.new q ≡ byte_at f.old q)) }
        ensures breaks { Breaks (words f.old) (words f.new) levels self.old.table }
        ensures cache { (c.new ≡ map (flushed tag) c.old) ⊎ ((c.new ≡ c.old) × (Grows (words f.old) (words f.new) levels self.old.table × ((page : ℕ) → IsTakenPage p.old page → IsTakenPage p.new page))) }
        ensures leaves { (at : ℕ) (hit : AnyHit) → walk_of (words f.new) levels self.old.table at ≡ Some hit → (walk_of (words f.old) levels self.old.table at ≡ Some hit) ⊎ ((self.old.removing ≡ false) × (walked (want_of (claims_of t.now)) levels 0 at ≡ Some hit)) }
        ensures right { self.old.removing ≡ false → KeepsRight (want_of (claims_of t.now)) (words f.old) (words f.new) levels self.old.table 0 }
        ensures left_alone { self.old.removing ≡ false → LeavesAlone (want_of (claims_of t.now)) (words f.old) (words f.new) levels self.old.table 0 }
        ensures pages { (page : ℕ) → IsTakenPage p.new page ↔ ((IsTakenPage p.old page × (is_mine self.old (words f.old) page ≡ false)) ⊎ (is_mine self.new (words f.new) page ≡ true)) }
        ensures fresh { (page : ℕ) → is_mine self.new (words f.new) page ≡ true → is_mine self.old (words f.old) page ≡ false → is_free p.old page ≡ true }
        ensures room { self.old.removing ≡ false → lack_of (want_of (claims_of t.now)) (words f.new) levels self.old.table 0 + used_of p.new + ahead_count self.old.ahead ≤ lack_of (want_of (claims_of t.now)) (words f.old) levels self.old.table 0 + used_of p.old + ahead_count self.new.ahead }
        ensures given { self.old.removing ≡ true → used_of p.new + 1 ≡ used_of p.old }
        ensures pool { IsPoolOf p.new f.new }
        ensures guests { f.new.guest ≡ f.old.guest }
        ensures base { f.new.own.base ≡ f.old.own.base }
        ensures size { length f.new.own.bytes ≡ length f.old.own.bytes }
    {
        claims_want_tables_below_tables();
        turns_keep_the_plan();
        turns_keep_the_tables_apart();
        turns_write_their_own_pages();
        turns_break_before_they_make();
        turns_lead_where_it_is_wanted();
        turns_leave_right_words();
        turns_account_for_pages();
        self.step(t, f, p, c, tag);
        self.left -= 1;
    }
}
