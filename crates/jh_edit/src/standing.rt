//! Tables that are made whole, before anything runs.
ghost use Rattle.std.specs.Prelude.{◌≡◌, ℕ, ◌<◌, ◌≤◌, ◌↔◌, [], length};
ghost use Rattle.jh_cache.specs.Translations.{translations_of};
ghost use Rattle.jh_pool.specs.Pages.{IsTakenPage};
ghost use Rattle.jh_shape.specs.Claims.{claims_of};
ghost use Rattle.jh_shape.specs.Shapes.{want_of};
ghost use Rattle.jh_shape.specs.SoundClaims.{AreSoundClaims};
ghost use Rattle.jh_walk.specs.Pages.{times};
ghost use Rattle.jh_walk.specs.Walks.{levels};
ghost use Rattle.jh_edit.specs.Tables.{words, AreTables, IsPoolOf};
ghost use Rattle.jh_edit.specs.Trees.{Stands};
ghost use Rattle.jh_edit.specs.Private.Standing.{IsAlone, IsBlank};
ghost use Rattle.jh_shape.specs.Pages.{tables_of};

use crate::edit::Edit;
use crate::laws::{a_finished_edit_stands, claims_want_pages_at_the_end};
use jh_cache::Cache;
use jh_frames::Frames;
use jh_pool::Pool;
use jh_shape::{Target, tables_are_counted_from_the_top};

/// Does all turns of an edit whose pages alone are taken of the pool.
pub(crate) fn finish(
    mut edit: Edit,
    t: &Target,
    f: &mut Frames,
    p: &mut Pool,
    c: &mut Cache,
    tag: u8,
)
    requires cells { length t.now.cells.now ≤ 15 }
    requires sound { AreSoundClaims (claims_of t.now) }
    requires alone { IsAlone (want_of (claims_of t.now)) edit f.old p.old c.old }
    ensures stands { Stands (want_of (claims_of t.now)) (words f.new) levels edit.table 0 }
    ensures tables { AreTables f.new edit.table }
    ensures pool { IsPoolOf p.new f.new }
    ensures taken { (page : ℕ) → IsTakenPage p.new page ↔ (0 < times (words f.new) levels edit.table page) }
    ensures empty { (cpu : ℕ) → translations_of c.new cpu ≡ [] }
    ensures cpus { length c.new ≡ length c.old }
    ensures base { f.new.own.base ≡ f.old.own.base }
    ensures size { length f.new.own.bytes ≡ length f.old.own.bytes }
    ensures guests { f.new.guest ≡ f.old.guest }
{
    claims_want_pages_at_the_end();
    a_finished_edit_stands();
    while 0 < edit.left() {
        edit.turn(t, f, p, c, tag);
    }
}

/// Makes all tables of root, in memory that is blank.
pub(crate) fn root_table(root: &Target, f: &mut Frames, p: &mut Pool, c: &mut Cache, tag: u8) -> u64
    requires cells { length root.now.cells.now ≤ 15 }
    requires sound { AreSoundClaims (claims_of root.now) }
    requires blank { IsBlank f.old p.old c.old }
    requires enough { tables_of (claims_of root.now) ≤ p.old.size }
    ensures stands { Stands (want_of (claims_of root.now)) (words f.new) levels result 0 }
    ensures tables { AreTables f.new result }
    ensures pool { IsPoolOf p.new f.new }
    ensures taken { (page : ℕ) → IsTakenPage p.new page ↔ (0 < times (words f.new) levels result page) }
    ensures empty { (cpu : ℕ) → translations_of c.new cpu ≡ [] }
    ensures cpus { length c.new ≡ length c.old }
    ensures base { f.new.own.base ≡ f.old.own.base }
    ensures size { length f.new.own.bytes ≡ length f.old.own.bytes }
    ensures guests { f.new.guest ≡ f.old.guest }
{
    tables_are_counted_from_the_top();
    match p.take() {
        Some(table) => {
            let edit = Edit::new(table, root, f);
            finish(edit, root, f, p, c, tag);
            table
        }
        // the pool has a page for each table, and nobody has taken one
        None => unreachable!(),
    }
}
