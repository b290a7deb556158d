//! The tables of all cells in one memory, and the edit of a call.
ghost use Rattle.std.specs.Prelude.{◌≡◌, ℕ, ◌+◌, ◌*◌, ◌%◌, ◌≤◌, [], ◌∷◌, length, None, Some, IfOk};
ghost use Rattle.jh_num.specs.declared.address.TheConstants.{ADDRESS_END};
ghost use Rattle.jh_num.specs.Pages.{page_at};
ghost use Rattle.jh_shape.specs.Claims.{claims_of};
ghost use Rattle.jh_shape.specs.Pages.{tables_of};
ghost use Rattle.jh_shape.specs.SoundClaims.{AreSoundClaims};
ghost use Rattle.jh_edit.specs.Forest.{left_of, part_left, GrantsNothingOf, IsForest, IsLoneRoot};

use crate::edit::Edit;
use crate::laws::{standing_tables_walk_as_wanted, walked_tells_grants};
use crate::standing::root_table;
use jh_cache::Cache;
use jh_frames::Frames;
use jh_num::{NoMemory, PAGE_SIZE};
use jh_pool::Pool;
use jh_shape::Target;
use std::alloc::Global;

/// How many cells there can be, root among them.
pub(crate) const MAX_CELLS: u8 = 16;

/// The tables of a cell: the place of the first one, and the tag of the translations that are found in them.
#[derive(Clone, Copy, PartialEq, Eq, Debug)]
pub struct Tree {
    pub table: u64,
    pub tag: u8,
}

/// A cell as memory knows it. Root alone has no communication page; a cell whose removal is done has no tables.
#[derive(Clone, Copy, PartialEq, Eq, Debug)]
pub struct Seat {
    pub id: u32,
    /// The place of the cell's communication page.
    pub comm: Option<u64>,
    pub tree: Option<Tree>,
}

/// What a call does to the tables of the cell that it names.
#[derive(Drop)]
pub enum CellPart {
    /// They stay: no cell comes or goes.
    Unchanged,
    /// The cell is to come, and has no page yet; `bound` turns are allowed for its tables.
    Fresh { id: u32, bound: u32 },
    /// They are made.
    Build { id: u32, edit: Edit },
    /// They are given back.
    Remove { id: u32, edit: Edit },
}

/// The edit of a call: of root's tables, and of those of the cell that comes or goes.
#[derive(Drop)]
pub struct Editing {
    pub root: Edit,
    pub cell: CellPart,
}

/// The tables of all cells: memory, the pool of its pages, the translations of all CPUs, and the cells: root, the live ones
/// in order of their creation, and the one that comes.
#[derive(Drop)]
pub struct Stage2 {
    pub frames: Frames,
    pub pool: Pool,
    pub cache: Cache,
    pub seats: Vec<Seat>,
    pub editing: Option<Editing>,
}

impl CellPart {
    /// How many turns are left.
    fn left(&self) -> u32
        ensures { result ≡ part_left self.now }
    {
        match self {
            CellPart::Unchanged => 0,
            CellPart::Fresh { id: _, bound } => *bound,
            CellPart::Build { id: _, edit } | CellPart::Remove { id: _, edit } => edit.left(),
        }
    }
}

/// How many turns are left of both parts.
pub fn left_of(editing: &Editing) -> u64
    ensures { result ≡ left_of editing.now }
{
    u64::from(editing.root.left()) + u64::from(editing.cell.left())
}

impl Stage2 {
    /// Memory of so many pages from `base` on, in which root's tables stand as the target wants them, and root has the id.
    /// The pool has a page for each of them, and they lead to no place of it. No page of guests is held. Only opening takes
    /// memory for cells: there is room for all.
    pub fn open(
        alloc: Global,
        base: u64,
        pages: u32,
        cpus: u8,
        id: u32,
        root: &Target,
    ) -> Result<Self, NoMemory>
        requires aligned { base % 4096 ≡ 0 }
        requires place { base + 4096 * pages ≤ ADDRESS_END }
        requires cells { length root.now.cells.now ≤ 15 }
        requires sound { AreSoundClaims (claims_of root.now) }
        requires enough { tables_of (claims_of root.now) ≤ pages }
        requires apart { GrantsNothingOf (claims_of root.now) base (4096 * pages) }
        ensures forest { IfOk result (λ stage. IsForest (λ seat. claims_of root.now) stage) }
        ensures root { IfOk result (IsLoneRoot id) }
        ensures base { IfOk result (λ stage. stage.frames.own.base ≡ base) }
        ensures guests { IfOk result (λ stage. (number : ℕ) → page_at stage.frames.guest.pages number ≡ None) }
        ensures size { IfOk result (λ stage. stage.pool.size ≡ pages) }
        ensures cpus { IfOk result (λ stage. length stage.cache ≡ cpus) }
    {
        standing_tables_walk_as_wanted();
        walked_tells_grants();
        let mut frames = Frames::open(alloc, base, PAGE_SIZE * u64::from(pages))?;
        let mut pool = Pool::open(alloc, base, pages)?;
        let mut cache = Cache::open(alloc, cpus)?;
        let mut seats = Vec::with_capacity(alloc, MAX_CELLS as usize)?;
        let table = root_table(root, &mut frames, &mut pool, &mut cache, 0);
        seats.push_reserved(Seat {
            id,
            comm: None,
            tree: Some(Tree { table, tag: 0 }),
        });
        Ok(Stage2 {
            frames,
            pool,
            cache,
            seats,
            editing: None,
        })
    }
}
