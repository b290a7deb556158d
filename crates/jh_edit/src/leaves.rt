//! The leaves of a cell's tables, read from memory.
ghost use Rattle.std.specs.Prelude.{◌≡◌, ℕ, ◌+◌, ◌-◌, ◌<◌, ◌≤◌, ◌++◌, AllPairs, Contains, IfOk, Some};
ghost use Rattle.jh_num.specs.declared.address.TheConstants.{ADDRESS_END};
ghost use Rattle.jh_num.specs.declared.level.TheConstants.{LAST_LEVEL};
ghost use Rattle.jh_desc.specs.declared.descriptor.Hit.{Hit as AnyHit};
ghost use Rattle.jh_frames.specs.Memory.{byte_at, word_in};
ghost use Rattle.jh_shape.specs.Claims.{Claims};
ghost use Rattle.jh_walk.specs.Walks.{levels, walk_of};
ghost use Rattle.jh_edit.specs.declared.leaves.LeafAt.{LeafAt as AnyLeaf};
ghost use Rattle.jh_edit.specs.declared.stage.Seat.{Seat as AnySeat};
ghost use Rattle.jh_edit.specs.Forest.{IsForest};
ghost use Rattle.jh_edit.specs.Leaves.{leaves_in, leaves_of, leaves_on, GivesHit, Precedes};
ghost use Rattle.jh_edit.specs.Seats.{cell_tree};
ghost use Rattle.jh_edit.specs.Tables.{words};
ghost use Rattle.jh_edit.specs.Private.Slots.{IsTablePlace, IsTableStart, LeadsToTable};

use crate::counting::{LEVELS, SLOTS, descriptor};
use crate::seats::cell_tree;
use crate::stage::Stage2;
use jh_desc::Descriptor;
use jh_frames::Frames;
use jh_num::{LAST_LEVEL, NoMemory, Rights, slot_size};
use std::alloc::Global;

/// A leaf of a cell's tables: its level, where its slot begins, the place that it leads to, what may be done there, and
/// whether it is device memory.
#[derive(Clone, Copy, PartialEq, Eq, Debug)]
pub struct LeafAt {
    pub level: u8,
    pub at: u64,
    pub out: u64,
    pub rights: Rights,
    pub device: bool,
}

/// Puts the leaves of a table behind the others.
#[cycle(leaves)]
fn add_leaves(
    f: &Frames,
    left: u8,
    table: u64,
    start: u64,
    leaves: &mut Vec<LeafAt>,
) -> Result<(), NoMemory>
    requires left { left ≤ levels }
    requires table { IsTablePlace table }
    requires start { IsTableStart left start }
    ensures { IfOk result (λ done. leaves.new.items ≡ leaves.old.items ++ leaves_of (word_in (byte_at f.now)) left table start) }
{
    if left == 0 {
        return Ok(());
    }
    let level = LAST_LEVEL + 1 - left;
    let size = slot_size(level);
    for slot in 0..SLOTS {
        let begin = start + slot as u64 * size;
        add_leaf(
            f,
            left - 1,
            begin,
            descriptor(f, level, table, slot),
            leaves,
        )?;
    }
    Ok(())
}

/// Puts the leaves behind the others that the descriptor of a slot leads to, with so many levels below it.
#[cycle(leaves)]
fn add_leaf(
    f: &Frames,
    left: u8,
    start: u64,
    descriptor: Descriptor,
    leaves: &mut Vec<LeafAt>,
) -> Result<(), NoMemory>
    requires left { left < levels }
    requires table { LeadsToTable (LAST_LEVEL - left) descriptor }
    requires start { IsTableStart left start }
    ensures { IfOk result (λ done. leaves.new.items ≡ leaves.old.items ++ leaves_on (λ next. leaves_of (word_in (byte_at f.now)) left next start) (LAST_LEVEL - left) start descriptor) }
{
    match descriptor {
        Descriptor::Invalid => Ok(()),
        Descriptor::Leaf {
            out,
            rights,
            device,
        } => {
            leaves.push(LeafAt {
                level: LAST_LEVEL - left,
                at: start,
                out,
                rights,
                device,
            })?;
            Ok(())
        }
        Descriptor::Table { next } => add_leaves(f, left, next, start, leaves),
    }
}

impl Stage2 {
    /// The leaves of the cell's tables, in order of address; none where no cell has the id.
    pub fn leaves(&self, alloc: Global, id: u32) -> Result<Vec<LeafAt>, NoMemory>
        requires forest { (claims : AnySeat → Claims) × IsForest claims self.now }
        ensures { IfOk result (λ leaves. leaves.items ≡ leaves_in (words self.now.frames) (cell_tree id self.now.seats.items)) }
    {
        let mut leaves = Vec::new(alloc);
        if let Some(tree) = cell_tree(self.seats.as_slice(), id) {
            add_leaves(&self.frames, LEVELS, tree.table, 0, &mut leaves)?;
        }
        Ok(leaves)
    }
}

/// The leaves of tables are what walks find: each gives what a walk finds at each address of its slot, and whatever a walk
/// finds, one of them gives. They are in order of address, and none meets another.
pub fn leaves_are_what_walks_find()
    ensures found { (word : ℕ → ℕ) (table at : ℕ) (leaf : AnyLeaf) (hit : AnyHit) → Contains (leaves_of word levels table 0) leaf → GivesHit leaf at hit → walk_of word levels table at ≡ Some hit }
    ensures listed { (word : ℕ → ℕ) (table at : ℕ) (hit : AnyHit) → at < ADDRESS_END → walk_of word levels table at ≡ Some hit → (leaf : AnyLeaf) × (Contains (leaves_of word levels table 0) leaf × GivesHit leaf at hit) }
    ensures order { (word : ℕ → ℕ) (table : ℕ) → AllPairs Precedes (leaves_of word levels table 0) }
{}
