//! What a board tells of its tables: all leaves, read from descriptors in memory.
ghost use Rattle.std.specs.Prelude.{◌≡◌, ◌++◌, IfOk, OnOk, flat_map, map};
ghost use Rattle.jh_shape.specs.Claims.{Claims};
ghost use Rattle.jh_edit.specs.declared.stage.Seat.{Seat as TheSeat};
ghost use Rattle.jh_edit.specs.Forest.{IsForest};
ghost use Rattle.jh_board.specs.Tables.{told_leaf, told_leaves, told_place};

use jh_edit::{LeafAt, Seat, Stage2};
use jh_num::NoMemory;
use std::alloc::Global;

/// A leaf of the tables of the cell with the id. Where it leads to the cell's communication page, its place is 0: which page of
/// the pool that is isn't told.
#[derive(Clone, Copy, PartialEq, Eq, Debug)]
pub struct TableLeaf {
    pub cell: u32,
    pub leaf: LeafAt,
}

/// The place that a leaf of a cell with this communication page leads to, as it is told.
fn told_place(comm: Option<u64>, out: u64) -> u64
    ensures { result ≡ told_place comm out }
{
    match comm {
        Some(page) => { if out == page { 0 } else { out } }
        None => out,
    }
}

/// The leaf of the tables of the seat's cell, as it is told.
fn told_leaf(seat: &Seat, leaf: &LeafAt) -> TableLeaf
    ensures { result ≡ told_leaf seat.now leaf.now }
{
    TableLeaf {
        cell: seat.id,
        leaf: LeafAt {
            level: leaf.level,
            at: leaf.at,
            out: told_place(seat.comm, leaf.out),
            rights: leaf.rights,
            device: leaf.device,
        },
    }
}

/// Puts the leaves of the tables of the seat's cell behind the others.
fn add_leaves(
    alloc: Global,
    stage: &Stage2,
    seat: &Seat,
    leaves: &mut Vec<TableLeaf>,
) -> Result<(), NoMemory>
    requires forest { (claims : TheSeat → Claims) × IsForest claims stage.now }
    ensures { OnOk result (leaves.new.items ≡ leaves.old.items ++ told_leaves stage.now seat.now) }
{
    let found = stage.leaves(alloc, seat.id)?;
    for leaf in found.as_slice() {
        leaves.push(told_leaf(seat, leaf))?;
    }
    Ok(())
}

/// All leaves of the tables of all cells: by cells in their order, and of each in order of address.
pub fn all_leaves(alloc: Global, stage: &Stage2) -> Result<Vec<TableLeaf>, NoMemory>
    requires forest { (claims : TheSeat → Claims) × IsForest claims stage.now }
    ensures { IfOk result (λ leaves. leaves.items ≡ flat_map (told_leaves stage.now) stage.now.seats.items) }
{
    let mut leaves = Vec::new(alloc);
    for seat in stage.seats.as_slice() {
        add_leaves(alloc, stage, seat, &mut leaves)?;
    }
    Ok(leaves)
}
