//! The seats of cells, searched.
ghost use Rattle.std.specs.Prelude.{◌≡◌, ◌<◌, length, find, option_copied, true, false, ℕ};
ghost use Rattle.jh_edit.specs.Forest.{is_root};
ghost use Rattle.jh_edit.specs.Seats.{cell_comm, cell_tree, has_tag, is_seat_of, is_tag_used, root_tree};

use crate::stage::{MAX_CELLS, Seat, Tree};

impl Seat {
    /// Whether the seat is root's.
    pub(crate) fn is_root(&self) -> bool
        ensures { result ≡ is_root self.now }
    {
        self.comm.is_none()
    }

    /// Whether the cell's tables have the tag.
    fn has_tag(&self, tag: u8) -> bool
        ensures { result ≡ has_tag tag self.now.tree }
    {
        match self.tree {
            Some(tree) => tree.tag == tag,
            None => false,
        }
    }
}

/// The seat of root.
fn root_seat(seats: &[Seat]) -> Option<&Seat>
    ensures { option_copied result ≡ find is_root seats.now }
{
    seats.iter().find(|seat| seat.is_root())
}

/// The seat of the cell with the id.
fn seat_of(seats: &[Seat], id: u32) -> Option<&Seat>
    ensures { option_copied result ≡ find (is_seat_of id) seats.now }
{
    seats.iter().find(|seat| seat.id == id)
}

/// The tables of root.
pub(crate) fn root_tree(seats: &[Seat]) -> Option<Tree>
    ensures { result ≡ root_tree seats.now }
{
    match root_seat(seats) {
        Some(seat) => seat.tree,
        None => None,
    }
}

/// The tables of the cell with the id.
pub(crate) fn cell_tree(seats: &[Seat], id: u32) -> Option<Tree>
    ensures { result ≡ cell_tree id seats.now }
{
    match seat_of(seats, id) {
        Some(seat) => seat.tree,
        None => None,
    }
}

/// The communication page of the cell with the id.
pub(crate) fn cell_comm(seats: &[Seat], id: u32) -> Option<u64>
    ensures { result ≡ cell_comm id seats.now }
{
    match seat_of(seats, id) {
        Some(seat) => seat.comm,
        None => None,
    }
}

/// Whether some cell's tables have the tag.
fn is_tag_used(seats: &[Seat], tag: u8) -> bool
    ensures { result ≡ is_tag_used tag seats.now }
{
    seats.iter().any(|seat| seat.has_tag(tag))
}

/// The lowest tag that no cell's tables have, where there is room for one more cell.
pub(crate) fn lowest_tag(seats: &[Seat]) -> u8
    requires { length seats.now < 16 }
    ensures unused { is_tag_used result seats.now ≡ false }
    ensures lowest { (tag : ℕ) → tag < result → is_tag_used tag seats.now ≡ true }
    ensures low { result < 16 }
{
    for tag in 0..MAX_CELLS {
        if !is_tag_used(seats, tag) {
            return tag;
        }
    }
    // fewer cells have a tag than there are tags
    unreachable!()
}
