//! The places that live cells close to root.
ghost use Rattle.std.specs.Prelude.{◌≡◌, ℕ, ◌+◌, ◌<◌, ◌≤◌, ◌^◌, ◌||◌, List, [], All, length};
ghost use Rattle.jh_num.specs.Bytes.{has_byte};
ghost use Rattle.jh_cellcfg.specs.declared.live.Live.{Live};
ghost use Rattle.jh_cellcfg.specs.Regions.{AreInRange};
ghost use Rattle.jh_num.specs.Bits.{has_bit};
ghost use Rattle.jh_shape.specs.Lives.{is_loadable_at};
ghost use Rattle.jh_closed.specs.Closed.{is_taken, is_closed_by, all_regions, count_regions};

use crate::cell_regions::CellRegions;
use jh_num::{ByteSet, Range, has_bit};

/// Closes the places that the cell, loadable or not, takes. It takes no memory.
pub fn close_cell(closed: &mut ByteSet, cell: &CellRegions, loadable: bool)
    requires within { AreInRange cell.now }
    requires room { length closed.old.ranges + length cell.now ≤ closed.old.room }
    ensures bytes { (place : ℕ) → has_byte closed.new.ranges place ≡ (has_byte closed.old.ranges place || is_taken loadable cell.now place) }
    ensures few { length closed.new.ranges ≤ length closed.old.ranges + length cell.now }
    ensures room { closed.old.room ≤ closed.new.room }
{
    match closed.unite(cell.taken(loadable)) {
        Ok(()) => (),
        // there is room for all of them
        Err(_) => unreachable!(),
    }
}

/// A range ends within the numbers of 64 bits. It does nothing; its contract is what holds of each range.
fn range_ends_within_64_bits(_range: Range)
    ensures { _range.end < 2 ^ 64 }
{}

/// Opens all places.
fn open_all(closed: &mut ByteSet)
    requires { length closed.old.ranges < closed.old.room }
    ensures none { closed.new.ranges ≡ [] }
    ensures room { closed.old.room ≤ closed.new.room }
{
    let all = Range {
        start: 0,
        end: u64::MAX,
    };
    match closed.remove(all) {
        Ok(()) => (),
        // there is room for one range more
        Err(_) => unreachable!(),
    }
    if let Some(range) = closed.ranges().first() {
        // for the proof: no range ends behind the last place, and none below it is left
        range_ends_within_64_bits(*range);
        unreachable!()
    }
}

/// Closes the places that the cells take, and opens all others. Bit i of `loadable` is set where the cell at
/// index i is loadable.
pub fn close_again(closed: &mut ByteSet, cells: &[CellRegions], loadable: u16)
    requires few { length cells.now ≤ 15 }
    requires within { All AreInRange cells.now }
    requires some { length closed.old.ranges < closed.old.room }
    requires room { count_regions cells.now ≤ closed.old.room }
    ensures bytes { (lives : List Live) → all_regions lives ≡ cells.now → ((i : ℕ) → has_bit loadable i ≡ is_loadable_at lives i)
        → (place : ℕ) → has_byte closed.new.ranges place ≡ is_closed_by lives place }
    ensures few { length closed.new.ranges ≤ count_regions cells.now }
    ensures room { closed.old.room ≤ closed.new.room }
{
    open_all(closed);
    for i in 0..cells.len() {
        close_cell(closed, &cells[i], has_bit(u32::from(loadable), i));
    }
}
