//! Which cells are locked: while one lives, no cell is created and no other is destroyed.
ghost use Rattle.std.specs.Prelude.{◌≡◌, List};
ghost use Rattle.std.specs.List.{list_any};
ghost use Rattle.jh_cellcfg.specs.declared.live.Live.{Live as TheLive};
ghost use Rattle.jh_history.specs.LiveView.{state_word_by, is_locked_by, is_other_locked_by};
ghost use Rattle.jh_shape.specs.Lives.{configs_of};

use crate::bytes::{Bytes, value_of};
use crate::place::{Place, Places};
use jh_cellcfg::CellConfig;
use jh_comm::{STATE_AT, STATE_RUNNING_LOCKED};

/// The state of the cell.
fn state_word<B: Bytes>(bytes: &B, cell: u32) -> u32
    ensures { result ≡ state_word_by (B.byte_of bytes.now) cell }
{
    let places = Places::of_word(Place::Page {
        cell,
        offset: STATE_AT as u64,
    });
    value_of(bytes, &places) as u32
}

/// Whether the cell is locked, by these bytes: its state is RUNNING_LOCKED.
pub fn is_locked<B: Bytes>(bytes: &B, cell: &CellConfig) -> bool
    ensures { result ≡ is_locked_by (B.byte_of bytes.now) cell.now }
{
    state_word(bytes, cell.id) == STATE_RUNNING_LOCKED
}

/// Whether one of the cells is locked, by these bytes.
pub fn is_any_locked<B: Bytes>(bytes: &B, cells: &[CellConfig]) -> bool
    ensures { (lives : List TheLive) → configs_of lives ≡ cells.now → result ≡ list_any (λ (live : TheLive). is_locked_by (B.byte_of bytes.now) live.config) lives }
{
    for cell in cells {
        if is_locked(bytes, cell) {
            return true;
        }
    }
    false
}

/// Whether the cell is another than the one with the id, and locked.
fn is_other_locked<B: Bytes>(bytes: &B, cell: &CellConfig, id: u64) -> bool
    ensures { result ≡ is_other_locked_by (B.byte_of bytes.now) id cell.now }
{
    u64::from(cell.id) != id && is_locked(bytes, cell)
}

/// Whether one of the cells but the one with the id is locked, by these bytes.
pub fn is_any_other_locked<B: Bytes>(bytes: &B, cells: &[CellConfig], id: u64) -> bool
    ensures { (lives : List TheLive) → configs_of lives ≡ cells.now → result ≡ list_any (λ (live : TheLive). is_other_locked_by (B.byte_of bytes.now) id live.config) lives }
{
    for cell in cells {
        if is_other_locked(bytes, cell, id) {
            return true;
        }
    }
    false
}
