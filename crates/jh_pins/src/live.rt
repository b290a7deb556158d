//! The pins of the cells that live on a board.
ghost use Rattle.std.specs.Prelude.{◌≡◌, ◌↔◌, [], ◌∷◌, All, IsTrue, IfOk, not, false};
ghost use Rattle.jh_history.specs.declared.form.Form.TheVariants.{Two};
ghost use Rattle.jh_history.specs.Admitted.{IsAdmitted};
ghost use Rattle.jh_history.specs.Due.{IsLegal};
ghost use Rattle.jh_history.specs.Items.{items, with_item};
ghost use Rattle.jh_history.specs.Lives.{is_on_board};
ghost use Rattle.jh_pins.specs.After.{live_table, IsStoppedAtLimit, IsPinsText, IsPinsAnswer};

use crate::table::PinTable;
use crate::text::{push_clashes, push_held};
use jh_board::{Board, TurnFault};
use jh_history::legal_journals_are_sound;
use jh_laws::items_run_until_one_is_cut_short;
use jh_num::{NoMemory, Seq};
use jh_script::Image;
use std::alloc::Global;

/// The table of the cells that live on the board.
fn table_of_board(alloc: Global, board: &Board) -> Result<PinTable, NoMemory>
    ensures { IfOk result (λ table. table ≡ live_table board.now.image board.now.form board.now.entries) }
{
    legal_journals_are_sound();
    // for the proof: the entries are legal
    let _ = board.journal();
    let Some(root) = board.cell(0) else {
        // root lives
        unreachable!()
    };
    let mut table = PinTable::open(alloc, root)?;
    for index in 0..board.count() - 1 {
        match board.cell(index + 1) {
            Some(cell) => table.add(cell)?,
            // there are so many cells
            None => unreachable!(),
        }
    }
    Ok(table)
}

/// A board of the image, with an empty journal of form Two.
fn opened(alloc: Global, image: Image, limit: u32) -> Result<Board, NoMemory>
    requires { IsAdmitted image }
    ensures { IfOk result (λ board. board ≡ record { image = image; limit = limit; form = Two; entries = [] }) }
{
    match Board::open(alloc, image, limit) {
        Ok(board) => Ok(board),
        Err(_) => Err(NoMemory),
    }
}

/// One item of the CPU; tells whether the limit stopped it.
fn item(board: &mut Board, cpu: u8) -> Result<bool, NoMemory>
    requires { IsTrue (is_on_board board.old.image cpu) }
    ensures reached { IfOk result (λ full. with_item board.old.image board.old.form board.old.limit (record { entries = board.old.entries; full = false }) cpu ≡ record { entries = board.new.entries; full = full }) }
    ensures image { board.new.image ≡ board.old.image }
    ensures form { board.new.form ≡ board.old.form }
    ensures limit { board.new.limit ≡ board.old.limit }
{
    match board.make_due(cpu) {
        Ok(_) => Ok(false),
        Err(TurnFault::Full) => Ok(true),
        Err(TurnFault::NoMemory) => Err(NoMemory),
    }
}

/// The items of the schedule, one after another; false where the limit stopped one.
fn follow(board: &mut Board, schedule: &[u8]) -> Result<bool, NoMemory>
    requires { All (λ cpu. IsTrue (is_on_board board.old.image cpu)) schedule.now }
    ensures reached { IfOk result (λ whole. items board.old.image board.old.form board.old.limit schedule.now board.old.entries ≡ record { entries = board.new.entries; full = not whole }) }
    ensures image { board.new.image ≡ board.old.image }
    ensures form { board.new.form ≡ board.old.form }
    ensures limit { board.new.limit ≡ board.old.limit }
{
    for cpu in schedule {
        let stopped = item(board, *cpu)?;
        if stopped {
            return Ok(false);
        }
    }
    Ok(true)
}

/// Makes the items of the schedule alone, on a board of the image. With the board comes the table of the cells that
/// live on it then, and false exactly where the limit stopped an item.
pub fn pins_after(
    alloc: Global,
    image: Image,
    schedule: &[u8],
    limit: u32,
) -> Result<(PinTable, Board, bool), NoMemory>
    requires admitted { IsAdmitted image }
    requires schedule { All (λ cpu. IsTrue (is_on_board image cpu)) schedule.now }
    ensures table { IfOk result (λ r. r.0 ≡ live_table image Two r.1.entries) }
    ensures items { IfOk result (λ r. items image Two limit schedule.now [] ≡ record { entries = r.1.entries; full = not r.2 }) }
    ensures board { IfOk result (λ r. r.1 ≡ record { image = image; limit = limit; form = Two; entries = r.1.entries }) }
    ensures legal { IfOk result (λ r. IsLegal image Two r.1.entries) }
    ensures full { IfOk result (λ r. (r.2 ≡ false) ↔ IsStoppedAtLimit image Two limit schedule.now r.1.entries) }
{
    items_run_until_one_is_cut_short();
    let mut board = opened(alloc, image, limit)?;
    let whole = follow(&mut board, schedule)?;
    let table = table_of_board(alloc, &board)?;
    // for the proof: the entries are legal, and no more than the limit
    let _ = board.journal();
    Ok((table, board, whole))
}

/// The text of what the cells hold that live on the board, by its table, and of their clashes.
fn print_pins(alloc: Global, table: &PinTable, board: &Board) -> Result<Vec<u8>, NoMemory>
    requires { table.now ≡ live_table board.now.image board.now.form board.now.entries }
    ensures { IfOk result (λ text. IsPinsText board.now.image board.now.form board.now.entries text.items) }
{
    let mut text = Vec::new(alloc);
    for number in 0..board.count() {
        match board.cell(number) {
            Some(cell) => push_held(alloc, &mut text, table, cell)?,
            // there are so many cells
            None => unreachable!(),
        }
    }
    push_clashes(&mut text, table)?;
    Ok(text)
}

/// Makes the items of the schedule alone, on a board of the image, and tells which pins the cells hold that live then,
/// and which clash; `None` where the limit stopped an item.
pub fn pins(
    alloc: Global,
    image: Image,
    schedule: &[u8],
    limit: u32,
) -> Result<Option<Seq<u8>>, NoMemory>
    requires admitted { IsAdmitted image }
    requires schedule { All (λ cpu. IsTrue (is_on_board image cpu)) schedule.now }
    ensures { IfOk result (IsPinsAnswer image Two limit schedule.now) }
{
    let (table, board, whole) = pins_after(alloc, image, schedule, limit)?;
    if !whole {
        return Ok(None);
    }
    let text = print_pins(alloc, &table, &board)?;
    Ok(Some(Seq::from_vec(text)))
}
