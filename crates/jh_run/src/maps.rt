//! The maps of all live cells after a schedule.
ghost use Rattle.std.specs.Prelude.{◌≡◌, ◌++◌, All, Contains, IsTrue, IfOk, OnOk, List};
ghost use Rattle.jh_map.specs.declared.run.Run.{Run as TheRun};
ghost use Rattle.jh_history.specs.Admitted.{IsAdmitted};
ghost use Rattle.jh_history.specs.History.{facts};
ghost use Rattle.jh_history.specs.Lives.{is_on_board};
ghost use Rattle.jh_text.specs.Maps.{map_text};
ghost use Rattle.jh_shape.specs.Lives.{all_cells};
ghost use Rattle.jh_board.specs.Maps.{IsMapIn};
ghost use Rattle.jh_run.specs.Maps.{IsMapsText, IsMapsAnswer};

use crate::ended::Ended;
use crate::schedule::follow;
use jh_board::Board;
use jh_cellcfg::CellConfig;
use jh_num::{NoMemory, Seq};
use jh_script::Image;
use jh_text::push_map;
use std::alloc::Global;

/// Puts the text of the map of a live cell at the end.
fn push_cell_map(
    alloc: Global,
    board: &Board,
    cell: &CellConfig,
    text: &mut Vec<u8>,
) -> Result<(), NoMemory>
    requires { Contains (all_cells board.now.image.system.root (facts board.now.image board.now.form board.now.entries).cells) cell.now }
    ensures { OnOk result ((runs : List TheRun) × IsMapIn board.now.image (facts board.now.image board.now.form board.now.entries).cells cell.now.id runs
        × (text.new.items ≡ text.old.items ++ map_text cell.now runs)) }
{
    match board.map_of(cell.id)? {
        Some(runs) => push_map(alloc, text, cell, runs.as_slice()),
        // the cell lives
        None => unreachable!(),
    }
}

/// The text of the maps of all live cells.
fn print_maps(alloc: Global, board: &Board) -> Result<Vec<u8>, NoMemory>
    ensures { IfOk result (λ text. IsMapsText board.now.image board.now.form board.now.entries text.items) }
{
    let mut text = Vec::new(alloc);
    for number in 0..board.count() {
        match board.cell(number) {
            Some(cell) => push_cell_map(alloc, board, cell, &mut text)?,
            // there are so many cells
            None => unreachable!(),
        }
    }
    Ok(text)
}

/// Makes the items of the schedule alone, on a board of the image, and tells the maps of all cells that live then;
/// `None` where the limit stopped an item.
pub fn map(
    alloc: Global,
    image: Image,
    schedule: &[u8],
    limit: u32,
) -> Result<Option<Seq<u8>>, NoMemory>
    requires admitted { IsAdmitted image }
    requires schedule { All (λ cpu. IsTrue (is_on_board image cpu)) schedule.now }
    ensures { IfOk result (IsMapsAnswer image limit schedule.now) }
{
    let (board, ended) = follow(alloc, image, schedule, limit)?;
    match ended {
        Ended::Full => Ok(None),
        Ended::Unstopped => {
            let text = print_maps(alloc, &board)?;
            Ok(Some(Seq::from_vec(text)))
        }
    }
}
