//! The tables of all live cells after a schedule.
ghost use Rattle.std.specs.Prelude.{◌≡◌, ◌++◌, All, IsTrue, IfOk, OnOk, string_bytes};
ghost use Rattle.std.specs.List.{flat_map, join_with_byte};
ghost use Rattle.jh_history.specs.Admitted.{IsAdmitted};
ghost use Rattle.jh_history.specs.History.{facts};
ghost use Rattle.jh_history.specs.Lives.{is_on_board};
ghost use Rattle.jh_text.specs.Maps.{letter_or_dash, rights_text};
ghost use Rattle.jh_run.specs.Tables.{leaf_kind, leaf_line, leaf_words, memory_kind, tables_text, IsTablesAnswer};

use crate::ended::Ended;
use crate::schedule::follow;
use jh_board::{Board, TableLeaf};
use jh_num::{LAST_LEVEL, NoMemory, Rights, Seq};
use jh_script::Image;
use std::alloc::Global;

/// The word for the leaf of a level: one of the last maps a page, another a block.
fn kind_word(level: u8) -> &'static str
    ensures { result.now ≡ leaf_kind level }
{
    if level == LAST_LEVEL { "page" } else { "block" }
}

/// The word for the kind of memory.
fn memory_word(device: bool) -> &'static str
    ensures { result.now ≡ memory_kind device }
{
    if device { "device" } else { "normal" }
}

/// The letter of a right where one has it, else `-`.
fn letter(may: bool, letter: &'static str) -> &'static str
    ensures { result.now ≡ letter_or_dash may letter.now }
{
    if may { letter } else { "-" }
}

/// Puts the letters of the rights at the end, or `-` for each that is missing.
fn push_rights(text: &mut String, rights: Rights) -> Result<(), NoMemory>
    ensures { OnOk result (string_bytes text.new ≡ string_bytes text.old ++ rights_text rights) }
{
    text.push_str(letter(rights.read, "r"))?;
    text.push_str(letter(rights.write, "w"))?;
    text.push_str(letter(rights.execute, "x"))?;
    Ok(())
}

/// Puts the words of the leaf at the end, with one space between each two.
fn push_leaf(text: &mut String, leaf: &TableLeaf) -> Result<(), NoMemory>
    ensures { OnOk result (string_bytes text.new ≡ string_bytes text.old ++ join_with_byte 32 (leaf_words leaf.now)) }
{
    let cell = leaf.cell;
    let level = leaf.leaf.level;
    let at = leaf.leaf.at;
    let out = leaf.leaf.out;
    write!(
        text,
        "{cell} {level} 0x{at:x} {} 0x{out:x} ",
        kind_word(level)
    )?;
    push_rights(text, leaf.leaf.rights)?;
    write!(text, " {}", memory_word(leaf.leaf.device))?;
    Ok(())
}

/// A line for each leaf.
fn print_leaves(alloc: Global, leaves: &[TableLeaf]) -> Result<String, NoMemory>
    ensures { IfOk result (λ text. string_bytes text ≡ flat_map leaf_line leaves.now) }
{
    let mut text = String::new(alloc);
    for leaf in leaves {
        push_leaf(&mut text, leaf)?;
        text.push('\n')?;
    }
    Ok(text)
}

/// The text of the tables of all live cells: a line for each leaf, and last how many pages are used, of how many.
fn print_tables(alloc: Global, board: &Board) -> Result<Vec<u8>, NoMemory>
    ensures { IfOk result (λ text. text.items ≡ tables_text board.now.image (facts board.now.image board.now.form board.now.entries).cells) }
{
    let leaves = board.tables()?;
    let lines = print_leaves(alloc, leaves.as_slice())?;
    let used = board.used();
    let size = board.size();
    let last = format!(in alloc; "pages {used} of {size}\n")?;
    let mut text = lines.into_bytes();
    text.extend_from_slice(last.as_bytes())?;
    Ok(text)
}

/// Makes the items of the schedule alone, on a board of the image, and tells the leaves of the tables of all cells that live
/// then, as descriptors in memory make them; `None` where the limit stopped an item.
pub fn tables(
    alloc: Global,
    image: Image,
    schedule: &[u8],
    limit: u32,
) -> Result<Option<Seq<u8>>, NoMemory>
    requires admitted { IsAdmitted image }
    requires schedule { All (λ cpu. IsTrue (is_on_board image cpu)) schedule.now }
    ensures { IfOk result (IsTablesAnswer image limit schedule.now) }
{
    let (board, ended) = follow(alloc, image, schedule, limit)?;
    match ended {
        Ended::Full => Ok(None),
        Ended::Unstopped => {
            let text = print_tables(alloc, &board)?;
            Ok(Some(Seq::from_vec(text)))
        }
    }
}
