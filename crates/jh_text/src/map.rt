//! From the map of a cell to its text.
ghost use Rattle.std.specs.Prelude.{◌≡◌, ◌++◌, OnOk, IfOk, string_bytes};
ghost use Rattle.std.specs.List.{flat_map, join_with_byte};
ghost use Rattle.jh_text.specs.Maps.{place_text, letter_or_dash, kind_text, rights_text, run_words, run_line, cell_words, map_text};
ghost use Rattle.jh_text.specs.Text.{words_line};

use jh_cellcfg::CellConfig;
use jh_map::Run;
use jh_num::{NoMemory, Rights};
use std::alloc::Global;

/// The word before a place, which tells whether it is in the communication page or in memory.
fn place_word(comm: bool) -> &'static str
    ensures { result.now ≡ place_text comm }
{
    if comm { "comm" } else { "phys" }
}

/// The word for whether the run is mapped by pages.
fn kind_word(page: bool) -> &'static str
    ensures { result.now ≡ kind_text page }
{
    if page { "page" } else { "sub" }
}

/// The letter of a right where one has it, else `-`.
fn letter_or_dash(may: bool, letter: &'static str) -> &'static str
    ensures { result.now ≡ letter_or_dash may letter.now }
{
    if may { letter } else { "-" }
}

/// Puts the letters of the rights at the end, or `-` for each that is missing.
fn push_rights(text: &mut String, rights: Rights) -> Result<(), NoMemory>
    ensures { OnOk result (string_bytes text.new ≡ string_bytes text.old ++ rights_text rights) }
{
    text.push_str(letter_or_dash(rights.read, "r"))?;
    text.push_str(letter_or_dash(rights.write, "w"))?;
    text.push_str(letter_or_dash(rights.execute, "x"))?;
    Ok(())
}

/// Puts the words of the run at the end, with one space between each two.
fn push_run(text: &mut String, run: &Run) -> Result<(), NoMemory>
    ensures { OnOk result (string_bytes text.new ≡ string_bytes text.old ++ join_with_byte 32 (run_words run.now)) }
{
    let start = run.start;
    let end = run.end;
    let place = run.place;
    write!(
        text,
        "0x{start:x}-0x{end:x} {} 0x{place:x} ",
        place_word(run.comm)
    )?;
    push_rights(text, run.rights)?;
    write!(text, " {}", kind_word(run.page))?;
    Ok(())
}

/// A line for each run.
fn print_runs(alloc: Global, runs: &[Run]) -> Result<String, NoMemory>
    ensures { IfOk result (λ text. string_bytes text ≡ flat_map run_line runs.now) }
{
    let mut text = String::new(alloc);
    for run in runs {
        push_run(&mut text, run)?;
        text.push('\n')?;
    }
    Ok(text)
}

/// Puts the line of the cell at the end: its name's bytes are written as they are.
fn push_cell(alloc: Global, text: &mut Vec<u8>, cell: &CellConfig) -> Result<(), NoMemory>
    ensures { OnOk result (text.new.items ≡ text.old.items ++ words_line (cell_words cell.now)) }
{
    let id = cell.id;
    let head = format!(in alloc; "cell {id} ")?;
    text.extend_from_slice(head.as_bytes())?;
    text.extend_from_slice(cell.name())?;
    text.push(b'\n')?;
    Ok(())
}

/// Puts the text of the cell's map at the end: a line for the cell, and one for each run.
pub fn push_map(
    alloc: Global,
    text: &mut Vec<u8>,
    cell: &CellConfig,
    runs: &[Run],
) -> Result<(), NoMemory>
    ensures { OnOk result (text.new.items ≡ text.old.items ++ map_text cell.now runs.now) }
{
    let lines = print_runs(alloc, runs)?;
    push_cell(alloc, text, cell)?;
    text.extend_from_slice(lines.as_bytes())?;
    Ok(())
}
