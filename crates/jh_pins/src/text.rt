//! The text of pins.
ghost use Rattle.std.specs.Prelude.{◌≡◌, ◌++◌, List, OnOk};
ghost use Rattle.std.specs.List.{flat_map};
ghost use Rattle.jh_text.specs.Maps.{cell_words};
ghost use Rattle.jh_text.specs.Text.{words_line};
ghost use Rattle.jh_pins.specs.declared.pin.PinRun.{PinRun as TheRun};
ghost use Rattle.jh_pins.specs.declared.pin.Clash.{Clash as TheClash};
ghost use Rattle.jh_pins.specs.Holders.{is_held_by};
ghost use Rattle.jh_pins.specs.Runs.{AreRuns};
ghost use Rattle.jh_pins.specs.Clashes.{AreClashes};
ghost use Rattle.jh_pins.specs.Texts.{run_line, clash_line, held_text, clashes_text};

use crate::pin::{Clash, PinRun};
use crate::table::PinTable;
use jh_cellcfg::CellConfig;
use jh_num::NoMemory;
use jh_text::{push_decimal, push_hexadecimal};
use std::alloc::Global;

/// Puts the line of the run at the end.
fn push_run(text: &mut Vec<u8>, run: &PinRun) -> Result<(), NoMemory>
    ensures { OnOk result (text.new.items ≡ text.old.items ++ run_line run.now) }
{
    text.extend_from_slice(b"chip ")?;
    push_hexadecimal(text, run.chip)?;
    text.extend_from_slice(b" pins ")?;
    push_decimal(text, run.first)?;
    text.push(b'-')?;
    push_decimal(text, run.last)?;
    text.push(b'\n')?;
    Ok(())
}

/// Puts a line for each run at the end.
fn push_runs(text: &mut Vec<u8>, runs: &[PinRun]) -> Result<(), NoMemory>
    ensures { OnOk result (text.new.items ≡ text.old.items ++ flat_map run_line runs.now) }
{
    for run in runs {
        push_run(text, run)?;
    }
    Ok(())
}

/// Puts the line of the clash at the end.
fn push_clash(text: &mut Vec<u8>, clash: &Clash) -> Result<(), NoMemory>
    ensures { OnOk result (text.new.items ≡ text.old.items ++ clash_line clash.now) }
{
    text.extend_from_slice(b"clash ")?;
    push_decimal(text, u64::from(clash.first))?;
    text.push(b' ')?;
    push_decimal(text, u64::from(clash.second))?;
    text.push(b' ')?;
    push_run(text, &clash.run)?;
    Ok(())
}

/// Puts a line for each clash at the end, and one with their number.
fn push_each_clash(text: &mut Vec<u8>, clashes: &[Clash]) -> Result<(), NoMemory>
    ensures { OnOk result (text.new.items ≡ text.old.items ++ clashes_text clashes.now) }
{
    for clash in clashes {
        push_clash(text, clash)?;
    }
    text.extend_from_slice(b"clashes ")?;
    push_decimal(text, clashes.len() as u64)?;
    text.push(b'\n')?;
    Ok(())
}

/// Puts the line of the cell at the end: its name's bytes are written as they are.
fn push_cell(alloc: Global, text: &mut Vec<u8>, cell: &CellConfig) -> Result<(), NoMemory>
    ensures { OnOk result (text.new.items ≡ text.old.items ++ words_line (cell_words cell.now)) }
{
    let id = cell.id;
    let head = format!(in alloc; "cell {id} ")?;
    text.extend_from_slice(head.as_bytes())?;
    text.extend_from_slice(cell.name())?;
    text.push(b'\n')?;
    Ok(())
}

/// Puts the text of what the cell holds by the table at the end: a line for the cell, and one for each run.
pub fn push_held(
    alloc: Global,
    text: &mut Vec<u8>,
    table: &PinTable,
    cell: &CellConfig,
) -> Result<(), NoMemory>
    ensures { OnOk result ((runs : List TheRun) × AreRuns (is_held_by table.now cell.now.id) runs × (text.new.items ≡ text.old.items ++ held_text cell.now runs)) }
{
    let runs = table.held(cell.id)?;
    push_cell(alloc, text, cell)?;
    push_runs(text, runs.as_slice())?;
    Ok(())
}

/// Puts the text of the table's clashes at the end.
pub fn push_clashes(text: &mut Vec<u8>, table: &PinTable) -> Result<(), NoMemory>
    ensures { OnOk result ((clashes : List TheClash) × AreClashes table.now.cells clashes × (text.new.items ≡ text.old.items ++ clashes_text clashes)) }
{
    let clashes = table.clashes()?;
    push_each_clash(text, clashes.as_slice())?;
    Ok(())
}
