//! Checking a system and its cells.
ghost use Rattle.std.specs.Prelude.{◌≡◌, ◌≤◌, length, map, string_bytes, IfOk, IfErr, OnOk, ◌∷◌, []};
ghost use Rattle.jh_cellcfg.specs.Texts.{config_fault_text};
ghost use Rattle.jh_cellcfg.specs.declared.fault.ConfigFault.TheVariants.{NoMemory as for_memory};
ghost use Rattle.jh_outside.specs.Trail.{AsksAll};
ghost use Rattle.jh_cli.specs.Order.{AsksTo, AsksToCell, AsksCells, AsksCheck};
ghost use Rattle.jh_cli.specs.Lines.{refusal_line};
ghost use Rattle.jh_cli.specs.Reading.{Spells, EndsAtFile, IsCountedFault};
ghost use Rattle.jh_cli.specs.Check.{IsCellFile, CellRefusal, IsSystemFile, SystemRefusal, SpellCells, ChecksCells, Checks, checked, findings_text};
ghost use Rattle.jh_cli.specs.Private.Endings.{reply_of, OnEnded, OnEnding};

use crate::ending::{CallFault, Ending, read_below, refused_for};
use crate::limits::MAX_READ;
use crate::status::Status;
use jh_cellcfg::{CellConfig, ConfigFault, SystemConfig, read_cell};
use jh_check::{Finding, check as check_all};
use jh_num::{NoMemory, Seq};
use jh_outside::Files;
use jh_syscfg::read_system;
use std::alloc::Global;

/// The call ends since no configuration was read from the file of this name.
fn unread(alloc: Global, name: &str, fault: &ConfigFault) -> CallFault
    ensures told { OnEnded result (λ reply. reply ≡ record { status = Status.Refused; text = refusal_line name.now (config_fault_text fault.now) }) }
    ensures memory { fault.now ≡ for_memory → result ≡ CallFault.NoMemory }
{
    match fault {
        ConfigFault::NoMemory => CallFault::NoMemory,
        _ => refused_for(alloc, name, fault),
    }
}

/// The cell in the file of this name.
fn cell<F: Files>(alloc: Global, files: &mut F, name: &str) -> Result<CellConfig, CallFault>
    ensures ok { IfOk result (Spells (F.contents files.old) name.now IsCellFile) }
    ensures err { IfErr result (λ stop. OnEnded stop (EndsAtFile (F.contents files.old) name.now CellRefusal)) }
    ensures counted { IfErr result (λ stop. OnEnded stop (IsCountedFault (F.faults files.old) (F.faults files.new) (F.failed files.new))) }
    ensures never_falls { F.faults files.old ≤ F.faults files.new }
    ensures kept { F.contents files.new ≡ F.contents files.old }
    ensures asked { OnOk result (AsksAll F.Files (name.now ∷ []) files.old files.new) }
    ensures asked_until { IfErr result (λ stop. OnEnded stop (AsksTo F.Files files.old files.new [] name.now)) }
{
    let bytes = read_below(alloc, files, name, MAX_READ)?;
    match read_cell(alloc, bytes.as_slice()) {
        Ok(cell) => Ok(cell),
        Err(fault) => Err(unread(alloc, name, &fault)),
    }
}

/// The system in the file of this name.
pub fn system<F: Files>(alloc: Global, files: &mut F, name: &str) -> Result<SystemConfig, CallFault>
    ensures ok { IfOk result (Spells (F.contents files.old) name.now IsSystemFile) }
    ensures err { IfErr result (λ stop. OnEnded stop (EndsAtFile (F.contents files.old) name.now SystemRefusal)) }
    ensures counted { IfErr result (λ stop. OnEnded stop (IsCountedFault (F.faults files.old) (F.faults files.new) (F.failed files.new))) }
    ensures never_falls { F.faults files.old ≤ F.faults files.new }
    ensures kept { F.contents files.new ≡ F.contents files.old }
    ensures asked { OnOk result (AsksAll F.Files (name.now ∷ []) files.old files.new) }
    ensures asked_until { IfErr result (λ stop. OnEnded stop (AsksTo F.Files files.old files.new [] name.now)) }
{
    let bytes = read_below(alloc, files, name, MAX_READ)?;
    match read_system(alloc, bytes.as_slice()) {
        Ok(system) => Ok(system),
        Err(fault) => Err(unread(alloc, name, &fault)),
    }
}

/// The cells in the files of these names, read in their order.
fn cells<F: Files>(
    alloc: Global,
    files: &mut F,
    names: &[String],
) -> Result<Seq<CellConfig>, CallFault>
    ensures ok { IfOk result (SpellCells (F.contents files.old) (map string_bytes names.now)) }
    ensures few { IfOk result (λ cells. length cells ≡ length names.now) }
    ensures counted { IfErr result (λ stop. OnEnded stop (IsCountedFault (F.faults files.old) (F.faults files.new) (F.failed files.new))) }
    ensures never_falls { F.faults files.old ≤ F.faults files.new }
    ensures asked { OnOk result (AsksAll F.Files (map string_bytes names.now) files.old files.new) }
    ensures asked_until { IfErr result (λ stop. OnEnded stop (AsksToCell F.Files files.old files.new (F.contents files.old) (map string_bytes names.now))) }
{
    let mut cells = Seq::new(alloc);
    for name in names {
        // for the proof: what stops the call is handed up as it is, and `?` would make it anew by `From`
        match cell(alloc, files, name.as_str()) {
            Ok(cell) => cells.push(cell)?,
            Err(stop) => return Err(stop),
        }
    }
    Ok(cells)
}

/// A line for each finding, and their number.
fn findings_text(alloc: Global, found: &[Finding]) -> Result<Vec<u8>, NoMemory>
    ensures { IfOk result (λ text. text.items ≡ findings_text found.now) }
{
    let mut text = String::new(alloc);
    for finding in found {
        write!(text, "{finding}\n")?;
    }
    write!(text, "findings {}\n", found.len())?;
    Ok(text.into_bytes())
}

/// What a check of the system and the cells tells.
fn tell_findings(
    alloc: Global,
    system: &SystemConfig,
    cells: &[CellConfig],
) -> Result<Ending, NoMemory>
    requires { length cells.now ≤ 15 }
    ensures { IfOk result (λ ending. reply_of ending ≡ checked system.now cells.now) }
{
    let found = check_all(alloc, system, cells)?;
    let text = findings_text(alloc, found.as_slice())?;
    let status = if found.is_empty() {
        Status::Good
    } else {
        Status::Found
    };
    Ok(Ending { status, text })
}

/// Reads the cells, and checks them with the system.
fn check_cells<F: Files>(
    alloc: Global,
    files: &mut F,
    system: &SystemConfig,
    names: &[String],
) -> Result<Ending, CallFault>
    requires { length names.now ≤ 15 }
    ensures ends { OnEnding result (ChecksCells (F.contents files.old) (map string_bytes names.now) system.now) }
    ensures counted { OnEnding result (IsCountedFault (F.faults files.old) (F.faults files.new) (F.failed files.new)) }
    ensures asked { OnEnding result (AsksCells F.Files files.old files.new (F.contents files.old) (map string_bytes names.now)) }
{
    let cells = cells(alloc, files, names)?;
    Ok(tell_findings(alloc, system, cells.as_slice())?)
}

/// Reads the system and the cells, and checks them.
pub fn check<F: Files>(
    alloc: Global,
    files: &mut F,
    system_name: &str,
    names: &[String],
) -> Result<Ending, CallFault>
    requires { length names.now ≤ 15 }
    ensures ends { OnEnding result (Checks (F.contents files.old) system_name.now (map string_bytes names.now)) }
    ensures counted { OnEnding result (IsCountedFault (F.faults files.old) (F.faults files.new) (F.failed files.new)) }
    ensures asked { OnEnding result (AsksCheck F.Files files.old files.new (F.contents files.old) system_name.now (map string_bytes names.now)) }
{
    let system = system(alloc, files, system_name)?;
    check_cells(alloc, files, &system, names)
}
