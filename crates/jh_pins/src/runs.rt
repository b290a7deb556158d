//! Runs of pins, chip by chip.
ghost use Rattle.std.specs.Prelude.{◌≡◌, ℕ, ◌++◌, map, IfOk, OnOk};
ghost use Rattle.jh_num.specs.Bytes.{has_byte, AreApart};
ghost use Rattle.jh_pins.specs.Runs.{pin_of, AreRuns};
ghost use Rattle.jh_pins.specs.Private.Given.{is_before, is_done, nearer, is_given, run_on, IsNextChip};

use crate::pin::PinRun;
use crate::sets::insert_irqchips;
use jh_cellcfg::Irqchip;
use jh_num::{ByteSet, NoMemory, Range};
use std::alloc::Global;

/// Whether the chip is up to the last one that is done with.
fn is_done(last: Option<u64>, chip: u64) -> bool
    ensures { result ≡ is_done last chip }
{
    match last {
        Some(last) => chip <= last,
        None => false,
    }
}

/// Whether the chip is before the other, or there is no other.
fn is_before(chip: u64, other: Option<u64>) -> bool
    ensures { result ≡ is_before chip other }
{
    match other {
        Some(other) => chip < other,
        None => true,
    }
}

/// The chip, if it isn't done with and is before the next one so far; else that one.
fn nearer(last: Option<u64>, next: Option<u64>, chip: u64) -> Option<u64>
    ensures { result ≡ nearer last next chip }
{
    if !is_done(last, chip) && is_before(chip, next) {
        Some(chip)
    } else {
        next
    }
}

/// The least address of the irqchips past the last one that is done with.
fn next_chip(irqchips: &[Irqchip], last: Option<u64>) -> Option<u64>
    ensures { IsNextChip irqchips.now last result }
{
    let mut next = None;
    for irqchip in irqchips {
        next = nearer(last, next, irqchip.address);
    }
    next
}

/// The numbers of the chip's pins that the irqchips give.
fn pins_on(alloc: Global, irqchips: &[Irqchip], chip: u64) -> Result<ByteSet, NoMemory>
    ensures pins { IfOk result (λ pins. (number : ℕ) → has_byte pins.ranges number ≡ is_given irqchips.now (pin_of chip number)) }
    ensures apart { IfOk result (λ pins. AreApart pins.ranges) }
{
    let mut pins = ByteSet::new(alloc);
    insert_irqchips(&mut pins, irqchips, chip)?;
    // for the proof: they are apart
    let _ = pins.ranges();
    Ok(pins)
}

/// Puts a run for each row of numbers at the end.
fn push_runs(runs: &mut Vec<PinRun>, chip: u64, rows: &[Range]) -> Result<(), NoMemory>
    requires { AreApart rows.now }
    ensures { OnOk result (runs.new.items ≡ runs.old.items ++ map (run_on chip) rows.now) }
{
    for numbers in rows {
        runs.push(PinRun {
            chip,
            first: numbers.start,
            last: numbers.end - 1,
        })?;
    }
    Ok(())
}

/// The runs of the pins that the irqchips give.
pub fn runs_of(alloc: Global, irqchips: &[Irqchip]) -> Result<Vec<PinRun>, NoMemory>
    ensures { IfOk result (λ runs. AreRuns (is_given irqchips.now) runs.items) }
{
    let mut runs = Vec::new(alloc);
    let mut last = None;
    while let Some(chip) = next_chip(irqchips, last) {
        let pins = pins_on(alloc, irqchips, chip)?;
        push_runs(&mut runs, chip, pins.ranges())?;
        last = Some(chip);
    }
    Ok(runs)
}
