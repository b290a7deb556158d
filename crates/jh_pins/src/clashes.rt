//! Pins that two cells both name.
ghost use Rattle.std.specs.Prelude.{◌≡◌, ◌++◌, List, map, IfOk, OnOk};
ghost use Rattle.jh_pins.specs.declared.pin.Clash.{Clash as TheClash};
ghost use Rattle.jh_pins.specs.Clashes.{clash_of, AreClashesOf, AreClashesWith};

use crate::claim::Claim;
use crate::pieces::common;
use crate::pin::{Clash, PinRun};
use jh_num::NoMemory;
use std::alloc::Global;

/// Puts a clash of the two cells at the end for each run.
fn push_each(
    clashes: &mut Vec<Clash>,
    one: &Claim,
    other: &Claim,
    runs: &[PinRun],
) -> Result<(), NoMemory>
    ensures { OnOk result (clashes.new.items ≡ clashes.old.items ++ map (clash_of one.now other.now) runs.now) }
{
    for run in runs {
        clashes.push(Clash {
            first: one.id(),
            second: other.id(),
            run: *run,
        })?;
    }
    Ok(())
}

/// Puts the clashes of the two cells at the end.
fn push_clashes_of(
    alloc: Global,
    clashes: &mut Vec<Clash>,
    one: &Claim,
    other: &Claim,
) -> Result<(), NoMemory>
    ensures { OnOk result ((more : List TheClash) × AreClashesOf one.now other.now more × (clashes.new.items ≡ clashes.old.items ++ more)) }
{
    let runs = common(alloc, one.runs(), other.runs())?;
    push_each(clashes, one, other, runs.as_slice())?;
    Ok(())
}

/// Puts the clashes of the cell with each of the others at the end.
pub fn push_clashes_with(
    alloc: Global,
    clashes: &mut Vec<Clash>,
    one: &Claim,
    others: &[Claim],
) -> Result<(), NoMemory>
    ensures { OnOk result ((more : List TheClash) × AreClashesWith one.now others.now more × (clashes.new.items ≡ clashes.old.items ++ more)) }
{
    for other in others {
        push_clashes_of(alloc, clashes, one, other)?;
    }
    Ok(())
}
