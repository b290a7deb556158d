//! All findings in order.
ghost use Rattle.std.specs.Prelude.{◌≡◌, ◌≤◌, ◌++◌, length, OnOk, IfOk};
ghost use Rattle.jh_check.specs.Private.Cells.{cells_of};
ghost use Rattle.jh_check.specs.Lists.{capped, found_from};
ghost use Rattle.jh_check.specs.Private.Sound.{AreSoundEach};
ghost use Rattle.jh_check.specs.Findings.{in_regions, in_hypervisor, found_by, found_at, rules_in_order, findings};

use crate::finding::Finding;
use crate::pairing::in_pairs;
use crate::rule::{RULES, Rule, rule_at};
use crate::search::{in_cpus, in_devices, in_hypervisor, in_regions, sound_cells};
use crate::setup::Setup;
use jh_cellcfg::{CellConfig, SystemConfig};
use jh_num::{NoMemory, Seq};
use std::alloc::Global;

/// How many findings are told; those after them aren't.
pub const MAX_FINDINGS: usize = 1000;

/// What is found by a rule that the hypervisor's memory may break too.
fn also_in_hypervisor(
    found: &mut Seq<Finding>,
    rule: Rule,
    setup: &Setup,
    sound: &[bool],
) -> Result<(), NoMemory>
    requires count { length setup.now.cells.now ≤ 15 }
    requires known { length sound.now ≡ length (cells_of setup.now) }
    requires sound { AreSoundEach setup.now.hypervisor.now (cells_of setup.now) sound.now }
    ensures { OnOk result (capped found.new ≡ capped (found.old ++ (in_regions rule setup.now.hypervisor.now (cells_of setup.now) ++ in_hypervisor rule setup.now.hypervisor.now))) }
{
    in_regions(found, rule, setup, sound)?;
    in_hypervisor(found, rule, setup)?;
    Ok(())
}

/// What is found by the rule, where of each cell it is known whether its regions break none about one.
#[tactic(auto, unfolding(crate::specs::Findings::found_by))]
fn found_by(
    alloc: Global,
    found: &mut Seq<Finding>,
    rule: Rule,
    setup: &Setup,
    sound: &[bool],
) -> Result<(), NoMemory>
    requires count { length setup.now.cells.now ≤ 15 }
    requires known { length sound.now ≡ length (cells_of setup.now) }
    requires sound { AreSoundEach setup.now.hypervisor.now (cells_of setup.now) sound.now }
    ensures { OnOk result (capped found.new ≡ capped (found.old ++ found_by rule setup.now.hypervisor.now (cells_of setup.now))) }
{
    match rule {
        Rule::VirtOverlap | Rule::PhysOverlap | Rule::SubpageTaken | Rule::CellsOverlap => {
            in_pairs(alloc, found, rule, setup)
        }
        Rule::Shmem => in_devices(alloc, found, setup),
        Rule::NoCpu => in_cpus(found, setup),
        Rule::OutOfRange | Rule::PhysAlign => also_in_hypervisor(found, rule, setup, sound),
        _ => in_regions(found, rule, setup, sound),
    }
}

/// What is found by each rule in turn.
fn found_in(alloc: Global, setup: &Setup) -> Result<Seq<Finding>, NoMemory>
    requires { length setup.now.cells.now ≤ 15 }
    ensures { IfOk result (λ found. capped found ≡ capped (found_from (found_at setup.now.hypervisor.now (cells_of setup.now)) 0 rules_in_order)) }
{
    let mut found = Seq::new(alloc);
    let sound = sound_cells(alloc, setup)?;
    for i in 0..RULES.len() {
        found_by(alloc, &mut found, rule_at(i), setup, sound.as_slice())?;
    }
    Ok(found)
}

/// The findings of the system and the cells besides root, in order of their numbers, then the cells, then
/// the regions: the first [`MAX_FINDINGS`] of them.
pub fn check(
    alloc: Global,
    system: &SystemConfig,
    cells: &[CellConfig],
) -> Result<Seq<Finding>, NoMemory>
    requires { length cells.now ≤ 15 }
    ensures { IfOk result (λ found. found ≡ capped (findings system.now cells.now)) }
{
    let setup = Setup {
        hypervisor: &system.platform.hypervisor_memory,
        root: &system.root,
        cells,
    };
    let found = found_in(alloc, &setup)?;
    let mut first = found.into_vec();
    // for the proof: `push` lets in no more than these
    first.truncate(MAX_FINDINGS);
    Ok(Seq::from_vec(first))
}
