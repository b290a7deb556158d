//! The CPUs that talk.
ghost use Rattle.std.specs.Prelude.{◌≡◌, ◌↔◌, IsTrue, MatchOption};
ghost use Rattle.jh_cellcfg.specs.Cells.{is_cpu_set};
ghost use Rattle.jh_talk.specs.Cpus.{is_left, IsLowest, NamesAllCpus, NamesForeignCpu};
ghost use Rattle.jh_talk.specs.Private.Seats.{HasFewCpus, HasNoCpu, is_foreign, AreCpus, CannotBe};

use jh_cellcfg::{CellConfig, MAX_CPUS};

/// Root's CPU that leads, and the cell's that follows.
#[derive(Clone, Copy, PartialEq, Eq, Debug)]
pub(crate) struct Cpus {
    pub leader: u8,
    pub follower: u8,
}

/// How many CPUs a board has at most.
const CPUS: u8 = MAX_CPUS as u8;

/// Whether the CPU is root's, and the cell doesn't name it.
fn is_left(root: &CellConfig, cell: &CellConfig, cpu: u8) -> bool
    ensures { result ≡ is_left root.now cell.now cpu }
{
    root.has_cpu(cpu) && !cell.has_cpu(cpu)
}

/// Whether the cell names the CPU, and root lacks it.
fn is_foreign(root: &CellConfig, cell: &CellConfig, cpu: u8) -> bool
    ensures { result ≡ is_foreign root.now cell.now cpu }
{
    cell.has_cpu(cpu) && !root.has_cpu(cpu)
}

/// Whether the cell names a CPU that root lacks.
fn names_foreign(root: &CellConfig, cell: &CellConfig) -> bool
    requires { HasFewCpus cell.now }
    ensures { IsTrue result ↔ NamesForeignCpu root.now cell.now }
{
    for cpu in 0..CPUS {
        if is_foreign(root, cell, cpu) {
            return true;
        }
    }
    false
}

/// The lowest CPU of root that the cell doesn't name.
fn leader_of(root: &CellConfig, cell: &CellConfig) -> Option<u8>
    requires { HasFewCpus root.now }
    ensures { MatchOption result (NamesAllCpus root.now cell.now) (IsLowest (is_left root.now cell.now)) }
{
    for cpu in 0..CPUS {
        if is_left(root, cell, cpu) {
            return Some(cpu);
        }
    }
    None
}

/// The cell's lowest CPU.
fn follower_of(cell: &CellConfig) -> Option<u8>
    requires { HasFewCpus cell.now }
    ensures { MatchOption result (HasNoCpu cell.now) (IsLowest (is_cpu_set cell.now.cpu_set)) }
{
    for cpu in 0..CPUS {
        if cell.has_cpu(cpu) {
            return Some(cpu);
        }
    }
    None
}

/// The CPUs that talk: root's lowest that the cell leaves it, and the cell's lowest. None where the cell names one that
/// root lacks, or all of root's.
pub(crate) fn find_cpus(root: &CellConfig, cell: &CellConfig) -> Option<Cpus>
    requires root { HasFewCpus root.now }
    requires cell { HasFewCpus cell.now }
    requires some { HasNoCpu cell.now → ⊥ }
    ensures { MatchOption result (CannotBe root.now cell.now) (AreCpus root.now cell.now) }
{
    if names_foreign(root, cell) {
        return None;
    }
    let leader = leader_of(root, cell)?;
    let follower = follower_of(cell)?;
    Some(Cpus { leader, follower })
}
