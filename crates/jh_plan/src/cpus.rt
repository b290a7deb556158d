//! The greatest CPUs that are spare.
ghost use Rattle.std.specs.Prelude.{◌≡◌, ◌≢◌, ◌<◌, ◌/◌, ◌^◌, ◌||◌, ◌==◌, ℕ, true, length, All, MatchOption};
ghost use Rattle.std.specs.List.{list_any};
ghost use Rattle.jh_num.specs.Below.{any_below};
ghost use Rattle.jh_num.specs.Bits.{has_bit};
ghost use Rattle.jh_cellcfg.specs.Cells.{is_cpu_set};
ghost use Rattle.jh_plan.specs.Cpus.{cpus_with, is_spare, AreGreatestCpus};

use jh_cellcfg::CellConfig;

/// How many bytes a cell's CPU set has.
const SET_BYTES: usize = 8;

/// Whether the cell has a CPU of a lower number.
fn has_lower(cell: &CellConfig, cpu: u8) -> bool
    ensures { result ≡ any_below (is_cpu_set cell.now.cpu_set) cpu }
{
    for lower in 0..cpu {
        if cell.has_cpu(lower) {
            return true;
        }
    }
    false
}

/// Whether one of the cells has the CPU.
fn any_has(cells: &[CellConfig], cpu: u8) -> bool
    ensures { result ≡ list_any (λ cell. is_cpu_set cell.cpu_set cpu) cells.now }
{
    cells.iter().any(|cell| cell.has_cpu(cpu))
}

/// Whether the CPU is root's, but not root's lowest, and no earlier cell has it.
fn is_spare(root: &CellConfig, earlier: &[CellConfig], cpu: u8) -> bool
    ensures { result ≡ is_spare root.now earlier.now cpu }
{
    root.has_cpu(cpu) && has_lower(root, cpu) && !any_has(earlier, cpu)
}

/// The byte with the bit set too.
fn with_bit(byte: u8, bit: u8) -> u8
    requires { bit < 8 }
    ensures here { has_bit result bit ≡ true }
    ensures others { (k : ℕ) → k ≢ bit → has_bit result k ≡ has_bit byte k }
{
    byte | 1 << bit
}

/// Puts the CPU into the set.
fn put_cpu(set: &mut [u8], cpu: u8)
    requires { cpu / 8 < length set.old }
    ensures names { (k : ℕ) → is_cpu_set set.new k ≡ (is_cpu_set set.old k || k == cpu) }
    ensures each { All (λ byte. byte < 2 ^ 8) set.old → All (λ byte. byte < 2 ^ 8) set.new }
{
    let byte = usize::from(cpu / 8);
    set[byte] = with_bit(set[byte], cpu % 8);
}

/// The set of the greatest spare CPUs, so many of them; `None` where fewer are spare.
pub(crate) fn greatest_cpus(
    root: &CellConfig,
    earlier: &[CellConfig],
    count: u8,
) -> Option<[u8; SET_BYTES]>
    ensures { MatchOption result (cpus_with (is_spare root.now earlier.now) < count) (AreGreatestCpus root.now earlier.now count) }
{
    let mut set = [0; SET_BYTES];
    let mut left = count;
    let mut cpu = 16;
    while cpu > 0 {
        cpu -= 1;
        if left > 0 && is_spare(root, earlier, cpu) {
            put_cpu(&mut set, cpu);
            left -= 1;
        }
    }
    if left == 0 { Some(set) } else { None }
}
