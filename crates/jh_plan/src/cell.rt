//! The cell that meets a demand beside earlier ones.
ghost use Rattle.std.specs.Prelude.{◌≡◌, ◌≤◌, [], ◌∷◌, All, IfOk, length, MatchResult};
ghost use Rattle.std.specs.List.{list_any};
ghost use Rattle.jh_plan.specs.Demands.{IsDemand};
ghost use Rattle.jh_plan.specs.Fits.{cell_of, comm_region, comm_start, has_taken, is_taken, memory_region, padded, HasCommRoom};
ghost use Rattle.jh_plan.specs.Private.Searches.{EndsWithin};
ghost use Rattle.jh_plan.specs.Private.Seats.{IsSeat, IsUnseated};

use crate::cpus::greatest_cpus;
use crate::demand::Demand;
use crate::fault::Why;
use crate::place::{LARGE, highest_place};
use jh_cellcfg::{CellConfig, Region};
use jh_num::{ADDRESS_END, NoMemory, PAGE_SIZE, Seq};
use std::alloc::Global;

/// READ, WRITE and EXECUTE.
const MEMORY: u64 = 0x7;

/// READ, WRITE, EXECUTE and LOADABLE.
const LOADABLE_MEMORY: u64 = 0x47;

/// READ, WRITE and COMM_REGION.
const COMM: u64 = 0x23;

/// What a cell is given: its CPU set, and the place of its memory.
#[derive(Clone, Copy, PartialEq, Eq, Debug)]
pub(crate) struct Seat {
    pub cpu_set: [u8; 8],
    pub place: u64,
}

/// Whether the cell has the id or the name that is wanted.
fn has_taken(demand: &Demand, cell: &CellConfig) -> bool
    ensures { result ≡ has_taken demand.now cell.now }
{
    cell.id == demand.id || cell.name() == demand.name.as_slice()
}

/// Whether an earlier cell has the id or the name that is wanted.
fn any_taken(earlier: &[CellConfig], demand: &Demand) -> bool
    ensures { result ≡ list_any (has_taken demand.now) earlier.now }
{
    earlier.iter().any(|cell| has_taken(demand, cell))
}

/// Whether root or an earlier cell has the id or the name that is wanted.
fn is_taken(root: &CellConfig, earlier: &[CellConfig], demand: &Demand) -> bool
    ensures { result ≡ is_taken root.now earlier.now demand.now }
{
    has_taken(demand, root) || any_taken(earlier, demand)
}

/// Where the communication region begins: at the first multiple of 2 MiB behind the memory.
fn comm_start(size: u64) -> u64
    requires { size ≤ ADDRESS_END }
    ensures { result ≡ comm_start size }
{
    (size + (LARGE - 1)) / LARGE * LARGE
}

/// What a cell is given that meets the demand after the earlier ones, or why there is none.
pub(crate) fn find_seat(
    root: &CellConfig,
    earlier: &[CellConfig],
    demand: &Demand,
) -> Result<Seat, Why>
    requires demand { IsDemand demand.now }
    requires within { All EndsWithin root.now.memory_regions }
    ensures { MatchResult result (IsSeat root.now earlier.now demand.now) (IsUnseated root.now earlier.now demand.now) }
{
    if is_taken(root, earlier, demand) {
        return Err(Why::Taken);
    }
    let Some(cpu_set) = greatest_cpus(root, earlier, demand.cpus) else {
        return Err(Why::Cpus);
    };
    let Some(place) = highest_place(root, earlier, demand.size) else {
        return Err(Why::Place);
    };
    if comm_start(demand.size) + PAGE_SIZE > ADDRESS_END {
        return Err(Why::Place);
    }
    Ok(Seat { cpu_set, place })
}

/// The name with zero bytes behind it.
fn padded(name: &[u8]) -> [u8; 32]
    requires { length name.now ≤ 31 }
    ensures { result ≡ padded name.now }
{
    let mut bytes = [0; 32];
    bytes[..name.len()].copy_from_slice(name);
    bytes
}

/// The memory of a cell, and its communication region.
fn regions_of(demand: &Demand, place: u64) -> [Region; 2]
    requires { HasCommRoom demand.now }
    ensures { result ≡ memory_region demand.now place ∷ comm_region demand.now ∷ [] }
{
    let flags = if demand.loadable {
        LOADABLE_MEMORY
    } else {
        MEMORY
    };
    let memory = Region {
        phys_start: place,
        virt_start: 0,
        size: demand.size,
        flags,
    };
    let comm = Region {
        phys_start: 0,
        virt_start: comm_start(demand.size),
        size: PAGE_SIZE,
        flags: COMM,
    };
    [memory, comm]
}

/// The cell of the demand with what it is given.
pub(crate) fn cell_of(alloc: Global, demand: &Demand, seat: &Seat) -> Result<CellConfig, NoMemory>
    requires demand { IsDemand demand.now }
    requires room { HasCommRoom demand.now }
    ensures { IfOk result (λ cell. cell ≡ cell_of demand.now seat.now.cpu_set seat.now.place) }
{
    let set = Vec::from_slice(alloc, &seat.cpu_set)?;
    let regions = Vec::from_slice(alloc, &regions_of(demand, seat.place))?;
    let mut cell = CellConfig::empty(alloc, demand.id);
    cell.name = padded(demand.name.as_slice());
    cell.cpu_set = Seq::from_vec(set);
    cell.memory_regions = Seq::from_vec(regions);
    Ok(cell)
}
