//! The board of `soak`.
ghost use Rattle.std.specs.Prelude.{◌≡◌, ◌+◌, ◌*◌, ◌^◌, ◌<◌, ◌≤◌, ◌∷◌, [], ◌++◌, IsTrue, IfOk, OnOk};
ghost use Rattle.jh_cellcfg.specs.Limits.{is_name};
ghost use Rattle.jh_history.specs.Admitted.{IsAdmitted};
ghost use Rattle.jh_run.specs.Soak.{region, bare_cell, loadable_cell, soak_system, cell_a, cell_b, number_writes, number_reads, round_ops, rounds_ops, beside_ops, ops_a, ops_b, answer_ops, program, programs_of, preload, soak_image};

use jh_cellcfg::{CellConfig, Region, SystemConfig, write_cell};
use jh_num::{NoMemory, Seq};
use jh_script::{Image, Op, Preload, Program};
use std::alloc::Global;

/// How many rounds there may be.
pub const MAX_ROUNDS: u32 = 400;

/// Where the configurations of the cells are preloaded.
const PLACE_A: u64 = 0x4800_0000;

const PLACE_B: u64 = 0x4801_0000;

/// The cells' names, with zero bytes behind them.
const NAME: [u8; 32] = *b"soak\0\0\0\0\0\0\0\0\0\0\0\0\0\0\0\0\0\0\0\0\0\0\0\0\0\0\0\0";

const NAME_A: [u8; 32] = *b"a\0\0\0\0\0\0\0\0\0\0\0\0\0\0\0\0\0\0\0\0\0\0\0\0\0\0\0\0\0\0\0";

const NAME_B: [u8; 32] = *b"b\0\0\0\0\0\0\0\0\0\0\0\0\0\0\0\0\0\0\0\0\0\0\0\0\0\0\0\0\0\0\0";

/// The words of the communication page that hold the message and the reply.
const MESSAGE: u64 = 0x8000_000c;

const REPLY: u64 = 0x8000_0010;

/// The region with these fields; the flags are those of Jailhouse's cell configuration.
fn region(phys_start: u64, virt_start: u64, size: u64, flags: u64) -> Region
    ensures { result ≡ region phys_start virt_start size flags }
{
    Region {
        phys_start,
        virt_start,
        size,
        flags,
    }
}

/// A cell of that name and id, with these regions and with CPUs below 8, in which all else is 0.
fn bare_cell(
    alloc: Global,
    name: [u8; 32],
    id: u32,
    cpus: u8,
    regions: &[Region],
) -> Result<CellConfig, NoMemory>
    ensures { IfOk result (λ cell. cell ≡ bare_cell name id cpus regions.now) }
{
    Ok(CellConfig {
        name,
        cpu_set: Seq::from_vec(Vec::from_slice(alloc, &[cpus, 0, 0, 0, 0, 0, 0, 0])?),
        memory_regions: Seq::from_vec(Vec::from_slice(alloc, regions)?),
        ..CellConfig::empty(alloc, id)
    })
}

/// Root with CPUs 0 to 3 over its memory, without devices.
#[tactic(auto, unfolding(crate::specs::Soak::soak_system))]
fn soak_system(alloc: Global) -> Result<SystemConfig, NoMemory>
    ensures { IfOk result (λ system. system ≡ soak_system) }
{
    let memory = region(0x4000_0000, 0x4000_0000, 0x3fc0_0000, 0xf);
    let root = bare_cell(alloc, NAME, 0, 0xf, &[memory])?;
    Ok(SystemConfig::bare(region(0x7fc0_0000, 0, 0x40_0000, 0), root))
}

/// The preload at `at` of the configuration of a cell with a communication region and with memory at address 0, which
/// is at `place` and which root may load.
fn preloaded_cell(
    alloc: Global,
    at: u64,
    name: [u8; 32],
    id: u32,
    cpus: u8,
    place: u64,
) -> Result<Preload, NoMemory>
    requires { IsTrue (is_name name) }
    ensures { IfOk result (λ made. made ≡ preload at (loadable_cell name id cpus place)) }
{
    let memory = region(place, 0, 0x1_0000, 0x4f);
    let communication = region(0, 0x8000_0000, 0x1000, 0x23);
    let cell = bare_cell(alloc, name, id, cpus, &[memory, communication])?;
    let bytes = Seq::from_vec(write_cell(alloc, &cell)?);
    Ok(Preload { at, bytes })
}

/// Puts these operations behind the others.
fn push_all(ops: &mut Seq<Op>, more: &[Op]) -> Result<(), NoMemory>
    ensures { OnOk result (ops.new ≡ ops.old ++ more.now) }
{
    for op in more {
        ops.push(*op)?;
    }
    Ok(())
}

/// Writes of so many numbers, from the first one on, each at its own place behind the base.
fn push_writes(ops: &mut Seq<Op>, base: u64, first: u64, count: u64) -> Result<(), NoMemory>
    requires { base + 8 * (first + count) < 2 ^ 64 }
    ensures { OnOk result (ops.new ≡ ops.old ++ number_writes base first count) }
{
    for i in 0..count {
        let value = first + i;
        let at = base + 8 * value;
        ops.push(Op::Write {
            width: 8,
            at,
            value,
        })?;
    }
    Ok(())
}

/// Reads of so many places behind the base.
fn push_reads(ops: &mut Seq<Op>, base: u64, count: u64) -> Result<(), NoMemory>
    requires { base + 8 * count < 2 ^ 64 }
    ensures { OnOk result (ops.new ≡ ops.old ++ number_reads base count) }
{
    for i in 0..count {
        let at = base + 8 * i;
        ops.push(Op::Read { width: 8, at })?;
    }
    Ok(())
}

/// The management call of that code about a cell, told by its id or by the place of its configuration.
fn management(code: u64, cell: u64) -> Op
    ensures { result ≡ Op.Hvc code cell 0 }
{
    Op::Hvc {
        code,
        a: cell,
        b: 0,
    }
}

/// One round of root's first CPU: it creates both cells, loads the number into the first one, starts both,
/// destroys them, and reads what the first one wrote.
fn push_round(ops: &mut Seq<Op>, number: u64) -> Result<(), NoMemory>
    ensures { OnOk result (ops.new ≡ ops.old ++ round_ops number) }
{
    push_all(
        ops,
        &[
            management(1, PLACE_A),
            management(1, PLACE_B),
            management(3, 1),
            Op::Write {
                width: 8,
                at: 0x5000_0000,
                value: number,
            },
            management(2, 1),
            management(2, 2),
            management(4, 1),
            management(4, 2),
            Op::Read {
                width: 8,
                at: 0x5000_0008,
            },
        ],
    )
}

/// The rounds of root's first CPU.
fn rounds_ops(alloc: Global, n: u32) -> Result<Seq<Op>, NoMemory>
    requires { n ≤ 400 }
    ensures { IfOk result (λ ops. ops ≡ rounds_ops n) }
{
    let mut ops = Seq::new(alloc);
    for r in 0..n {
        push_round(&mut ops, u64::from(r) + 1)?;
    }
    Ok(ops)
}

/// What root's second CPU does beside them.
#[tactic(auto, unfolding(crate::specs::Soak::beside_ops))]
fn beside_ops(alloc: Global) -> Result<Seq<Op>, NoMemory>
    ensures { IfOk result (λ ops. ops ≡ beside_ops) }
{
    let mut ops = Seq::new(alloc);
    push_writes(&mut ops, 0x4000_0000, 0, 256)?;
    push_reads(&mut ops, 0x4000_0000, 256)?;
    Ok(ops)
}

/// The wait for a message, and the reply.
fn push_answer(ops: &mut Seq<Op>, message: u64, reply: u64) -> Result<(), NoMemory>
    ensures { OnOk result (ops.new ≡ ops.old ++ answer_ops message reply) }
{
    let heard = Op::Await {
        width: 4,
        at: MESSAGE,
        value: message,
    };
    let answered = Op::Write {
        width: 4,
        at: REPLY,
        value: reply,
    };
    push_all(ops, &[heard, answered])
}

/// The first cell reads what was loaded, writes numbers, and agrees to shut down.
#[tactic(auto, unfolding(crate::specs::Soak::ops_a))]
fn ops_a(alloc: Global) -> Result<Seq<Op>, NoMemory>
    ensures { IfOk result (λ ops. ops ≡ ops_a) }
{
    let mut ops = Seq::new(alloc);
    ops.push(Op::Read { width: 8, at: 0 })?;
    push_writes(&mut ops, 0, 1, 16)?;
    push_answer(&mut ops, 1, 3)?;
    Ok(ops)
}

/// The second cell writes numbers, hears that the first one was destroyed, and agrees to shut down.
#[tactic(auto, unfolding(crate::specs::Soak::ops_b))]
fn ops_b(alloc: Global) -> Result<Seq<Op>, NoMemory>
    ensures { IfOk result (λ ops. ops ≡ ops_b) }
{
    let mut ops = Seq::new(alloc);
    push_writes(&mut ops, 0, 1, 16)?;
    push_answer(&mut ops, 2, 4)?;
    push_answer(&mut ops, 1, 3)?;
    Ok(ops)
}

/// The program of the CPU in the cell of that name.
fn program(alloc: Global, cell: &[u8], cpu: u8, ops: Seq<Op>) -> Result<Program, NoMemory>
    ensures { IfOk result (λ made. made ≡ program cell.now cpu ops) }
{
    let cell = Seq::from_vec(Vec::from_slice(alloc, cell)?);
    Ok(Program { cell, cpu, ops })
}

/// Both cells' configurations in root's memory.
#[tactic(auto, unfolding(crate::specs::Soak::cell_a, crate::specs::Soak::cell_b))]
fn preloads(alloc: Global) -> Result<Seq<Preload>, NoMemory>
    ensures { IfOk result (λ preloads. preloads ≡ preload 0x48000000 cell_a ∷ preload 0x48010000 cell_b ∷ []) }
{
    let mut preloads = Seq::new(alloc);
    preloads.push(preloaded_cell(alloc, PLACE_A, NAME_A, 1, 0x4, 0x5000_0000)?)?;
    preloads.push(preloaded_cell(alloc, PLACE_B, NAME_B, 2, 0x8, 0x6000_0000)?)?;
    Ok(preloads)
}

/// The programs of the four CPUs.
#[tactic(auto, unfolding(crate::specs::Soak::programs_of))]
fn programs_of(alloc: Global, n: u32) -> Result<Seq<Program>, NoMemory>
    requires { n ≤ 400 }
    ensures { IfOk result (λ programs. programs ≡ programs_of n) }
{
    let mut programs = Seq::new(alloc);
    programs.push(program(alloc, b"soak", 0, rounds_ops(alloc, n)?)?)?;
    programs.push(program(alloc, b"soak", 1, beside_ops(alloc)?)?)?;
    programs.push(program(alloc, b"a", 2, ops_a(alloc)?)?)?;
    programs.push(program(alloc, b"b", 3, ops_b(alloc)?)?)?;
    Ok(programs)
}

/// The image of so many rounds, 1 to [`MAX_ROUNDS`]: in each of them root creates two cells, loads the first one, starts
/// both, destroys them and reads what the first one wrote; the cells' own CPUs read and write meanwhile. Root's second
/// CPU writes and reads numbers once, whatever the rounds.
#[tactic(auto, unfolding(crate::specs::Soak::soak_image))]
pub fn soak_image(alloc: Global, n: u32) -> Result<Image, NoMemory>
    requires { (1 ≤ n) × (n ≤ 400) }
    ensures image { IfOk result (λ image. image ≡ soak_image n) }
    ensures admitted { IfOk result IsAdmitted }
{
    Ok(Image {
        system: soak_system(alloc)?,
        preloads: preloads(alloc)?,
        programs: programs_of(alloc, n)?,
    })
}
