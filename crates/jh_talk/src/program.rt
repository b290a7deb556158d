//! What the two CPUs do.
ghost use Rattle.std.specs.Prelude.{◌≡◌, ◌<◌, ◌+◌, ◌^◌, ◌≤◌, ◌++◌, [], ◌∷◌, OnOk, IfOk, option_copied};
ghost use Rattle.jh_history.specs.Devices.{section_at, address_of_section};
ghost use Rattle.jh_talk.specs.Functions.{function_start};
ghost use Rattle.jh_talk.specs.Programs.{output_address, state_address, side_of, setup_ops, tell_ops, hear_ops, ring_op, leader_round, follower_round, round_count, leader_start, follower_start, leader_ops, follower_ops};
ghost use Rattle.jh_talk.specs.Private.Sides.{HasRoom};

use crate::messages::Messages;
use crate::section::{output, section};
use crate::side::Side;
use jh_cellcfg::{CellConfig, PciDevice, Region, SystemConfig};
use jh_num::{NoMemory, Seq};
use jh_script::Op;
use std::alloc::Global;

/// The address where the region begins, 0 where there is none.
fn address_of(region: Option<&Region>) -> u64
    ensures { result ≡ address_of_section (option_copied region.entry) }
{
    match region {
        Some(region) => region.virt_start,
        None => 0,
    }
}

/// The side of the cell with this device, which talks to the other one and puts its windows there.
pub(crate) fn side_of(
    system: &SystemConfig,
    config: &CellConfig,
    device: &PciDevice,
    other: &PciDevice,
    window: u64,
) -> Side
    requires { function_start system.now device.now < 2 ^ 64 }
    ensures { result ≡ side_of system.now config.now device.now other.now window }
{
    Side {
        function: system.platform.pci_mmconfig_base + u64::from(device.bdf) * 4096,
        window,
        out: address_of(output(config, device, device.shmem_dev_id)),
        peer: address_of(output(config, device, other.shmem_dev_id)),
        ring: u64::from(other.shmem_dev_id) * 65536 + 1,
    }
}

/// The address of the peer's word in the state table.
pub(crate) fn state_address(config: &CellConfig, device: &PciDevice, other: &PciDevice) -> u64
    requires { state_address config.now device.now other.now < 2 ^ 64 }
    ensures { result ≡ state_address config.now device.now other.now }
{
    address_of(section(config, device, 0)) + 4 * u64::from(other.shmem_dev_id)
}

/// A write of the value over so many bytes.
fn write(width: u8, at: u64, value: u64) -> Op
    ensures { result ≡ Op.Write width at value }
{
    Op::Write { width, at, value }
}

/// The management call of that code about a cell, told by the place of its configuration or by its id.
fn management(code: u64, cell: u64) -> Op
    ensures { result ≡ Op.Hvc code cell 0 }
{
    Op::Hvc {
        code,
        a: cell,
        b: 0,
    }
}

/// The device's windows are put, it answers at them and may send interrupts, and its vector 1 is open.
fn setup_ops(side: &Side) -> [Op; 6]
    requires { HasRoom side.now }
    ensures { result ≡ setup_ops side.now }
{
    [
        write(4, side.function + 0x10, side.window),
        write(4, side.function + 0x14, side.window + 0x1000),
        write(2, side.function + 4, 0x6),
        write(2, side.function + 0x62, 0x8000),
        write(4, side.window + 0x101c, 0),
        write(4, side.window + 8, 1),
    ]
}

/// The peer is rung.
fn ring_op(side: &Side) -> Op
    requires { HasRoom side.now }
    ensures { result ≡ ring_op side.now }
{
    write(4, side.window + 0xc, side.ring)
}

/// Puts these operations behind the others.
fn push_all(ops: &mut Seq<Op>, more: &[Op]) -> Result<(), NoMemory>
    ensures { OnOk result (ops.new ≡ ops.old ++ more.now) }
{
    for op in more {
        ops.push(*op)?;
    }
    Ok(())
}

/// Writes the message over the side's own output, where there is one.
#[tactic(auto, using(crate::proofs::ProgramLemmas::behind_nothing))]
fn push_tell(ops: &mut Seq<Op>, side: &Side, message: Option<u64>) -> Result<(), NoMemory>
    ensures { OnOk result (ops.new ≡ ops.old ++ tell_ops side.now message) }
{
    match message {
        Some(message) => ops.push(write(8, side.out, message)),
        None => Ok(()),
    }
}

/// Reads the message from the peer's output, where there is one.
#[tactic(auto, using(crate::proofs::ProgramLemmas::behind_nothing))]
fn push_hear(ops: &mut Seq<Op>, side: &Side, message: Option<u64>) -> Result<(), NoMemory>
    ensures { OnOk result (ops.new ≡ ops.old ++ hear_ops side.now message) }
{
    match message {
        Some(_) => ops.push(Op::Read {
            width: 8,
            at: side.peer,
        }),
        None => Ok(()),
    }
}

/// One round of the leader: it tells and rings, waits to be rung, and hears.
fn push_leader_round(
    ops: &mut Seq<Op>,
    side: &Side,
    messages: &Messages,
    i: usize,
) -> Result<(), NoMemory>
    requires { HasRoom side.now }
    ensures { OnOk result (ops.new ≡ ops.old ++ leader_round side.now messages.now i) }
{
    push_tell(ops, side, messages.sends.get(i).copied())?;
    push_all(ops, &[ring_op(side), Op::Irq])?;
    push_hear(ops, side, messages.replies.get(i).copied())?;
    Ok(())
}

/// One round of the follower: it waits to be rung, hears, tells and rings.
fn push_follower_round(
    ops: &mut Seq<Op>,
    side: &Side,
    messages: &Messages,
    i: usize,
) -> Result<(), NoMemory>
    requires { HasRoom side.now }
    ensures { OnOk result (ops.new ≡ ops.old ++ follower_round side.now messages.now i) }
{
    ops.push(Op::Irq)?;
    push_hear(ops, side, messages.sends.get(i).copied())?;
    push_tell(ops, side, messages.replies.get(i).copied())?;
    ops.push(ring_op(side))?;
    Ok(())
}

/// How many rounds there are.
fn round_count(messages: &Messages) -> usize
    ensures { result ≡ round_count messages.now }
{
    if messages.sends.len() < messages.replies.len() {
        messages.replies.len()
    } else {
        messages.sends.len()
    }
}

/// What the leader does before the rounds: it creates and starts the cell, sets up its device, and waits for the peer.
fn leader_start(
    alloc: Global,
    side: &Side,
    place: u64,
    id: u32,
    state: u64,
) -> Result<Seq<Op>, NoMemory>
    requires { HasRoom side.now }
    ensures { IfOk result (λ ops. ops ≡ leader_start side.now place id state) }
{
    let mut ops = Seq::new(alloc);
    push_all(
        &mut ops,
        &[management(1, place), management(2, u64::from(id))],
    )?;
    push_all(&mut ops, &setup_ops(side))?;
    ops.push(Op::Await {
        width: 4,
        at: state,
        value: 1,
    })?;
    Ok(ops)
}

/// What the follower does before the rounds: it sets up its device, and tells so by its state.
fn follower_start(alloc: Global, side: &Side) -> Result<Seq<Op>, NoMemory>
    requires { HasRoom side.now }
    ensures { IfOk result (λ ops. ops ≡ follower_start side.now) }
{
    let mut ops = Seq::new(alloc);
    push_all(&mut ops, &setup_ops(side))?;
    ops.push(write(4, side.window + 0x10, 1))?;
    Ok(ops)
}

/// All of the leader's operations.
pub(crate) fn leader_ops(
    alloc: Global,
    side: &Side,
    place: u64,
    id: u32,
    state: u64,
    messages: &Messages,
) -> Result<Seq<Op>, NoMemory>
    requires { HasRoom side.now }
    ensures { IfOk result (λ ops. ops ≡ leader_ops side.now place id state messages.now) }
{
    let mut ops = leader_start(alloc, side, place, id, state)?;
    for i in 0..round_count(messages) {
        push_leader_round(&mut ops, side, messages, i)?;
    }
    Ok(ops)
}

/// All of the follower's operations.
pub(crate) fn follower_ops(
    alloc: Global,
    side: &Side,
    messages: &Messages,
) -> Result<Seq<Op>, NoMemory>
    requires { HasRoom side.now }
    ensures { IfOk result (λ ops. ops ≡ follower_ops side.now messages.now) }
{
    let mut ops = follower_start(alloc, side)?;
    for i in 0..round_count(messages) {
        push_follower_round(&mut ops, side, messages, i)?;
    }
    Ok(ops)
}
