//! The image on which a system and a cell talk.
ghost use Rattle.std.specs.Prelude.{◌≡◌, ◌≤◌, ◌∷◌, [], length, IfOk, IfErr};
ghost use Rattle.jh_cellcfg.specs.Cells.{name_of};
ghost use Rattle.jh_cellcfg.specs.Limits.{IsWithinLimits};
ghost use Rattle.jh_cellcfg.specs.Spelling.{spelling};
ghost use Rattle.jh_history.specs.Admitted.{IsAdmitted, IsAdmittedSystem};
ghost use Rattle.jh_talk.specs.Faults.{IsFault};
ghost use Rattle.jh_talk.specs.Images.{follower_program, image_of, leader_program, IsTalkImage};
ghost use Rattle.jh_talk.specs.Private.Sides.{HasAddresses};

use crate::fault::TalkFault;
use crate::messages::Messages;
use crate::program::{follower_ops, leader_ops, side_of, state_address};
use crate::talk::{Talk, find_talk};
use crate::typed::numbers_are_typed;
use jh_cellcfg::{CellConfig, SystemConfig, write_cell};
use jh_life::copy_of_system;
use jh_num::{NoMemory, Seq};
use jh_script::{Image, Op, Preload, Program};
use std::alloc::Global;

/// The program of the CPU in the cell.
fn program(alloc: Global, config: &CellConfig, cpu: u8, ops: Seq<Op>) -> Result<Program, NoMemory>
    ensures { IfOk result (λ made. made ≡ record { cell = name_of config.now; cpu = cpu; ops = ops }) }
{
    let cell = Seq::from_vec(Vec::from_slice(alloc, config.name())?);
    Ok(Program { cell, cpu, ops })
}

/// What the leader does.
fn leader_program(
    alloc: Global,
    system: &SystemConfig,
    cell: &CellConfig,
    messages: &Messages,
    talk: &Talk,
) -> Result<Program, NoMemory>
    requires { HasAddresses system.now cell.now talk.now }
    ensures { IfOk result (λ made. made ≡ leader_program system.now cell.now messages.now talk.now) }
{
    let (device, other) = (&talk.pair.device, &talk.pair.other);
    let side = side_of(system, &system.root, device, other, talk.window);
    let state = state_address(&system.root, device, other);
    let ops = leader_ops(alloc, &side, talk.place, cell.id, state, messages)?;
    program(alloc, &system.root, talk.leader, ops)
}

/// What the follower does.
fn follower_program(
    alloc: Global,
    system: &SystemConfig,
    cell: &CellConfig,
    messages: &Messages,
    talk: &Talk,
) -> Result<Program, NoMemory>
    requires { HasAddresses system.now cell.now talk.now }
    ensures { IfOk result (λ made. made ≡ follower_program system.now cell.now messages.now talk.now) }
{
    let (device, other) = (&talk.pair.other, &talk.pair.device);
    let side = side_of(system, cell, device, other, talk.other_window);
    let ops = follower_ops(alloc, &side, messages)?;
    program(alloc, cell, talk.follower, ops)
}

/// What both do.
fn programs(
    alloc: Global,
    system: &SystemConfig,
    cell: &CellConfig,
    messages: &Messages,
    talk: &Talk,
) -> Result<Seq<Program>, NoMemory>
    requires { HasAddresses system.now cell.now talk.now }
    ensures { IfOk result (λ programs. programs ≡ leader_program system.now cell.now messages.now talk.now ∷ follower_program system.now cell.now messages.now talk.now ∷ []) }
{
    let mut programs = Seq::new(alloc);
    programs.push(leader_program(alloc, system, cell, messages, talk)?)?;
    programs.push(follower_program(alloc, system, cell, messages, talk)?)?;
    Ok(programs)
}

/// The cell's configuration, which these bytes spell, at its place.
fn preloads(alloc: Global, bytes: Vec<u8>, place: u64) -> Result<Seq<Preload>, NoMemory>
    ensures { IfOk result (λ preloads. preloads ≡ record { at = place; bytes = bytes.items } ∷ []) }
{
    let bytes = Seq::from_vec(bytes);
    let mut preloads = Seq::new(alloc);
    preloads.push(Preload { at: place, bytes })?;
    Ok(preloads)
}

/// The image by which they talk, where these bytes spell the cell's configuration.
fn image_of(
    alloc: Global,
    system: &SystemConfig,
    cell: &CellConfig,
    messages: &Messages,
    talk: &Talk,
    bytes: Vec<u8>,
) -> Result<Image, NoMemory>
    requires addresses { HasAddresses system.now cell.now talk.now }
    requires bytes { bytes.items ≡ spelling cell.now }
    ensures { IfOk result (λ image. image ≡ image_of system.now cell.now messages.now talk.now) }
{
    let programs = programs(alloc, system, cell, messages, talk)?;
    let preloads = preloads(alloc, bytes, talk.place)?;
    let system = copy_of_system(alloc, system)?;
    Ok(Image {
        system,
        preloads,
        programs,
    })
}

/// The image on which root and a cell tell each other the messages over the first ivshmem link that they have: root's
/// CPU creates and starts the cell, whose configuration is preloaded, and then it leads and the cell's CPU follows.
///
/// # Errors
///
/// The first fault that speaks against it, or want of memory.
pub fn talk_image(
    alloc: Global,
    system: &SystemConfig,
    cell: &CellConfig,
    messages: &Messages,
) -> Result<Image, TalkFault>
    requires system { IsAdmittedSystem system.now }
    requires cell { IsWithinLimits cell.now }
    requires few_sends { length messages.now.sends ≤ 1000 }
    requires few_replies { length messages.now.replies ≤ 1000 }
    ensures image { IfOk result (IsTalkImage system.now cell.now messages.now) }
    ensures admitted { IfOk result IsAdmitted }
    ensures fault { IfErr result (IsFault system.now cell.now) }
{
    numbers_are_typed(messages.sends.as_slice());
    numbers_are_typed(messages.replies.as_slice());
    let bytes = write_cell(alloc, cell)?;
    let talk = find_talk(alloc, system, cell, bytes.len() as u64)?;
    let image = image_of(alloc, system, cell, messages, &talk, bytes)?;
    Ok(image)
}
