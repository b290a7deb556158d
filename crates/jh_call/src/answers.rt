//! What is answered at once.
ghost use Rattle.std.specs.Prelude.{◌≡◌, ◌≢◌, true, false};
ghost use Rattle.jh_call.specs.Calls.{is_management};
ghost use Rattle.jh_call.specs.Answers.{answer_of, info_of, state_answer, cpu_answer, on_answer, affinity_answer};

use crate::call::Call;
use crate::seen::{CpuSeen, PowerSeen, Seen};
use jh_num::error::{EINVAL, ENOENT, ENOSYS, EPERM};

// The kinds of information about the hypervisor.
const POOL_SIZE: u64 = 0;

const POOL_USED: u64 = 1;

const CELL_COUNT: u64 = 4;

/// The highest number of a state.
const LAST_STATE: u32 = 4;

// The numbers that tell what a CPU is at.
const CPU_RUNNING: i64 = 0;

const CPU_FAILED: i64 = 2;

// The answers of Arm's power interface.
/// The call is done.
pub const SUCCESS: i64 = 0;

/// The call names no CPU of its caller's cell, or a level that there isn't.
pub const INVALID_PARAMETERS: i64 = -2;

/// The CPU has failed, so it can't be switched on.
pub const DENIED: i64 = -3;

/// The CPU runs already.
pub const ALREADY_ON: i64 = -4;

/// The CPU is on.
pub const AFFINITY_ON: i64 = 0;

/// The CPU is off.
pub const AFFINITY_OFF: i64 = 1;

/// A number about the hypervisor.
fn info(kind: u64, seen: &Seen) -> i64
    ensures { result ≡ info_of kind seen.now }
{
    match kind {
        POOL_SIZE => i64::from(seen.size),
        POOL_USED => i64::from(seen.used),
        CELL_COUNT => i64::from(seen.cells),
        _ => EINVAL,
    }
}

/// The state of a live cell, if its word is one of a state; else the error.
fn state_answer(state: Option<u32>) -> i64
    ensures { result ≡ state_answer state }
{
    match state {
        None => ENOENT,
        Some(state) if state <= LAST_STATE => i64::from(state),
        Some(_) => EINVAL,
    }
}

/// What a CPU is at. Kind 0 is all that there is to know of one.
fn cpu_answer(kind: u64, cpu: CpuSeen) -> i64
    ensures { result ≡ cpu_answer kind cpu }
{
    match cpu {
        CpuSeen::Absent => EINVAL,
        CpuSeen::Foreign => EPERM,
        CpuSeen::Fine if kind == 0 => CPU_RUNNING,
        CpuSeen::Failed if kind == 0 => CPU_FAILED,
        CpuSeen::Fine | CpuSeen::Failed => EINVAL,
    }
}

/// Whether a CPU can be switched on.
fn on_answer(power: PowerSeen) -> i64
    ensures { result ≡ on_answer power }
{
    match power {
        PowerSeen::Foreign => INVALID_PARAMETERS,
        PowerSeen::On => ALREADY_ON,
        PowerSeen::Off => SUCCESS,
        PowerSeen::Failed => DENIED,
    }
}

/// Whether a CPU is on. A level other than 0 would be one of several CPUs, of which there are none.
fn affinity_answer(level: u64, power: PowerSeen) -> i64
    ensures { result ≡ affinity_answer level power }
{
    match power {
        PowerSeen::Foreign => INVALID_PARAMETERS,
        _ if level != 0 => INVALID_PARAMETERS,
        PowerSeen::On => AFFINITY_ON,
        PowerSeen::Off | PowerSeen::Failed => AFFINITY_OFF,
    }
}

/// What the call is answered, where it is answered at once: a number, or an error below 0.
pub fn answer(c: &Call, seen: &Seen) -> i64
    requires immediate { is_management c.now ≡ true → seen.now.root ≡ false }
    requires known { seen.now.root ≡ true → seen.now.cpu ≢ CpuSeen.Foreign }
    ensures { result ≡ answer_of c.now seen.now }
{
    match *c {
        Call::Create { .. } | Call::Start { .. } | Call::Loadable { .. } | Call::Destroy { .. } =>
            EPERM,
        Call::Info { kind } => info(kind, seen),
        Call::State { .. } if !seen.root => EPERM,
        Call::State { .. } => state_answer(seen.state),
        Call::CpuInfo { kind, .. } => cpu_answer(kind, seen.cpu),
        Call::CpuOff | Call::CpuOn { .. } | Call::Affinity { .. } if seen.root => ENOSYS,
        Call::CpuOff => SUCCESS,
        Call::CpuOn { .. } => on_answer(seen.power),
        Call::Affinity { level, .. } => affinity_answer(level, seen.power),
        Call::Unknown => ENOSYS,
    }
}
