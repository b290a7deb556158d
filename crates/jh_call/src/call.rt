//! What a guest asks for.
ghost use Rattle.std.specs.Prelude.{◌≡◌};
ghost use Rattle.jh_call.specs.Calls.{decoded, is_power};

/// The codes of Arm's power interface (PSCI) that a board knows.
pub const CPU_OFF: u64 = 0x8400_0002;

pub const CPU_ON: u64 = 0xc400_0003;

pub const AFFINITY_INFO: u64 = 0xc400_0004;

/// A hypercall, by the codes of Jailhouse's `hypercall.h` and of Arm's power interface. Ids, CPU numbers, kinds
/// and levels are what the guest wrote, and may name nothing.
#[derive(Clone, Copy, PartialEq, Eq, Debug)]
pub enum Call {
    /// Create a cell by the configuration at that address of root.
    Create { at: u64 },
    /// Start the cell with the id.
    Start { id: u64 },
    /// Give root what is loadable of the cell's memory, so that it can load it.
    Loadable { id: u64 },
    /// Destroy the cell with the id.
    Destroy { id: u64 },
    /// Tell a number about the hypervisor.
    Info { kind: u64 },
    /// Tell the state of the cell with the id.
    State { id: u64 },
    /// Tell a number about a CPU.
    CpuInfo { cpu: u64, kind: u64 },
    /// Switch the CPU off that makes the call.
    CpuOff,
    /// Switch another CPU of the caller's cell on.
    CpuOn { cpu: u64 },
    /// Tell whether a CPU of the caller's cell is on.
    Affinity { cpu: u64, level: u64 },
    /// There is no such call.
    Unknown,
}

/// The call of the code with its two words. Codes 1 to 7 are those of Jailhouse's `hypercall.h`, three more are of
/// Arm's power interface, and any other is unknown.
pub fn decode(code: u64, a: u64, b: u64) -> Call
    ensures { result ≡ decoded code a b }
{
    match code {
        1 => Call::Create { at: a },
        2 => Call::Start { id: a },
        3 => Call::Loadable { id: a },
        4 => Call::Destroy { id: a },
        5 => Call::Info { kind: a },
        6 => Call::State { id: a },
        7 => Call::CpuInfo { cpu: a, kind: b },
        CPU_OFF => Call::CpuOff,
        CPU_ON => Call::CpuOn { cpu: a },
        AFFINITY_INFO => Call::Affinity { cpu: a, level: b },
        _ => Call::Unknown,
    }
}

/// Whether the call is one of the power interface.
pub fn is_power(call: &Call) -> bool
    ensures { result ≡ is_power call.now }
{
    matches!(
        *call,
        Call::CpuOff | Call::CpuOn { .. } | Call::Affinity { .. }
    )
}
