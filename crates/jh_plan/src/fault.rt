//! Why a text has no demands, and why demands are not met.
ghost use Rattle.std.specs.Prelude.{◌≡◌};
ghost use Rattle.jh_plan.specs.declared.fault.DemandsFault.TheVariants.{NoMemory as NoMemoryForDemands};
ghost use Rattle.jh_plan.specs.declared.fault.PlanFault.TheVariants.{NoMemory as NoMemoryForPlan};

use jh_num::NoMemory;
use std::fmt;

/// The first fault of a text of demands, or want of memory. Lines count from 1; from line 2^32 - 1 on the number
/// stays.
#[derive(Clone, Copy, PartialEq, Eq, Debug)]
pub enum DemandsFault {
    /// The line is no demand, no comment and not blank, or has a byte above 0x7f.
    Line { number: u32 },
    /// There is a line of a demand behind the last that a text may have.
    TooMany,
    NoMemory,
}

/// Why a demand isn't met after those before it: the first of these that holds.
#[derive(Clone, Copy, PartialEq, Eq, Debug)]
pub enum Why {
    /// Root or an earlier cell has its name or its id.
    Taken,
    /// Fewer CPUs are spare: of root's those but the lowest that no earlier cell has.
    Cpus,
    /// No place is free for its memory, or its communication region would end past the addresses.
    Place,
    /// The hypervisor's memory has fewer pages than root, the earlier cells and this one take.
    Pages,
}

/// The first demand that isn't met, from 1, and why; or want of memory.
#[derive(Clone, Copy, PartialEq, Eq, Debug)]
pub enum PlanFault {
    Demand { number: u32, why: Why },
    NoMemory,
}

impl From<NoMemory> for PlanFault {
    ghost from_gives = { λ _ fault. fault ≡ NoMemoryForPlan };

    fn from(_: NoMemory) -> PlanFault {
        PlanFault::NoMemory
    }
}

impl fmt::Display for Why {
    ghost use Rattle.std.specs.Prelude.{Some};
    ghost use Rattle.jh_plan.specs.FaultText.{why_text};

    ghost output = { λ why. Some (why_text why) };

    fn fmt<W: fmt::Write>(&self, f: &mut fmt::Formatter<W>) -> fmt::Result {
        f.write_str(match self {
            Why::Taken => "taken",
            Why::Cpus => "cpus",
            Why::Place => "place",
            Why::Pages => "pages",
        })
    }
}

impl fmt::Display for PlanFault {
    ghost use Rattle.std.specs.Prelude.{Some};
    ghost use Rattle.jh_plan.specs.FaultText.{plan_fault_text};

    ghost output = { λ fault. Some (plan_fault_text fault) };

    fn fmt<W: fmt::Write>(&self, f: &mut fmt::Formatter<W>) -> fmt::Result {
        match self {
            PlanFault::Demand { number, why } => write!(f, "demand {number} {why}"),
            PlanFault::NoMemory => f.write_str("want of memory"),
        }
    }
}

impl From<NoMemory> for DemandsFault {
    ghost from_gives = { λ _ fault. fault ≡ NoMemoryForDemands };

    fn from(_: NoMemory) -> DemandsFault {
        DemandsFault::NoMemory
    }
}

impl fmt::Display for DemandsFault {
    ghost use Rattle.std.specs.Prelude.{Some};
    ghost use Rattle.jh_plan.specs.FaultText.{demands_fault_text};

    ghost output = { λ fault. Some (demands_fault_text fault) };

    fn fmt<W: fmt::Write>(&self, f: &mut fmt::Formatter<W>) -> fmt::Result {
        match self {
            DemandsFault::Line { number } => write!(f, "line {number}: syntax"),
            DemandsFault::TooMany => f.write_str("demands too many"),
            DemandsFault::NoMemory => f.write_str("want of memory"),
        }
    }
}
