//! The rules by number.
ghost use Rattle.std.specs.Prelude.{◌≡◌, ◌<◌, length, slice_index_or};
ghost use Rattle.jh_check.specs.Findings.{rules_in_order};
ghost use Rattle.jh_check.specs.declared.rule.Rule.TheVariants.{VirtOverlap};

/// The rules of the check. Each speaks of one or two regions, of one device, or of a cell's CPUs.
#[derive(Clone, Copy, PartialEq, Eq, Debug)]
pub enum Rule {
    /// Two regions of a cell have an address in common.
    VirtOverlap,
    /// Two regions of a cell, neither a communication region, have a place in common.
    PhysOverlap,
    /// A region that is no communication region has a place of the hypervisor's memory.
    Hypervisor,
    /// A region ends past the last address or place; the hypervisor's memory does, is empty, or is above 64 MiB.
    OutOfRange,
    /// A region of root isn't mapped to itself.
    RootNotIdentity,
    /// Root has a communication region.
    CommInRoot,
    /// A communication region of a cell besides root isn't one page at a multiple of 4,096, or isn't the first there.
    CommShape,
    /// A region may be executed and not read.
    ExecuteWithoutRead,
    /// An unshared subpage region of a cell besides root has a place of a page-mapped region of root.
    SubpageTaken,
    /// Two cells besides root have a place in common, not both ROOTSHARED and not in the same section of linked
    /// devices.
    CellsOverlap,
    /// An ivshmem device breaks a rule of its own.
    Shmem,
    /// A cell has no CPU, or one above 15.
    NoCpu,
    /// A page-mapped region's places don't begin at a multiple of 4,096, or the hypervisor's memory isn't whole pages.
    PhysAlign,
}

/// The rules in the order of their numbers, from 1 on.
pub(crate) const RULES: [Rule; 13] = [
    Rule::VirtOverlap,
    Rule::PhysOverlap,
    Rule::Hypervisor,
    Rule::OutOfRange,
    Rule::RootNotIdentity,
    Rule::CommInRoot,
    Rule::CommShape,
    Rule::ExecuteWithoutRead,
    Rule::SubpageTaken,
    Rule::CellsOverlap,
    Rule::Shmem,
    Rule::NoCpu,
    Rule::PhysAlign,
];

/// The rule of that index in the order.
pub(crate) fn rule_at(index: usize) -> Rule
    requires { index < length rules_in_order }
    ensures { result ≡ slice_index_or rules_in_order index VirtOverlap }
{
    RULES[index]
}

impl Rule {
    ghost use Rattle.jh_check.specs.Findings.{rule_number};

    /// The rule's number, from 1 to 13.
    pub(crate) fn number(&self) -> u8
        ensures { result ≡ rule_number self.now }
    {
        match self {
            Rule::VirtOverlap => 1,
            Rule::PhysOverlap => 2,
            Rule::Hypervisor => 3,
            Rule::OutOfRange => 4,
            Rule::RootNotIdentity => 5,
            Rule::CommInRoot => 6,
            Rule::CommShape => 7,
            Rule::ExecuteWithoutRead => 8,
            Rule::SubpageTaken => 9,
            Rule::CellsOverlap => 10,
            Rule::Shmem => 11,
            Rule::NoCpu => 12,
            Rule::PhysAlign => 13,
        }
    }
}
