//! One finding, and its line.
ghost use Rattle.std.specs.Prelude.{◌≡◌};
ghost use Rattle.jh_check.specs.Texts.{rule_of};

use crate::rule::{Rule, rule_at};
use std::fmt;

/// The cell that stands for the hypervisor's memory.
pub(crate) const HYPERVISOR: u32 = 16;

/// A rule that a configuration breaks, and by what. Root is cell 0, the others follow in order, and the
/// hypervisor's memory is cell 16; `item` is the number of a region, or of a device where the rule is
/// about one. What a rule doesn't speak of is 0.
///
/// It is displayed as the line of the command `check`, without a line feed: its number, the rule's name, and
/// what breaks it, as `10 CellsOverlap 1.0 2.0`, `11 Shmem 2.d0`, `12 NoCpu 1` or `13 PhysAlign h`.
#[derive(Clone, Copy, PartialEq, Eq, Debug)]
pub struct Finding {
    /// 1 to 13.
    pub number: u8,
    pub cell: u32,
    pub item: u32,
    pub other_cell: u32,
    pub other_item: u32,
}

/// The rule of that number.
fn rule_of(number: u8) -> Option<Rule>
    ensures { result ≡ rule_of number }
{
    if number == 0 || number > 13 {
        None
    } else {
        Some(rule_at(usize::from(number) - 1))
    }
}

/// A region of a cell, or the hypervisor's memory.
#[derive(Clone, Copy)]
struct Location {
    cell: u32,
    item: u32,
}

impl fmt::Display for Location {
    ghost use Rattle.std.specs.Prelude.{Some};
    ghost use Rattle.jh_check.specs.Texts.{location_text};

    ghost output = { λ place. Some (location_text place.cell place.item) };

    fn fmt<W: fmt::Write>(&self, f: &mut fmt::Formatter<W>) -> fmt::Result {
        if self.cell == HYPERVISOR {
            f.write_str("h")
        } else {
            write!(f, "{}.{}", self.cell, self.item)
        }
    }
}

impl fmt::Display for Rule {
    ghost use Rattle.std.specs.Prelude.{Some};
    ghost use Rattle.jh_check.specs.Texts.{name_of};

    ghost output = { λ rule. Some (name_of rule) };

    fn fmt<W: fmt::Write>(&self, f: &mut fmt::Formatter<W>) -> fmt::Result {
        let name = match self {
            Rule::VirtOverlap => "VirtOverlap",
            Rule::PhysOverlap => "PhysOverlap",
            Rule::Hypervisor => "Hypervisor",
            Rule::OutOfRange => "OutOfRange",
            Rule::RootNotIdentity => "RootNotIdentity",
            Rule::CommInRoot => "CommInRoot",
            Rule::CommShape => "CommShape",
            Rule::ExecuteWithoutRead => "ExecuteWithoutRead",
            Rule::SubpageTaken => "SubpageTaken",
            Rule::CellsOverlap => "CellsOverlap",
            Rule::Shmem => "Shmem",
            Rule::NoCpu => "NoCpu",
            Rule::PhysAlign => "PhysAlign",
        };
        f.write_str(name)
    }
}

/// What breaks a rule.
#[derive(Clone, Copy)]
struct Items<'a> {
    rule: Rule,
    finding: &'a Finding,
}

impl fmt::Display for Items<'_> {
    ghost use Rattle.std.specs.Prelude.{Some};
    ghost use Rattle.jh_check.specs.Texts.{items_text};

    ghost output = { λ items. Some (items_text items.rule items.finding.now) };

    fn fmt<W: fmt::Write>(&self, f: &mut fmt::Formatter<W>) -> fmt::Result {
        let finding = self.finding;
        let one = Location {
            cell: finding.cell,
            item: finding.item,
        };
        let other = Location {
            cell: finding.other_cell,
            item: finding.other_item,
        };
        match self.rule {
            Rule::VirtOverlap | Rule::PhysOverlap | Rule::SubpageTaken | Rule::CellsOverlap => {
                write!(f, "{one} {other}")
            }
            Rule::Shmem => write!(f, "{}.d{}", finding.cell, finding.item),
            Rule::NoCpu => write!(f, "{}", finding.cell),
            _ => write!(f, "{one}"),
        }
    }
}

impl fmt::Display for Finding {
    ghost use Rattle.std.specs.Prelude.{Some};
    ghost use Rattle.jh_check.specs.Texts.{finding_text};

    ghost output = { λ finding. Some (finding_text finding) };

    fn fmt<W: fmt::Write>(&self, f: &mut fmt::Formatter<W>) -> fmt::Result {
        match rule_of(self.number) {
            Some(rule) => {
                let items = Items {
                    rule,
                    finding: self,
                };
                write!(f, "{} {rule} {items}", self.number)
            }
            None => write!(f, "{}", self.number),
        }
    }
}
