//! From a board's text to the names of its files.
ghost use Rattle.std.specs.Prelude.{◌≡◌, ◌≤◌, IfOk, true, length, map};
ghost use Rattle.serde_json.specs.View.{view};
ghost use Rattle.jh_spec.specs.Faults.{IsWantedReading};
ghost use Rattle.jh_image.specs.Boards.{listing_told, IsListingAnswer, are_distinct, named_cpu_of};

use crate::file_name::FileName;
use crate::list::{preloads, programs};
use jh_num::Seq;
use jh_spec::json::{first_unlisted, object, text_at};
use jh_spec::{JsonFault, fault_of};
use serde_json::Value;
use std::alloc::Global;

/// A file whose bytes stand in memory at opening, from the physical place `at` on.
#[derive(Drop)]
pub struct PreloadFile {
    pub file: FileName,
    pub at: u64,
}

/// A file with what a CPU does while it belongs to the cell of that name.
#[derive(Drop)]
pub struct ProgramFile {
    /// 1 to 31 characters from the space to the tilde.
    pub cell: Seq<u8>,
    /// 0 to 15.
    pub cpu: u8,
    pub file: FileName,
}

/// What a board lists: the files that it is made from.
#[derive(Drop)]
pub struct Listing {
    pub system: FileName,
    /// At most 64.
    pub preloads: Seq<PreloadFile>,
    /// At most 256, no two of one CPU of one cell.
    pub programs: Seq<ProgramFile>,
}

/// The listing that an object tells, or the member that is at fault.
#[tactic(auto, unfolding(crate::specs::Boards::listing_told, jh_spec::specs::Faults::told_and_then))]
fn listing_told(alloc: Global, object: &Value) -> Result<Listing, JsonFault>
    ensures told { IsWantedReading (listing_told (view object.now)) result }
    ensures few { IfOk result (λ listing. length listing.preloads ≤ 64) }
    ensures distinct { IfOk result (λ listing. are_distinct (map named_cpu_of listing.programs) ≡ true) }
{
    let Some(system) = text_at(object, "system") else {
        return Err(fault_of(alloc, "system"));
    };
    let system = FileName::new(alloc, system)?;
    let Some(preloads) = preloads(alloc, object)? else {
        return Err(fault_of(alloc, "preloads"));
    };
    let Some(programs) = programs(alloc, object)? else {
        return Err(fault_of(alloc, "programs"));
    };
    match first_unlisted(object, &["system", "preloads", "programs"]) {
        Some(name) => Err(fault_of(alloc, name)),
        None => Ok(Listing {
            system,
            preloads,
            programs,
        }),
    }
}

/// Reads a board's text, all of the bytes: an object with the members `system` (a file's name),
/// `preloads` (a list of objects with `file` and `at`) and `programs` (a list of objects with `cell`,
/// `cpu` and `file`), of which the lists may be missing. The first of these members with a fault
/// decides, and then the least name, by its bytes, that isn't one of them.
pub fn read_board(alloc: Global, bytes: &[u8]) -> Result<Listing, JsonFault>
    ensures told { IsListingAnswer bytes.now result }
    ensures few { IfOk result (λ listing. length listing.preloads ≤ 64) }
    ensures distinct { IfOk result (λ listing. are_distinct (map named_cpu_of listing.programs) ≡ true) }
{
    let object = object(alloc, bytes)?;
    listing_told(alloc, &object)
}
