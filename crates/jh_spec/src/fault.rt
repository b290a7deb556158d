//! Faults of texts, by the name of their member.
ghost use Rattle.std.specs.Prelude.{◌≡◌, IfOk, Some};
ghost use Rattle.jh_spec.specs.Faults.{member_told, IsFaultOf};
ghost use Rattle.jh_spec.specs.Private.Faults.{IsAsWanted};
ghost use Rattle.jh_spec.specs.declared.fault.JsonFault.TheVariants.{NoMemory as WantOfMemory};

use jh_num::{NoMemory, Seq};
use std::alloc::Global;

/// Why a text doesn't tell what it should.
#[derive(Drop)]
pub enum JsonFault {
    /// The bytes are no JSON text, or its value is no object.
    Json,
    /// The member of this name, in UTF-8, is at fault.
    Member(Seq<u8>),
    NoMemory,
}

impl From<NoMemory> for JsonFault {
    ghost from_gives = { λ _ e. e ≡ WantOfMemory };

    fn from(_e: NoMemory) -> JsonFault {
        JsonFault::NoMemory
    }
}

/// The fault of the member of this name, or want of memory for the name.
pub fn fault_of(alloc: Global, name: &str) -> JsonFault
    ensures { IsFaultOf name.now result }
{
    match Vec::from_slice(alloc, name.as_bytes()) {
        Ok(bytes) => JsonFault::Member(Seq::from_vec(bytes)),
        Err(_) => JsonFault::NoMemory,
    }
}

/// What a member tells, or its fault.
pub fn member_told<T: Drop>(alloc: Global, name: &str, told: Option<T>) -> Result<T, JsonFault>
    ensures answer { IsAsWanted (member_told name.now told) result }
    ensures ok { IfOk result (λ value. told ≡ Some value) }
{
    match told {
        Some(value) => Ok(value),
        None => Err(fault_of(alloc, name)),
    }
}
