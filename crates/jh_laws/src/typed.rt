//! That the numbers which entries tell keep to their types.
ghost use Rattle.std.specs.Prelude.{◌^◌, ◌<◌};
ghost use Rattle.jh_laws.specs.Moments.{AdmittedMoment};
ghost use Rattle.jh_laws.specs.Typed.{IsTypedImage, HasTypedAct};

/// An entry is made by one of 16 CPUs. Where root's id has 32 bits and preloads put bytes, as in each image that code
/// can hold, it is made in the name of a cell whose id has 32 bits, and each number that it tells beyond the operation
/// of a program keeps to its type: a value to the bytes of its access, a device, a vector and an id to their bits, and
/// an answer to 64 bits with a sign.
pub fn numbers_keep_to_their_types()
    ensures cpu { (m : AdmittedMoment) → m.entry.cpu < 16 }
    ensures cell { (m : AdmittedMoment) → IsTypedImage m.image → m.entry.cell < 2 ^ 32 }
    ensures told { (m : AdmittedMoment) → IsTypedImage m.image → HasTypedAct m.entry.act }
{}
