//! That some numbers of an image are below the ends of their types. Each function reads numbers and answers nothing: its
//! contract is what their types say.
ghost use Rattle.std.specs.Prelude.{◌<◌, ◌^◌, All};
ghost use Rattle.jh_script.specs.declared.image.Preload.{Preload as ThePreload};
ghost use Rattle.jh_script.specs.declared.image.Program.{Program as TheProgram};
ghost use Rattle.jh_history.specs.Sound.{AreBytes};
ghost use Rattle.jh_run.specs.Private.Typed.{IsTypedOp, HasTypedNumbers};

use jh_script::{Image, Op, Preload, Program};

/// A byte is below 256.
fn byte_is_typed(byte: u8)
    ensures { byte < 256 }
{}

/// An id is below 2^32.
fn id_is_typed(id: u32)
    ensures { id < 2 ^ 32 }
{}

/// A number of 64 bits is below 2^64.
fn number_is_typed(number: u64)
    ensures { number < 2 ^ 64 }
{}

/// Each of the bytes is below 256.
fn bytes_are_typed(bytes: &[u8])
    ensures { AreBytes bytes.now }
{
    for byte in bytes {
        byte_is_typed(*byte);
    }
}

/// The address of the operation, or the code and the arguments of its hypercall, are below 2^64.
fn op_is_typed(op: &Op)
    ensures { IsTypedOp op.now }
{
    match *op {
        Op::Read { at, .. } => number_is_typed(at),
        Op::Write { at, .. } => number_is_typed(at),
        Op::Fetch { at } => number_is_typed(at),
        Op::Await { at, .. } => number_is_typed(at),
        Op::Irq => {}
        Op::Hvc { code, a, b } => {
            number_is_typed(code);
            number_is_typed(a);
            number_is_typed(b);
        }
    }
}

/// Of each of the operations the address, or the code and the arguments of its hypercall, are below 2^64.
fn ops_are_typed(ops: &[Op])
    ensures { All IsTypedOp ops.now }
{
    for op in ops {
        op_is_typed(op);
    }
}

/// The same of the operations of each program.
fn programs_are_typed(programs: &[Program])
    ensures { All (λ (p : TheProgram). All IsTypedOp p.ops) programs.now }
{
    for program in programs {
        ops_are_typed(program.ops.as_slice());
    }
}

/// Each byte of the preloads is below 256.
fn preloads_are_typed(preloads: &[Preload])
    ensures { All (λ (p : ThePreload). AreBytes p.bytes) preloads.now }
{
    for preload in preloads {
        bytes_are_typed(preload.bytes.as_slice());
    }
}

/// Root's id, the bytes of the preloads, and the addresses and hypercalls of the programs' operations are as their types
/// have them.
pub(crate) fn numbers_are_typed(image: &Image)
    ensures { HasTypedNumbers image.now }
{
    id_is_typed(image.system.root.id);
    programs_are_typed(image.programs.as_slice());
    preloads_are_typed(image.preloads.as_slice());
}
