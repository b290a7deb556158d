//! What is due at the beginning of a journal, by the plain definition.
ghost use Rattle.std.specs.Prelude.{IfOk};
ghost use Rattle.jh_history.specs.Admitted.{IsAdmitted};

use jh_cellcfg::{CellConfig, Region, SystemConfig};
use jh_history::{Act, Entry, Journal, admit, due, is_on_board, quiet};
use jh_num::{NoMemory, Seq};
use jh_script::{Image, Op, Program};
use std::alloc::Global;
use std::process::Abort;
use std::test::Fail;

/// The one page of root's memory.
const BASE: u64 = 0x4000_0000;

/// Root's region: that page, which may be read and written.
fn region() -> Region {
    Region {
        phys_start: BASE,
        virt_start: BASE,
        size: 0x1000,
        flags: 3,
    }
}

/// Root with CPUs 0, 1 and 3.
fn root(alloc: Global) -> Result<CellConfig, NoMemory> {
    Ok(CellConfig {
        cpu_set: Seq::from_vec(Vec::from_slice(alloc, &[0xb])?),
        memory_regions: Seq::from_vec(Vec::from_slice(alloc, &[region()])?),
        ..CellConfig::empty(alloc, 0)
    })
}

fn system(root: CellConfig) -> SystemConfig {
    let memory = Region {
        phys_start: 0x7fc0_0000,
        virt_start: 0x7fc0_0000,
        size: 0x1_0000,
        flags: 0,
    };
    SystemConfig::bare(memory, root)
}

/// The image of that root, whose CPU 0 has this program.
fn image(alloc: Global, ops: &[Op]) -> Result<Image, NoMemory> {
    let program = Program {
        cell: Seq::new(alloc),
        cpu: 0,
        ops: Seq::from_vec(Vec::from_slice(alloc, ops)?),
    };
    let mut programs = Seq::new(alloc);
    programs.push(program)?;
    Ok(Image {
        system: system(root(alloc)?),
        preloads: Seq::new(alloc),
        programs,
    })
}

/// The same image, which may be opened.
pub(crate) fn ready(rt: &impl Abort, alloc: Global, ops: &[Op]) -> Result<Image, NoMemory>
    ensures admitted { IfOk result IsAdmitted }
{
    let image = image(alloc, ops)?;
    let admitted = admit(alloc, &image)?;
    assert!(rt; admitted);
    Ok(image)
}

pub(crate) fn read(width: u8) -> Op {
    Op::Read { width, at: BASE }
}

/// CPU 0 read a zero byte.
pub(crate) const FIRST: Entry = Entry {
    cpu: 0,
    cell: 0,
    act: Act::Read {
        width: 1,
        at: BASE,
        got: Some(0),
    },
};

/// What is due to CPU 0 at the beginning of the image's journal, and whether nothing is.
#[tactic(auto, unfolding(jh_history::specs::Due::IsLegal))]
fn first_due(alloc: Global, image: &Image) -> Result<(Option<Entry>, bool), NoMemory>
    requires admitted { IsAdmitted image.now }
{
    // for the proof: root has CPU 0
    if !is_on_board(image, 0) {
        return Ok((None, false));
    }
    let journal = Journal::new(alloc);
    Ok((
        due(alloc, image, &journal, 0)?,
        quiet(alloc, image, &journal)?,
    ))
}

/// The same for an image whose program has these operations; `None` where no board may be opened with it.
fn first_of(alloc: Global, ops: &[Op]) -> Result<Option<(Option<Entry>, bool)>, NoMemory> {
    let image = image(alloc, ops)?;
    if admit(alloc, &image)? {
        Ok(Some(first_due(alloc, &image)?))
    } else {
        Ok(None)
    }
}

#[test]
fn what_is_due_is_told(rt: HostRuntime) -> Result<(), Fail> {
    assert_eq!(rt;
        first_of(rt.alloc(), &[read(1)])?,
        Some((Some(FIRST), false))
    );
    assert_eq!(rt; first_of(rt.alloc(), &[])?, Some((None, true)));
    assert_eq!(rt; first_of(rt.alloc(), &[read(3)])?, None);
    Ok(())
}
