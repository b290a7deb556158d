//! What a line of demands tells.
ghost use Rattle.std.specs.Prelude.{◌≡◌, IfOk};
ghost use Rattle.std.specs.List.{list_all};
ghost use Rattle.jh_script.specs.Words.{words, line_gaps};
ghost use Rattle.jh_plan.specs.Demands.{is_name, is_name_byte, demand_of, figures_by, figures_of, line_of, line_of_demand, mark_of};
ghost use Rattle.jh_plan.specs.Private.Lines.{IsGoodLine};

use crate::demand::Demand;
use jh_num::{NoMemory, PAGE_SIZE, Seq};
use jh_script::{LINE_GAPS, is_ascii, is_word, next_word, read_number};
use std::alloc::Global;

/// What a line tells.
#[derive(Drop)]
pub(crate) enum Line {
    /// It has no word, or its first begins with `#`.
    Blank,
    /// It is that of this demand.
    Wanted(Demand),
    /// It has words, but neither a comment's nor those of a demand; or it has a byte above 0x7f.
    Syntax,
}

/// What is wanted beside the name.
#[derive(Clone, Copy, PartialEq, Eq, Debug)]
pub(crate) struct Figures {
    pub id: u32,
    pub cpus: u8,
    pub size: u64,
    pub loadable: bool,
}

/// What a line tells, without its line feed.
#[tactic(auto, unfolding(crate::specs::Demands::line_of, crate::specs::Demands::line_of_words))]
pub(crate) fn read_line(alloc: Global, text: &[u8]) -> Result<Line, NoMemory>
    ensures value { IfOk result (λ line. line ≡ line_of text.now) }
    ensures good { IfOk result IsGoodLine }
{
    if !is_ascii(text) {
        return Ok(Line::Syntax);
    }
    let Some((first, behind)) = next_word(LINE_GAPS, text) else {
        return Ok(Line::Blank);
    };
    if first.starts_with(b"#") {
        return Ok(Line::Blank);
    }
    if !is_word(first, "cell") {
        return Ok(Line::Syntax);
    }
    read_demand(alloc, behind)
}

/// `NAME ID CPUS SIZE`, and `loadable` or no more: the words behind `cell`.
#[tactic(auto, unfolding(crate::specs::Demands::demand_of, crate::specs::Demands::line_of_demand))]
fn read_demand(alloc: Global, text: &[u8]) -> Result<Line, NoMemory>
    ensures { IfOk result (λ line. line ≡ line_of_demand (demand_of (words line_gaps text.now))) }
{
    let Some((name, behind)) = next_word(LINE_GAPS, text) else {
        return Ok(Line::Syntax);
    };
    if !is_name(name) {
        return Ok(Line::Syntax);
    }
    let Some(figures) = read_figures(behind) else {
        return Ok(Line::Syntax);
    };
    let name = Vec::from_slice(alloc, name)?;
    Ok(Line::Wanted(Demand {
        name: Seq::from_vec(name),
        id: figures.id,
        cpus: figures.cpus,
        size: figures.size,
        loadable: figures.loadable,
    }))
}

/// The words behind a name, where they are within their limits.
#[tactic(auto, unfolding(crate::specs::Demands::figures_of))]
fn read_figures(text: &[u8]) -> Option<Figures>
    ensures { result ≡ figures_of (words line_gaps text.now) }
{
    let (id, rest) = next_word(LINE_GAPS, text)?;
    let (cpus, rest) = next_word(LINE_GAPS, rest)?;
    let (size, rest) = next_word(LINE_GAPS, rest)?;
    let loadable = read_mark(rest)?;
    figures_by(
        read_number(id)?,
        read_number(cpus)?,
        read_number(size)?,
        loadable,
    )
}

/// What stands behind SIZE: whether it is `loadable` alone; `None` where it is anything else but nothing.
#[tactic(auto, unfolding(crate::specs::Demands::mark_of))]
fn read_mark(text: &[u8]) -> Option<bool>
    ensures { result ≡ mark_of (words line_gaps text.now) }
{
    let Some((word, rest)) = next_word(LINE_GAPS, text) else {
        return Some(false);
    };
    if next_word(LINE_GAPS, rest).is_some() || !is_word(word, "loadable") {
        return None;
    }
    Some(true)
}

/// The numbers and the mark, where the numbers are within their limits.
#[tactic(auto, unfolding(crate::specs::Demands::figures_by))]
fn figures_by(id: u64, cpus: u64, size: u64, loadable: bool) -> Option<Figures>
    ensures { result ≡ figures_by id cpus size loadable }
{
    let id = u32::try_from(id).ok()?;
    if cpus == 0 || cpus > 15 || size == 0 || size % PAGE_SIZE != 0 {
        return None;
    }
    Some(Figures {
        id,
        cpus: cpus as u8,
        size,
        loadable,
    })
}

/// Whether the bytes may be a cell's name: 1 to 31 bytes from 0x21 to 0x7e without quotes and backslashes.
fn is_name(name: &[u8]) -> bool
    ensures { result ≡ is_name name.now }
{
    name.len() > 0 && name.len() <= 31 && are_name_bytes(name)
}

/// Whether each of the bytes may stand in a name.
fn are_name_bytes(name: &[u8]) -> bool
    ensures { result ≡ list_all is_name_byte name.now }
{
    name.iter().all(|byte| is_name_byte(*byte))
}

/// Whether the byte may stand in a name.
fn is_name_byte(byte: u8) -> bool
    ensures { result ≡ is_name_byte byte }
{
    0x21 <= byte && byte <= 0x7e && byte != b'"' && byte != b'\\'
}
