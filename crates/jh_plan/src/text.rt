//! The text of a plan: a SPEC for each cell, and the pages.
ghost use Rattle.std.specs.Prelude.{◌≡◌, ◌++◌, OnOk, IfOk, map, string_bytes, decimal};
ghost use Rattle.std.specs.List.{flat_map};
ghost use Rattle.jh_plan.specs.SpecText.{comma, cpus_below, head_text, plan_text, region_text, spec_line, spec_text, tail_text, with_commas};

use crate::planning::Planned;
use jh_cellcfg::{CellConfig, MAX_CPUS, Region};
use jh_num::NoMemory;
use std::alloc::Global;

/// The CPUs that the cell's set names, the least first.
#[tactic(auto, unfolding(crate::specs::SpecText::cpus_below))]
fn cpus_of(alloc: Global, cell: &CellConfig) -> Result<Vec<u8>, NoMemory>
    ensures { IfOk result (λ cpus. cpus.items ≡ cpus_below cell.now.cpu_set 16) }
{
    let mut cpus = Vec::new(alloc);
    for cpu in 0..MAX_CPUS as u8 {
        if cell.has_cpu(cpu) {
            cpus.push(cpu)?;
        }
    }
    Ok(cpus)
}

/// Puts a comma at the end, unless the text that comes is the first.
fn push_comma(text: &mut String, number: usize) -> Result<(), NoMemory>
    ensures { OnOk result (string_bytes text.new ≡ string_bytes text.old ++ comma number) }
{
    if number > 0 {
        text.push(',')?;
    }
    Ok(())
}

/// The numbers with a comma between each two.
fn print_numbers(alloc: Global, numbers: &[u8]) -> Result<String, NoMemory>
    ensures { IfOk result (λ text. string_bytes text ≡ with_commas (map decimal numbers.now)) }
{
    let mut text = String::new(alloc);
    for number in 0..numbers.len() {
        let each = numbers[number];
        push_comma(&mut text, number)?;
        write!(text, "{each}")?;
    }
    Ok(text)
}

/// Puts the object of the region at the end.
fn push_region(text: &mut String, region: &Region) -> Result<(), NoMemory>
    ensures { OnOk result (string_bytes text.new ≡ string_bytes text.old ++ region_text region.now) }
{
    let flags = region.flags;
    let phys = region.phys_start;
    let size = region.size;
    let virt = region.virt_start;
    write!(
        text,
        "{{\"flags\":{flags},\"phys\":{phys},\"size\":{size},\"virt\":{virt}}}"
    )?;
    Ok(())
}

/// The objects of the regions with a comma between each two.
fn print_regions(alloc: Global, regions: &[Region]) -> Result<String, NoMemory>
    ensures { IfOk result (λ text. string_bytes text ≡ with_commas (map region_text regions.now)) }
{
    let mut text = String::new(alloc);
    for number in 0..regions.len() {
        let region = &regions[number];
        push_comma(&mut text, number)?;
        push_region(&mut text, region)?;
    }
    Ok(text)
}

/// The numbers of the cell's CPUs with a comma between each two.
fn print_cpus(alloc: Global, cell: &CellConfig) -> Result<String, NoMemory>
    ensures { IfOk result (λ text. string_bytes text ≡ with_commas (map decimal (cpus_below cell.now.cpu_set 16))) }
{
    let cpus = cpus_of(alloc, cell)?;
    print_numbers(alloc, cpus.as_slice())
}

/// What stands before the name of the cell.
#[tactic(auto, unfolding(crate::specs::SpecText::head_text))]
fn print_head(alloc: Global, cell: &CellConfig) -> Result<String, NoMemory>
    ensures { IfOk result (λ text. string_bytes text ≡ head_text cell.now) }
{
    let id = cell.id;
    let cpus = print_cpus(alloc, cell)?;
    Ok(format!(in alloc; "{{\"cpus\":[{cpus}],\"id\":{id},\"kind\":\"cell\",\"name\":\"")?)
}

/// What stands behind the name of the cell.
#[tactic(auto, unfolding(crate::specs::SpecText::tail_text))]
fn print_tail(alloc: Global, cell: &CellConfig) -> Result<String, NoMemory>
    ensures { IfOk result (λ text. string_bytes text ≡ tail_text cell.now) }
{
    let regions = print_regions(alloc, cell.memory_regions.as_slice())?;
    Ok(format!(in alloc; "\",\"regions\":[{regions}]}}")?)
}

/// Puts the object of the cell at the end. The bytes of its name stand as they are: those of a plan's cells need no escape.
fn push_spec(alloc: Global, text: &mut Vec<u8>, cell: &CellConfig) -> Result<(), NoMemory>
    ensures { OnOk result (text.new.items ≡ text.old.items ++ spec_text cell.now) }
{
    let head = print_head(alloc, cell)?;
    let tail = print_tail(alloc, cell)?;
    text.extend_from_slice(head.as_bytes())?;
    text.extend_from_slice(cell.name())?;
    text.extend_from_slice(tail.as_bytes())?;
    Ok(())
}

/// Puts the lines of the cells at the end, one each.
fn push_lines(alloc: Global, text: &mut Vec<u8>, cells: &[CellConfig]) -> Result<(), NoMemory>
    ensures { OnOk result (text.new.items ≡ text.old.items ++ flat_map spec_line cells.now) }
{
    for cell in cells {
        push_spec(alloc, text, cell)?;
        text.push(b'\n')?;
    }
    Ok(())
}

/// The text of a plan beside a pool of so many pages: a line for each cell, which is a SPEC of it, and last how many
/// pages are used.
pub fn plan_text(alloc: Global, planned: &Planned, pool: u64) -> Result<Vec<u8>, NoMemory>
    ensures { IfOk result (λ text. text.items ≡ plan_text planned.now pool) }
{
    let used = planned.pages;
    let last = format!(in alloc; "pages {used} of {pool}\n")?;
    let mut text = Vec::new(alloc);
    push_lines(alloc, &mut text, planned.cells.as_slice())?;
    text.extend_from_slice(last.as_bytes())?;
    Ok(text)
}
