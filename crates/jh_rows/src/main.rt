//! The program `jh_rows`: the worked rows, each over the very top call, with files and a sink in memory. The folder in
//! which it runs has a folder for each command, and these one for each row. It tells each row that differs, and last
//! how many are good and how many differ.
#![tactic(auto)]

mod call;
mod difference;
mod escapes;
mod fault;
mod held;
mod row;
mod text;

use crate::difference::difference_of;
use crate::fault::Fault;
use crate::row::Row;
use std::fs;
use std::path::Path;
use std::rt::Runtime;
use std::sync::Wait;
use std::thread::Threads;

/// How many rows are as they say, and how many differ.
#[derive(Drop)]
struct Tally {
    good: u32,
    bad: u32,
}

impl Tally {
    /// Judges the row of that name.
    fn judge<R: Runtime + AllocGlobal + Threads + Wait + Sync>(
        &mut self,
        rt: &R,
        name: &str,
        row: &Row,
    ) -> Result<(), Fault> {
        match difference_of(rt, rt.alloc(), row)? {
            None => self.good = self.good.saturating_add(1),
            Some(difference) => {
                println!(rt; "{name} differs: {difference}")?;
                self.bad = self.bad.saturating_add(1);
            }
        }
        Ok(())
    }

    /// Judges the rows of a folder.
    fn judge_all<R: Runtime + AllocGlobal + Threads + Wait + Sync>(
        &mut self,
        rt: &R,
        folder: Path<'_>,
    ) -> Result<(), Fault> {
        for entry in fs::read_dir(rt, folder)? {
            let entry = entry?;
            let row = Row::read(rt, entry.path())?;
            self.judge(rt, entry.file_name(), &row)?;
        }
        Ok(())
    }
}

fn main(rt: HostRuntime) -> Result<(), Fault> {
    let mut tally = Tally { good: 0, bad: 0 };
    for command in fs::read_dir(&rt, ".")? {
        let command = command?;
        if command.file_type()?.is_dir() {
            tally.judge_all(&rt, command.path())?;
        }
    }
    let Tally { good, bad } = tally;
    println!(rt; "{good} rows good, {bad} differ")?;
    Ok(())
}
