//! The cells that live, for the slow plain program.
ghost use Rattle.std.specs.Prelude.{◌≡◌, ◌+◌, ◌<◌, [], ◌++◌, ◌∷◌, List, length, map, filter, Some, false, OnOk, OnErr};
ghost use Rattle.jh_cellcfg.specs.declared.live.Live.{Live as TheLive};
ghost use Rattle.jh_history.specs.declared.call.Phase.{Phase as ThePhase};
ghost use Rattle.jh_shape.specs.Shapes.{is_closed, holder_of_live};
ghost use Rattle.jh_shape.specs.Lives.{configs_of, with_marks, marked, new_live};
ghost use Rattle.jh_history.specs.Commits.{is_other, committed_cells, created as created_in};

use crate::boxed::BoxedCell;
use jh_call::Call;
use jh_cellcfg::CellConfig;
use jh_num::NoMemory;
use jh_shape::any_takes;
use std::alloc::Global;
use std::marker::Model;

/// The cells that live besides root, in order of their creation, each with its mark: whether it is loadable.
#[derive(Drop)]
pub(crate) struct PlainCells {
    configs: Vec<CellConfig>,
    marks: Vec<bool>,
}

impl Model for PlainCells {
    ghost use Rattle.std.specs.Prelude.{◌≡◌, List, length};
    ghost use Rattle.jh_cellcfg.specs.declared.live.Live.{Live as TheLive};
    ghost use Rattle.jh_shape.specs.Lives.{with_marks};

    ghost Value = { List TheLive };

    ghost view = { λ c. with_marks c.configs.items c.marks.items };

    ghost invariant = { λ c. length c.marks.items ≡ length c.configs.items };
}

/// Marks the cell with the id.
fn mark(cells: &[CellConfig], marks: &mut [bool], id: u64, loadable: bool)
    requires { length marks.old ≡ length cells.now }
    ensures { with_marks cells.now marks.new ≡ map (marked id loadable) (with_marks cells.now marks.old) }
{
    for (i, cell) in cells.iter().enumerate() {
        if u64::from(cell.id) == id {
            marks[i] = loadable;
        }
    }
}

/// Takes the cell with the id away.
fn leave(cells: &mut Vec<CellConfig>, marks: &mut Vec<bool>, id: u64)
    requires { length marks.old.items ≡ length cells.old.items }
    ensures even { length marks.new.items ≡ length cells.new.items }
    ensures left { with_marks cells.new.items marks.new.items ≡ filter (is_other id) (with_marks cells.old.items marks.old.items) }
{
    for i in (0..cells.len()).rev() {
        if u64::from(cells[i].id) == id {
            // the cell is dropped, and its mark with it
            let _ = cells.remove(i);
            let _ = marks.remove(i);
        }
    }
}

/// Whether one of the cells, each with its mark, takes the place from root.
fn any_closes(cells: &[CellConfig], marks: &[bool], place: u64) -> bool
    requires { length marks.now ≡ length cells.now }
    ensures { result ≡ is_closed (map holder_of_live (with_marks cells.now marks.now)) place }
{
    for (i, cell) in cells.iter().enumerate() {
        if any_takes(cell.memory_regions.as_slice(), marks[i], place) {
            return true;
        }
    }
    false
}

impl PlainCells {
    /// No cell lives besides root.
    pub(crate) fn new(alloc: Global) -> Self
        ensures { result ≡ [] }
    {
        PlainCells {
            configs: Vec::new(alloc),
            marks: Vec::new(alloc),
        }
    }

    /// The configurations of the cells that live besides root, in order of creation.
    pub(crate) fn configs(&self) -> &[CellConfig]
        ensures { result.now ≡ configs_of self.now }
    {
        self.configs.as_slice()
    }

    /// Whether the place is closed to root.
    pub(crate) fn closes(&self, place: u64) -> bool
        ensures { result ≡ is_closed (map holder_of_live self.now) place }
    {
        any_closes(&self.configs, &self.marks, place)
    }

    /// Adds a cell that lives, as the last in order and not loadable.
    fn add(&mut self, config: CellConfig) -> Result<(), NoMemory>
        ensures ok { OnOk result (self.new ≡ self.old ++ new_live config ∷ []) }
        ensures err { OnErr result (self.new ≡ self.old) }
    {
        self.configs.reserve(1)?;
        self.marks.reserve(1)?;
        self.configs.push_reserved(config);
        self.marks.push_reserved(false);
        Ok(())
    }

    /// The cells after a Commit of the call, which creates a cell of that configuration.
    pub(crate) fn commit(&mut self, call: &Call, created: Option<BoxedCell>) -> Result<(), NoMemory>
        ensures ok { OnOk result ((phase : ThePhase) → created ≡ created_in call.now phase → self.new ≡ committed_cells call.now phase self.old) }
        ensures err { OnErr result (self.new ≡ self.old) }
    {
        match *call {
            Call::Create { .. } => {
                if let Some(config) = created {
                    self.add(config.into_inner())?;
                }
            }
            Call::Start { id } => mark(&self.configs, &mut self.marks, id, false),
            Call::Loadable { id } => mark(&self.configs, &mut self.marks, id, true),
            Call::Destroy { id } => leave(&mut self.configs, &mut self.marks, id),
            _ => {}
        }
        Ok(())
    }
}
