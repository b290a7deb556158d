//! The table of who holds which pin.
ghost use Rattle.std.specs.Prelude.{◌≡◌, [], position, find, option_map, IfOk, OnOk, OnErr, IsOk};
ghost use Rattle.jh_pins.specs.Pins.{is_named_by};
ghost use Rattle.jh_pins.specs.Holders.{holder, id_of, is_held_by, has_id, with_cell, without, IsNewId, table_of};
ghost use Rattle.jh_pins.specs.Runs.{AreRuns};
ghost use Rattle.jh_pins.specs.Clashes.{AreClashes};
ghost use Rattle.jh_pins.specs.Private.Pieces.{is_left};

use crate::claim::Claim;
use crate::clashes::push_clashes_with;
use crate::pieces::without;
use crate::pin::{Clash, Pin, PinRun};
use jh_cellcfg::CellConfig;
use jh_num::{NoMemory, Seq};
use std::alloc::Global;
use std::marker::Model;

/// Who holds which pin: of the cells besides root that name it the one that was created first, else root, if root names
/// it. The table keeps what each cell claims, and no holders; so a cell's going leaves nothing behind.
#[derive(Drop)]
pub struct PinTable {
    root: Claim,
    /// The claims of the cells besides root, in order of creation.
    cells: Vec<Claim>,
}

impl Model for PinTable {
    ghost use Rattle.jh_pins.specs.TableView.{TableView};

    ghost Value = { TableView };

    ghost view = { λ t. record { root = t.root; cells = t.cells.items } };

    ghost use Rattle.jh_pins.specs.TableView.{HaveOwnIds};

    ghost invariant = { λ t. HaveOwnIds t.root t.cells.items };
}

/// The id of the first of the cells that names the pin.
fn first_to_name(claims: &[Claim], pin: Pin) -> Option<u32>
    ensures { result ≡ option_map id_of (find (is_named_by pin) claims.now) }
{
    for claim in claims {
        if claim.names(pin) {
            return Some(claim.id());
        }
    }
    None
}

/// The runs of the pins that the cell names and none of the others does.
fn runs_left(alloc: Global, own: &Claim, others: &[Claim]) -> Result<Vec<PinRun>, NoMemory>
    ensures { IfOk result (λ runs. AreRuns (is_left own.now others.now) runs.items) }
{
    let mut left = Vec::from_slice(alloc, own.runs())?;
    for other in others {
        left = without(alloc, left.as_slice(), other.runs())?;
    }
    Ok(left)
}

impl PinTable {
    /// The table of root alone.
    pub fn open(alloc: Global, root: &CellConfig) -> Result<Self, NoMemory>
        ensures { IfOk result (λ table. table ≡ table_of root.now []) }
    {
        Ok(PinTable {
            root: Claim::of(alloc, root)?,
            cells: Vec::new(alloc),
        })
    }

    /// A new cell lives, as the last.
    pub fn add(&mut self, cell: &CellConfig) -> Result<(), NoMemory>
        requires { IsNewId self.old cell.now.id }
        ensures ok { OnOk result (self.new ≡ with_cell cell.now self.old) }
        ensures err { OnErr result (self.new ≡ self.old) }
    {
        let alloc = *self.cells.allocator();
        let claim = Claim::of(alloc, cell)?;
        self.cells.push(claim)?;
        Ok(())
    }

    /// The index of the cell besides root with the id.
    fn index_of(&self, id: u32) -> Option<usize>
        ensures { result ≡ position (has_id id) self.now.cells }
    {
        self.cells.iter().position(|claim| claim.id() == id)
    }

    /// The cell besides root with the id lives no longer. It takes no memory.
    pub fn drop_cell(&mut self, id: u32) -> Result<(), NoMemory>
        ensures succeeds { IsOk result }
        ensures table { self.new ≡ without id self.old }
    {
        if let Some(index) = self.index_of(id) {
            // its claim goes with it
            let _ = self.cells.remove(index);
        }
        Ok(())
    }

    /// The id of the cell that holds the pin; `None` exactly where no cell names it.
    pub fn holder(&self, pin: Pin) -> Option<u32>
        ensures { result ≡ holder self.now pin }
    {
        match first_to_name(self.cells.as_slice(), pin) {
            Some(id) => Some(id),
            None if self.root.names(pin) => Some(self.root.id()),
            None => None,
        }
    }

    /// The runs of pins that the cell with the id holds, in order of chip and number; none where no cell has the id.
    pub fn held(&self, id: u32) -> Result<Seq<PinRun>, NoMemory>
        ensures { IfOk result (AreRuns (is_held_by self.now id)) }
    {
        let alloc = *self.cells.allocator();
        let cells = self.cells.as_slice();
        if id == self.root.id() {
            let runs = runs_left(alloc, &self.root, cells)?;
            return Ok(Seq::from_vec(runs));
        }
        match self.index_of(id) {
            Some(index) => {
                let runs = runs_left(alloc, &cells[index], &cells[..index])?;
                Ok(Seq::from_vec(runs))
            }
            None => Ok(Seq::new(alloc)),
        }
    }

    /// The runs of pins that two cells besides root both name, in order of creation of the one, of creation of the
    /// other, of chip and of number.
    pub fn clashes(&self) -> Result<Seq<Clash>, NoMemory>
        ensures { IfOk result (AreClashes self.now.cells) }
    {
        let alloc = *self.cells.allocator();
        let mut clashes = Vec::new(alloc);
        let cells = self.cells.as_slice();
        for index in 0..cells.len() {
            push_clashes_with(alloc, &mut clashes, &cells[index], &cells[index + 1..])?;
        }
        Ok(Seq::from_vec(clashes))
    }
}
