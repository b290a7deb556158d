//! How the edit of a call begins and ends.
ghost use Rattle.std.specs.Prelude.{◌≡◌, ℕ, ◌+◌, ◌*◌, ◌^◌, ◌<◌, ◌≤◌, length, true, None, Some};
ghost use Rattle.jh_shape.specs.Claims.{Claims, claims_of};
ghost use Rattle.jh_edit.specs.declared.stage.Editing.{Editing as AnyEditing};
ghost use Rattle.jh_edit.specs.Ends.{IsClosed, IsJustPlanned};
ghost use Rattle.jh_edit.specs.Forest.{is_removed, part_left, IsCellPart, IsEdit};
ghost use Rattle.jh_edit.specs.Planned.{pages_planned, removed_id, IsPartPlanned, MayPlan};

use crate::edit::Edit;
use crate::seats::{cell_tree, root_tree};
use crate::stage::{CellPart, Editing, Stage2};
use jh_shape::{Target, tables_are_few};

/// What a call does to the cells.
#[derive(Clone, Copy, PartialEq, Eq, Debug)]
pub enum Planned {
    /// No cell comes or goes.
    Unchanged,
    /// A cell comes, of which so many tables are wanted.
    Create { id: u32, tables: u32 },
    /// The cell goes.
    Destroy { id: u32 },
}

impl CellPart {
    /// The cell whose tables the part takes away.
    fn removed_id(&self) -> Option<u32>
        ensures { result ≡ removed_id self.now }
    {
        match self {
            CellPart::Remove { id, edit: _ } => Some(*id),
            _ => None,
        }
    }
}

impl Stage2 {
    /// The part of the cell that the call names.
    fn planned_part(&self, cell: Planned) -> CellPart
        requires { (rootward : Claims) × ((coming : Claims) × MayPlan rootward coming self.now cell) }
        ensures part { (rootward coming : Claims) → MayPlan rootward coming self.now cell → IsCellPart coming self.now result (pages_planned coming cell) }
        ensures kind { IsPartPlanned cell result }
        ensures going { (id : ℕ) → is_removed result id ≡ true → 0 < part_left result }
    {
        tables_are_few();
        // for the proof: memory lies below the end of addresses
        let _ = self.frames.holds(0);
        match cell {
            Planned::Unchanged => CellPart::Unchanged,
            Planned::Create { id, tables } => CellPart::Fresh {
                id,
                bound: 2 * tables,
            },
            Planned::Destroy { id } => match cell_tree(self.seats.as_slice(), id) {
                Some(tree) => {
                    let edit = Edit::remove(tree.table, &self.frames);
                    CellPart::Remove { id, edit }
                }
                // each cell has tables while no edit is under way
                None => unreachable!(),
            },
        }
    }

    /// The edit of a call: from the tables as they stand to what root will want, and those of the cell that comes or goes. It
    /// changes nothing yet.
    pub fn plan(&self, root: &Target, cell: Planned) -> Editing
        requires cells { length root.now.cells.now ≤ 15 }
        requires may { (coming : Claims) × MayPlan (claims_of root.now) coming self.now cell }
        ensures edit { (coming : Claims) → MayPlan (claims_of root.now) coming self.now cell → IsEdit (claims_of root.now) coming self.now result }
        ensures kind { IsPartPlanned cell result.cell }
        ensures just { IsJustPlanned result }
    {
        // for the proof: memory lies below the end of addresses
        let _ = self.frames.holds(0);
        match root_tree(self.seats.as_slice()) {
            Some(tree) => {
                let rooted = Edit::new(tree.table, root, &self.frames);
                Editing {
                    root: rooted,
                    cell: self.planned_part(cell),
                }
            }
            // root has tables
            None => unreachable!(),
        }
    }

    /// The edit is over: the cell that went has no seat any more.
    pub fn close(&mut self)
        ensures closed { (editing : AnyEditing) → self.old.editing ≡ Some editing → IsClosed editing self.old self.new }
        ensures still { self.old.editing ≡ None → self.new ≡ self.old }
    {
        if let Some(editing) = self.editing.take()
            && let Some(id) = editing.cell.removed_id()
        {
            self.seats.retain(|seat| seat.id != id);
        }
    }
}
