//! One turn of the edit of a call.
ghost use Rattle.std.specs.Prelude.{◌≡◌, ℕ, ◌+◌, ◌*◌, ◌%◌, ◌<◌, ◌≤◌, ◌⊎◌, false, true, length, map, Some, None, IsSome, MatchOption, vec_capacity};
ghost use Rattle.jh_num.specs.declared.address.TheConstants.{ADDRESS_END};
ghost use Rattle.jh_frames.specs.Memory.{byte_at, AreOwnBytes};
ghost use Rattle.jh_pool.specs.Pages.{used_of, IsTakenPage};
ghost use Rattle.jh_shape.specs.Claims.{Claims, claims_of};
ghost use Rattle.jh_shape.specs.Shapes.{want_of};
ghost use Rattle.jh_shape.specs.SoundClaims.{AreSoundClaims};
ghost use Rattle.jh_walk.specs.Walks.{levels};
ghost use Rattle.jh_edit.specs.declared.stage.CellPart.{CellPart as AnyPart};
ghost use Rattle.jh_edit.specs.declared.stage.Editing.{Editing as AnyEditing};
ghost use Rattle.jh_edit.specs.declared.stage.Seat.{Seat as AnySeat};
ghost use Rattle.jh_edit.specs.declared.stage.Stage2.{Stage2 as AnyStage};
ghost use Rattle.jh_edit.specs.Forest.{left_of, IsEdit, IsForest};
ghost use Rattle.jh_edit.specs.OneTurn.{gone_comm, is_removing, is_root_next, with_editing, HasTurn, IsCellTurn, IsKept, IsOneTurn, IsTurned, IsUnderWay};
ghost use Rattle.jh_edit.specs.Plans.{EditView, Plans};
ghost use Rattle.jh_edit.specs.Seats.{cell_comm};
ghost use Rattle.jh_edit.specs.Stages.{untreed, IsBuildTurn, IsFreshTurn, IsRemoveTurn, IsRootTurn};
ghost use Rattle.jh_edit.specs.Tables.{words};
ghost use Rattle.jh_edit.specs.Turns.{turns_of};
ghost use Rattle.jh_edit.specs.Private.Steps.{IsGivenBack, IsTakenFrom};
ghost use Rattle.jh_edit.specs.Private.Turned.{IsEditTurn, IsReady};

use crate::counting::LEVELS;
use crate::edit::Edit;
use crate::edits::{
    a_fresh_cell_keeps_the_forest, turns_of_a_coming_cell_keep_the_forest,
    turns_of_a_removal_keep_the_forest, turns_of_root_keep_the_forest,
};
use crate::seats::{cell_comm, cell_tree, lowest_tag, root_tree};
use crate::stage::{CellPart, Editing, Seat, Stage2, Tree, left_of};
use crate::writing::{Writing, write_table};
use jh_frames::Frames;
use jh_pool::Pool;
use jh_shape::{Target, a_wanted_leaf_may_be_written};

impl CellPart {
    /// Whether a cell's tables are still to be taken away.
    fn is_removing(&self) -> bool
        ensures { result ≡ is_removing self.now }
    {
        match self {
            CellPart::Remove { id: _, edit } => 0 < edit.left(),
            _ => false,
        }
    }
}

impl Editing {
    /// Whether the next turn is root's: it comes behind a removal, and before a cell is made.
    fn is_root_next(&self) -> bool
        ensures { result ≡ is_root_next self.now }
    {
        0 < self.root.left() && !self.cell.is_removing()
    }
}

/// The communication page of the cell that is gone.
fn gone_comm(seats: &[Seat], editing: &Editing) -> Option<u64>
    ensures { result ≡ gone_comm editing.now seats.now }
{
    if left_of(editing) > 0 {
        return None;
    }
    match &editing.cell {
        CellPart::Remove { id, edit: _ } => cell_comm(seats, *id),
        _ => None,
    }
}

/// The communication page of the cell with the id, which has one.
fn cell_page(seats: &[Seat], id: u32) -> u64
    requires { IsSome (cell_comm id seats.now) }
    ensures { cell_comm id seats.now ≡ Some result }
{
    match cell_comm(seats, id) {
        Some(page) => page,
        // a cell besides root has a communication page
        None => unreachable!(),
    }
}

/// Gives the communication page of the cell back that is gone.
fn give_back(seats: &[Seat], editing: &Editing, p: &mut Pool)
    requires { (page : ℕ) → gone_comm editing.now seats.now ≡ Some page → IsTakenPage p.old page }
    ensures { MatchOption (gone_comm editing.now seats.now) (p.new ≡ p.old) (λ page. IsGivenBack page p.old p.new) }
{
    if let Some(page) = gone_comm(seats, editing) {
        p.give(page);
    }
}

/// The seat, without tables where it is that of the cell with the id.
fn untreed(seat: Seat, id: u32) -> Seat
    ensures { result ≡ untreed id seat }
{
    if seat.id == id {
        Seat { tree: None, ..seat }
    } else {
        seat
    }
}

/// The cell with the id has no tables any more.
fn untree(seats: &mut [Seat], id: u32)
    ensures { seats.new ≡ map (untreed id) seats.old }
{
    for seat in seats.iter_mut() {
        *seat = untreed(*seat, id);
    }
}

/// Once their removal is done, the cell with the id has no tables.
fn settle(seats: &mut [Seat], id: u32, edit: &Edit)
    ensures on { 0 < edit.now.left → seats.new ≡ seats.old }
    ensures over { edit.now.left ≡ 0 → seats.new ≡ map (untreed id) seats.old }
{
    if edit.left() == 0 {
        untree(seats, id);
    }
}

/// A page of the pool, which has a free one.
fn free_page(p: &mut Pool) -> u64
    requires { used_of p.old < p.old.size }
    ensures { IsTakenFrom result p.old p.new }
{
    match p.take() {
        Some(page) => page,
        // not all pages are taken
        None => unreachable!(),
    }
}

/// Makes the page the first table of a cell, in which nothing stands.
fn clear_table(t: &Target, f: &mut Frames, table: u64)
    requires cells { length t.now.cells.now ≤ 15 }
    requires sound { AreSoundClaims (claims_of t.now) }
    requires own { AreOwnBytes f.old.own table 4096 }
    requires place { table + 4096 ≤ ADDRESS_END }
    ensures zero { (slot : ℕ) → slot < 512 → words f.new (table + 8 * slot) ≡ 0 }
    ensures outside { (q : ℕ) → (q < table) ⊎ (table + 4096 ≤ q) → byte_at f.new q ≡ byte_at f.old q }
    ensures guests { f.new.guest ≡ f.old.guest }
    ensures base { f.new.own.base ≡ f.old.own.base }
    ensures size { length f.new.own.bytes ≡ length f.old.own.bytes }
{
    a_wanted_leaf_may_be_written();
    write_table(t, f, Writing::Make, LEVELS, table, 0);
}

/// Each turn of an edit keeps the tables of all cells and the edit, with fewer turns left.
pub fn turns_keep_the_forest()
    ensures { (claims : AnySeat → Claims) (rootward coming : Claims) (editing editing' : AnyEditing) (stage stage' : AnyStage) → stage.editing ≡ Some editing → IsForest claims stage → IsEdit rootward coming stage editing
        → IsOneTurn rootward coming editing editing' stage stage' → IsKept claims rootward coming editing editing' stage' }
{
    turns_of_root_keep_the_forest();
    turns_of_a_coming_cell_keep_the_forest();
    turns_of_a_removal_keep_the_forest();
    a_fresh_cell_keeps_the_forest();
}

impl Stage2 {
    /// A turn of the tables of one cell.
    fn tree_turn(&mut self, edit: &mut Edit, tag: u8, t: &Target)
        requires cells { length t.now.cells.now ≤ 15 }
        requires ready { IsReady (claims_of t.now) edit.old self.old.frames self.old.pool }
        ensures turn { IsEditTurn (want_of (claims_of t.now)) tag edit.old edit.new self.old.frames self.new.frames self.old.pool self.new.pool self.old.cache self.new.cache }
        ensures seats { self.new.seats ≡ self.old.seats }
        ensures editing { self.new.editing ≡ self.old.editing }
    {
        edit.turn(t, &mut self.frames, &mut self.pool, &mut self.cache, tag);
    }

    /// A turn of root's tables.
    fn root_turn(&mut self, mut editing: Editing, root: &Target) -> Editing
        requires cells { length root.now.cells.now ≤ 15 }
        requires under { (coming : Claims) × IsUnderWay (claims_of root.now) coming (with_editing self.old editing) editing }
        requires left { 0 < editing.root.left }
        ensures { IsRootTurn (claims_of root.now) editing result (with_editing self.old editing) (with_editing self.new result) }
    {
        match root_tree(self.seats.as_slice()) {
            Some(tree) => {
                self.tree_turn(&mut editing.root, tree.tag, root);
                give_back(self.seats.as_slice(), &editing, &mut self.pool);
                editing
            }
            // an edit has root's tables
            None => unreachable!(),
        }
    }

    /// A turn of the removal of the tables of the cell that goes. What is wanted isn't looked at.
    fn remove_turn(&mut self, id: u32, mut edit: Edit, root: Edit, t: &Target) -> Editing
        requires cells { length t.now.cells.now ≤ 15 }
        requires under { (rootward : Claims) × ((coming : Claims) × IsUnderWay rootward coming (with_editing self.old (record { root = root; cell = AnyPart.Remove id edit })) (record { root = root; cell = AnyPart.Remove id edit })) }
        requires left { 0 < edit.left }
        ensures { (edit' : EditView) × IsRemoveTurn (want_of (claims_of t.now)) id edit edit' (record { root = root; cell = AnyPart.Remove id edit }) result (with_editing self.old (record { root = root; cell = AnyPart.Remove id edit })) (with_editing self.new result) }
    {
        match cell_tree(self.seats.as_slice(), id) {
            Some(tree) => {
                self.tree_turn(&mut edit, tree.tag, t);
                settle(self.seats.as_mut_slice(), id, &edit);
                let cell = CellPart::Remove { id, edit };
                let editing = Editing { root, cell };
                give_back(self.seats.as_slice(), &editing, &mut self.pool);
                editing
            }
            // a cell whose tables are taken away has some
            None => unreachable!(),
        }
    }

    /// A turn of the tables of the cell that comes, whose communication page is that of its seat.
    fn build_turn(&mut self, id: u32, mut edit: Edit, root: Edit, cell: &Target) -> Editing
        requires cells { length cell.now.cells.now ≤ 15 }
        requires under { (rootward : Claims) × IsUnderWay rootward (claims_of cell.now) (with_editing self.old (record { root = root; cell = AnyPart.Build id edit })) (record { root = root; cell = AnyPart.Build id edit }) }
        requires left { 0 < edit.left }
        requires behind { root.left ≡ 0 }
        ensures { (edit' : EditView) × IsBuildTurn (claims_of cell.now) id edit edit' (record { root = root; cell = AnyPart.Build id edit }) result (with_editing self.old (record { root = root; cell = AnyPart.Build id edit })) (with_editing self.new result) }
    {
        let seats = self.seats.as_slice();
        match cell_tree(seats, id) {
            Some(tree) => {
                let comm = cell_page(seats, id);
                let target = Target { comm, ..*cell };
                self.tree_turn(&mut edit, tree.tag, &target);
                let cell = CellPart::Build { id, edit };
                Editing { root, cell }
            }
            // a cell that is built has tables
            None => unreachable!(),
        }
    }

    /// The turn in which the coming cell gets its communication page and its first table, and the lowest tag that is free.
    fn fresh_turn(&mut self, id: u32, root: Edit, cell: &Target) -> Editing
        requires cells { length cell.now.cells.now ≤ 15 }
        requires under { (rootward : Claims) × ((bound : ℕ) × IsUnderWay rootward (claims_of cell.now) (with_editing self.old (record { root = root; cell = AnyPart.Fresh id bound })) (record { root = root; cell = AnyPart.Fresh id bound })) }
        requires behind { root.left ≡ 0 }
        ensures { (bound : ℕ) → (edit' : EditView) × IsFreshTurn (claims_of cell.now) id bound edit' (record { root = root; cell = AnyPart.Fresh id bound }) result (with_editing self.old (record { root = root; cell = AnyPart.Fresh id bound })) (with_editing self.new result) }
    {
        let comm = free_page(&mut self.pool);
        let table = free_page(&mut self.pool);
        let tag = lowest_tag(self.seats.as_slice());
        let target = Target { comm, ..*cell };
        clear_table(&target, &mut self.frames, table);
        let edit = Edit::new(table, &target, &self.frames);
        self.seats.push_reserved(Seat {
            id,
            comm: Some(comm),
            tree: Some(Tree { table, tag }),
        });
        let cell = CellPart::Build { id, edit };
        Editing { root, cell }
    }

    /// A turn of the cell's part.
    fn cell_turn(&mut self, editing: Editing, root: &Target, cell: &Target) -> Editing
        requires root { length root.now.cells.now ≤ 15 }
        requires cell { length cell.now.cells.now ≤ 15 }
        requires under { IsUnderWay (claims_of root.now) (claims_of cell.now) (with_editing self.old editing) editing }
        requires left { 0 < left_of editing }
        requires next { is_root_next editing ≡ false }
        ensures { IsCellTurn (claims_of root.now) (claims_of cell.now) editing.cell editing result (with_editing self.old editing) (with_editing self.new result) }
    {
        let Editing {
            root: rooted,
            cell: part,
        } = editing;
        match part {
            CellPart::Fresh { id, bound: _ } => self.fresh_turn(id, rooted, cell),
            CellPart::Build { id, edit } => self.build_turn(id, edit, rooted, cell),
            CellPart::Remove { id, edit } => self.remove_turn(id, edit, rooted, root),
            // root's turns are all that there are
            CellPart::Unchanged => unreachable!(),
        }
    }

    /// One turn of the edit.
    fn one_turn(&mut self, editing: Editing, root: &Target, cell: &Target) -> Editing
        requires root { length root.now.cells.now ≤ 15 }
        requires cell { length cell.now.cells.now ≤ 15 }
        requires under { IsUnderWay (claims_of root.now) (claims_of cell.now) (with_editing self.old editing) editing }
        requires left { 0 < left_of editing }
        ensures { IsOneTurn (claims_of root.now) (claims_of cell.now) editing result (with_editing self.old editing) (with_editing self.new result) }
    {
        if editing.is_root_next() {
            self.root_turn(editing, root)
        } else {
            self.cell_turn(editing, root, cell)
        }
    }

    /// One turn of the edit under way, to what root and the cell that comes want; how many turns are left then. It takes no
    /// memory. `cell` isn't looked at where none comes, and the communication page that a target of a cell has is that of its
    /// seat, whatever `cell` says.
    pub fn edit_turn(&mut self, root: &Target, cell: &Target) -> u64
        requires root { length root.now.cells.now ≤ 15 }
        requires cell { length cell.now.cells.now ≤ 15 }
        requires under { HasTurn (claims_of root.now) (claims_of cell.now) self.old }
        ensures turn { (editing : AnyEditing) → self.old.editing ≡ Some editing → IsTurned (claims_of root.now) (claims_of cell.now) editing self.old self.new }
        ensures forest { (claims : AnySeat → Claims) → IsForest claims self.old → IsForest claims self.new }
        ensures edit { (editing : AnyEditing) → self.new.editing ≡ Some editing → IsEdit (claims_of root.now) (claims_of cell.now) self.new editing }
        ensures left { (editing : AnyEditing) → self.new.editing ≡ Some editing → result ≡ left_of editing }
        ensures falls { (editing : AnyEditing) → self.old.editing ≡ Some editing → result < left_of editing }
    {
        turns_keep_the_forest();
        match self.editing.take() {
            Some(editing) => {
                let editing = self.one_turn(editing, root, cell);
                let left = left_of(&editing);
                self.editing = Some(editing);
                left
            }
            // an edit is under way
            None => unreachable!(),
        }
    }
}
