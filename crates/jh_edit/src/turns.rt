//! What one turn of an edit does to tables, over any words. Each function does nothing; its contract is the law.
ghost use Rattle.std.specs.Prelude.{◌≡◌, ℕ, ◌+◌, ◌<◌, ◌≤◌, ◌⊎◌, ◌↔◌, ◌||◌, Some, true, false, length};
ghost use Rattle.jh_desc.specs.declared.descriptor.Hit.{Hit as AnyHit};
ghost use Rattle.jh_frames.specs.Memory.{FramesView};
ghost use Rattle.jh_pool.specs.Pages.{is_free, used_of, IsTakenPage, PoolView};
ghost use Rattle.jh_shape.specs.Wanted.{Wants};
ghost use Rattle.jh_edit.specs.Plans.{ahead_count, EditView, EmptySlot, IsEmptySlot, Plans};
ghost use Rattle.jh_edit.specs.Trees.{lack_of, walked};
ghost use Rattle.jh_edit.specs.Tables.{is_mine, is_over, words, AreTables, HasTaken, IsPoolOf, WantsTablesBelowTables};
ghost use Rattle.jh_walk.specs.Pages.{Grows};
ghost use Rattle.jh_walk.specs.Walks.{levels, walk_of};
ghost use Rattle.jh_edit.specs.Moves.{is_flushed, tables_linked, written_page, IsPoolAfter, IsTurn, Move as AnyMove};
ghost use Rattle.jh_edit.specs.Turns.{Breaks, KeepsRight, LeavesAlone};

/// A turn keeps the plan, but for the last one of a removal.
pub fn turns_keep_the_plan()
    ensures { (frames frames' : FramesView) (old new : EditView) (want : Wants) (move : AnyMove) → AreTables frames old.table → IsTurn old new want (words frames) (words frames') move
        → Plans old want (words frames) → is_over new ≡ false → Plans new want (words frames') }
{}

/// After a turn each page of the tables is still reached once, begins at a page and is the hypervisor's.
pub fn turns_keep_the_tables_apart()
    ensures { (frames frames' : FramesView) (old new : EditView) (want : Wants) (move : AnyMove) (pool : PoolView) → AreTables frames old.table → IsPoolOf pool frames → HasTaken old (words frames) pool
        → Plans old want (words frames) → frames'.own.base ≡ frames.own.base → length frames'.own.bytes ≡ length frames.own.bytes → IsTurn old new want (words frames) (words frames') move → AreTables frames' new.table }
{}

/// No turn writes one valid word over another: each that was valid is the same, or reads invalid.
pub fn turns_break_before_they_make()
    ensures { (frames frames' : FramesView) (old new : EditView) (want : Wants) (move : AnyMove) → AreTables frames old.table → IsTurn old new want (words frames) (words frames') move
        → Breaks (words frames) (words frames') levels old.table }
{}

/// A turn towards a target leaves each word that is right, below right tables all the way; and where tables are wanted below
/// tables alone, each word that reads as what is wanted of its slot, also below tables that go.
pub fn turns_leave_right_words()
    ensures right { (frames frames' : FramesView) (old new : EditView) (want : Wants) (move : AnyMove) → AreTables frames old.table → old.removing ≡ false → IsTurn old new want (words frames) (words frames') move
        → KeepsRight want (words frames) (words frames') levels old.table 0 }
    ensures alone { (frames frames' : FramesView) (old new : EditView) (want : Wants) (move : AnyMove) → WantsTablesBelowTables want → AreTables frames old.table → old.removing ≡ false
        → IsTurn old new want (words frames) (words frames') move → LeavesAlone want (words frames) (words frames') levels old.table 0 }
{}

/// After a turn a walk finds what one found before, or what is wanted; of a removal what one found before alone. Where no
/// translation need be flushed, it finds all that one found before.
pub fn turns_lead_where_it_is_wanted()
    ensures leaves { (frames frames' : FramesView) (old new : EditView) (want : Wants) (move : AnyMove) → AreTables frames old.table → IsTurn old new want (words frames) (words frames') move
        → (at : ℕ) (hit : AnyHit) → walk_of (words frames') levels old.table at ≡ Some hit → (walk_of (words frames) levels old.table at ≡ Some hit) ⊎ ((old.removing ≡ false) × (walked want levels 0 at ≡ Some hit)) }
    ensures grows { (frames frames' : FramesView) (old new : EditView) (want : Wants) (move : AnyMove) → AreTables frames old.table → IsTurn old new want (words frames) (words frames') move
        → is_flushed move ≡ false → Grows (words frames) (words frames') levels old.table }
{}

/// A turn towards a target leaves as many tables lacking, but for the page ahead: once that is linked, it is one less. And
/// while a slot in which a table is wanted has none, some lack.
pub fn turns_link_what_lacks()
    ensures lacks { (word : ℕ → ℕ) (want : Wants) (table : ℕ) (slot : EmptySlot) → IsEmptySlot want word table slot → 0 < lack_of want word levels table 0 }
    ensures linked { (frames frames' : FramesView) (old new : EditView) (want : Wants) (move : AnyMove) → AreTables frames old.table → old.removing ≡ false → IsTurn old new want (words frames) (words frames') move
        → lack_of want (words frames') levels old.table 0 + tables_linked move ≡ lack_of want (words frames) levels old.table 0 }
{}

/// The pages of the pool that are taken after a turn are those that were, but for the edit's own; and the edit's own now. So
/// a turn takes and gives back its own pages alone, and no page of the edit is free; what is newly its own was free. Towards a target the tables that lack
/// and the pages taken, but for the page ahead, are together no more than before; a removal gives one page back.
pub fn turns_account_for_pages()
    ensures taken { (frames frames' : FramesView) (old new : EditView) (want : Wants) (move : AnyMove) (pool pool' : PoolView) → AreTables frames old.table → Plans old want (words frames) → HasTaken old (words frames) pool
        → IsTurn old new want (words frames) (words frames') move → IsPoolAfter old.table move pool pool'
        → (page : ℕ) → IsTakenPage pool' page ↔ ((IsTakenPage pool page × (is_mine old (words frames) page ≡ false)) ⊎ (is_mine new (words frames') page ≡ true)) }
    ensures fresh { (frames frames' : FramesView) (old new : EditView) (want : Wants) (move : AnyMove) (pool pool' : PoolView) → AreTables frames old.table → Plans old want (words frames)
        → IsTurn old new want (words frames) (words frames') move → IsPoolAfter old.table move pool pool'
        → (page : ℕ) → is_mine new (words frames') page ≡ true → is_mine old (words frames) page ≡ false → is_free pool page ≡ true }
    ensures room { (frames frames' : FramesView) (old new : EditView) (want : Wants) (move : AnyMove) (pool pool' : PoolView) → AreTables frames old.table → old.removing ≡ false
        → IsTurn old new want (words frames) (words frames') move → IsPoolAfter old.table move pool pool'
        → lack_of want (words frames') levels old.table 0 + used_of pool' + ahead_count old.ahead ≤ lack_of want (words frames) levels old.table 0 + used_of pool + ahead_count new.ahead }
    ensures given { (frames frames' : FramesView) (old new : EditView) (want : Wants) (move : AnyMove) (pool pool' : PoolView) → old.removing ≡ true
        → IsTurn old new want (words frames) (words frames') move → IsPoolAfter old.table move pool pool' → used_of pool' + 1 ≡ used_of pool }
{}

/// The page that a turn writes is the edit's before or after it.
pub fn turns_write_their_own_pages()
    ensures { (frames frames' : FramesView) (old new : EditView) (want : Wants) (move : AnyMove) → AreTables frames old.table → Plans old want (words frames) → IsTurn old new want (words frames) (words frames') move
        → (is_mine old (words frames) (written_page old.table move) || is_mine new (words frames') (written_page old.table move)) ≡ true }
{}
