//! Bytes at places: those of physical memory, and those of communication pages, which are pages of the hypervisor's.
ghost use Rattle.std.specs.Prelude.{◌≡◌, ℕ, ◌+◌, ◌*◌, ◌%◌, ◌<◌, ◌≤◌, ◌^◌, ◌++◌, true, false, find, option_copied, None, IfOk, OnOk, OnErr, IfSome, length, map, List, All};
ghost use Rattle.jh_num.specs.declared.address.TheConstants.{ADDRESS_END};
ghost use Rattle.jh_num.specs.Memory.{spelled, stored};
ghost use Rattle.jh_frames.specs.Memory.{byte_at};
ghost use Rattle.jh_history.specs.declared.place.Place.{Place as ThePlace};
ghost use Rattle.jh_history.specs.Access.{with_endpoint_word};
ghost use Rattle.jh_history.specs.Pages.{with_page};
ghost use Rattle.jh_history.specs.Places.{further, number_of, places_in_row, places_of_row, IsRow, with_byte, written, overlaid};
ghost use Rattle.jh_frames.specs.Memory.{is_own};
ghost use Rattle.jh_shape.specs.Claims.{Claims, claims_of};
ghost use Rattle.jh_shape.specs.Pages.{tables_of};
ghost use Rattle.jh_shape.specs.SoundClaims.{AreSoundClaims};
ghost use Rattle.jh_edit.specs.declared.stage.Seat.{Seat as TheSeat};
ghost use Rattle.jh_edit.specs.Forest.{GrantsNothingOf, IsForest, IsLoneRoot};
ghost use Rattle.jh_edit.specs.Planned.{MayPlan};
ghost use Rattle.jh_edit.specs.Seats.{is_seat_of};
ghost use Rattle.jh_board.specs.Pages.{byte_of, HoldsPlace, HoldsEndpointWord, KeepsTables, LiesAlike};
ghost use Rattle.jh_board.specs.Seats.{comm_of, ids_of, AreCellSeats, IsOwnPage, IsSeated};
ghost use Rattle.jh_board.specs.Private.HavePages.{HavePagesElse, HavePagesToCreate};
ghost use Rattle.jh_board.specs.Private.Editing.{claims_planned, ids_planned, HasCome, StaysBy};
ghost use Rattle.jh_board.specs.Private.Pages.{MayHold, MayHoldEndpointWord};

use crate::editing::edit_tables;
use crate::page::change_words;
use byteorder::{ByteOrder, LittleEndian};
use jh_cellcfg::MAX_CPUS;
use jh_edit::{
    Planned, Seat, Stage2, a_write_outside_tables_keeps_the_forest, planned_edits_have_pages,
};
use jh_frames::a_page_is_written_back;
use jh_history::{Bytes, PageWrite, Place, Places, Row, endpoint_word_places, value_of};
use jh_ivshmem::EndpointWord;
use jh_num::{ADDRESS_END, NoMemory, PAGE_SIZE};
use jh_shape::Target;
use std::alloc::Global;
use std::marker::Model;

/// The memory of a board: physical memory, in which the tables of all cells stand, and the pool of the hypervisor's pages,
/// which are tables and communication pages.
#[derive(Drop)]
pub struct Memory {
    /// Where the hypervisor's memory begins.
    base: u64,
    stage: Stage2,
}

impl Model for Memory {
    ghost use Rattle.jh_edit.specs.declared.stage.Stage2.{Stage2};
    ghost use Rattle.jh_board.specs.Private.Seated.{IsSoundMemory};

    ghost Value = { Stage2 };

    ghost view = { λ m. m.stage };

    ghost invariant = { λ m. IsSoundMemory m.base m.stage };
}

/// The seat of the cell with the id.
fn seat_of(seats: &[Seat], id: u64) -> Option<&Seat>
    ensures { option_copied result ≡ find (is_seat_of id) seats.now }
{
    seats.iter().find(|seat| u64::from(seat.id) == id)
}

/// So many bytes of physical memory from the address on.
#[derive(Clone, Copy)]
struct Piece {
    at: u64,
    count: u8,
}

/// So many bytes of the communication page of the cell with the id, from the offset on.
#[derive(Clone, Copy)]
struct PagePiece {
    cell: u32,
    offset: u64,
    count: u8,
}

/// The piece of physical memory that the places are, if they are one.
fn piece_of(places: &Places) -> Option<Piece>
    ensures within { IfSome result (λ piece. piece.at + piece.count ≤ ADDRESS_END) }
    ensures few { IfSome result (λ piece. piece.count ≤ 8) }
    ensures places { IfSome result (λ piece. places.now ≡ places_in_row (Place.Physical piece.at) piece.count) }
{
    let (low, high) = places.rows();
    match low.first {
        Place::Physical(at) => {
            if high.count == 0 && at <= ADDRESS_END - u64::from(low.count) {
                Some(Piece {
                    at,
                    count: low.count,
                })
            } else {
                None
            }
        }
        Place::Page { .. } => None,
    }
}

/// The piece of a communication page that the places are, if they are one.
fn piece_of_page(places: &Places) -> Option<PagePiece>
    ensures within { IfSome result (λ piece. piece.offset + piece.count ≤ 4096) }
    ensures few { IfSome result (λ piece. piece.count ≤ 8) }
    ensures places { IfSome result (λ piece. places.now ≡ places_in_row (ThePlace.Page piece.cell piece.offset) piece.count) }
{
    let (low, high) = places.rows();
    match low.first {
        Place::Page { cell, offset } => {
            if high.count == 0 && offset <= PAGE_SIZE - u64::from(low.count) {
                Some(PagePiece {
                    cell,
                    offset,
                    count: low.count,
                })
            } else {
                None
            }
        }
        Place::Physical(_) => None,
    }
}

/// The place that lies so many places behind the first.
fn place_behind(first: Place, count: u16) -> Place
    requires { number_of first + count < 2 ^ 64 }
    ensures { result ≡ further first count }
{
    match first {
        Place::Physical(at) => Place::Physical(at + u64::from(count)),
        Place::Page { cell, offset } => Place::Page {
            cell,
            offset: offset + u64::from(count),
        },
    }
}

impl Memory {
    /// Memory of zeros, of which the hypervisor has so many pages from `base` on, but for root's tables there, which stand as
    /// the target wants them; root has the id. No other page is held, and no other cell has a seat.
    pub fn open(
        alloc: Global,
        base: u64,
        pages: u32,
        id: u32,
        root: &Target,
    ) -> Result<Self, NoMemory>
        requires aligned { base % 4096 ≡ 0 }
        requires place { base + 4096 * pages ≤ ADDRESS_END }
        requires cells { length root.now.cells.now ≤ 15 }
        requires sound { AreSoundClaims (claims_of root.now) }
        requires enough { tables_of (claims_of root.now) ≤ pages }
        requires apart { GrantsNothingOf (claims_of root.now) base (4096 * pages) }
        ensures bytes { IfOk result (λ memory. (q : ThePlace) → byte_of memory q ≡ 0) }
        ensures base { IfOk result (λ memory. memory.frames.own.base ≡ base) }
        ensures size { IfOk result (λ memory. length memory.frames.own.bytes ≡ 4096 * pages) }
        ensures pages { IfOk result (λ memory. memory.pool.size ≡ pages) }
        ensures forest { IfOk result (λ memory. IsForest (λ seat. claims_of root.now) memory) }
        ensures alone { IfOk result (IsLoneRoot id) }
    {
        let stage = Stage2::open(alloc, base, pages, MAX_CPUS as u8, id, root)?;
        Ok(Memory { base, stage })
    }

    /// The tables of all cells, with the memory that they stand in.
    pub fn stage(&self) -> &Stage2
        ensures { result.now ≡ self.now }
    {
        &self.stage
    }

    /// The pool has the pages that an edit of the tables takes, where it has as many as the cells have after it.
    pub fn edits_have_pages(&self)
        ensures create { HavePagesToCreate self.now }
        ensures others { HavePagesElse self.now }
    {
        planned_edits_have_pages(&self.stage.pool);
    }

    /// Whether so many bytes from the place on lie below or above the hypervisor's memory.
    fn is_beside(&self, at: u64, count: u64) -> bool
        requires { at + count < 2 ^ 64 }
        ensures { result ≡ true → (k : ℕ) → k < count → is_own self.now.frames.own (at + k) ≡ false }
    {
        at + count <= self.base || self.base + PAGE_SIZE * u64::from(self.stage.pool.size()) <= at
    }

    /// Where the communication page of the cell with the id begins.
    fn comm(&self, id: u64) -> Option<u64>
        ensures page { result ≡ comm_of self.now id }
        ensures inside { IfSome result (IsOwnPage self.now.frames.own) }
    {
        match seat_of(self.stage.seats.as_slice(), id) {
            Some(seat) => seat.comm,
            None => None,
        }
    }

    /// The byte at the offset of the communication page of the cell, 0 where it has none and past the page's end.
    fn comm_byte(&self, cell: u32, offset: u64) -> u8
        ensures { result ≡ byte_of self.now (ThePlace.Page cell offset) }
    {
        match self.comm(u64::from(cell)) {
            Some(page) => {
                if offset < PAGE_SIZE {
                    self.stage.frames.read(page + offset)
                } else {
                    0
                }
            }
            None => 0,
        }
    }

    /// The number that the bytes of the piece of a communication page spell, the lowest first.
    fn comm_value(&self, piece: PagePiece) -> u64
        requires within { piece.offset + piece.count ≤ 4096 }
        requires few { piece.count ≤ 8 }
        ensures value { result ≡ spelled (map (byte_of self.now) (places_in_row (ThePlace.Page piece.cell piece.offset) piece.count)) }
        ensures fits { result < 256 ^ piece.count }
    {
        match self.comm(u64::from(piece.cell)) {
            Some(page) => self.stage.frames.value(page + piece.offset, piece.count),
            None => 0,
        }
    }

    /// The number that the bytes at the places spell, the lowest first.
    pub fn value(&self, places: &Places) -> u64
        ensures value { result ≡ spelled (map (byte_of self.now) places.now) }
        ensures fits { result < 256 ^ length places.now }
    {
        if let Some(piece) = piece_of(places) {
            if self.is_beside(piece.at, u64::from(piece.count)) {
                return self.stage.frames.value(piece.at, piece.count);
            }
        }
        match piece_of_page(places) {
            Some(piece) => self.comm_value(piece),
            None => value_of(self, places),
        }
    }

    /// Puts the bytes at so many places in a row behind those of the buffer, one by one.
    fn append_bytes(&self, bytes: &mut Vec<u8>, first: Place, count: u16) -> Result<(), NoMemory>
        requires { number_of first + count < 2 ^ 64 }
        ensures { OnOk result (bytes.new.items ≡ bytes.old.items ++ map (byte_of self.now) (places_in_row first count)) }
    {
        for k in 0..count {
            bytes.push(self.byte(place_behind(first, k)))?;
        }
        Ok(())
    }

    /// Puts the bytes at so many places in a row behind those of the buffer.
    pub fn append(&self, bytes: &mut Vec<u8>, first: Place, count: u16) -> Result<(), NoMemory>
        requires { number_of first + count < 2 ^ 64 }
        ensures { OnOk result (bytes.new.items ≡ bytes.old.items ++ map (byte_of self.now) (places_in_row first count)) }
    {
        let len = usize::from(count);
        if let Place::Physical(at) = first {
            if self.is_beside(at, u64::from(count)) {
                return self.stage.frames.append(bytes, at, len);
            }
        }
        self.append_bytes(bytes, first, count)
    }

    /// Holds the page of the place.
    fn hold_place(&mut self, place: Place) -> Result<(), NoMemory>
        requires { MayHold self.old place }
        ensures bytes { (q : ThePlace) → byte_of self.new q ≡ byte_of self.old q }
        ensures held { OnOk result (HoldsPlace self.new place) }
        ensures others { (q : ThePlace) → HoldsPlace self.old q → HoldsPlace self.new q }
        ensures tables { KeepsTables self.old self.new }
    {
        a_write_outside_tables_keeps_the_forest();
        match place {
            Place::Physical(address) => self.stage.frames.hold(address),
            Place::Page { .. } => Ok(()),
        }
    }

    /// Holds the pages of the row.
    fn hold_row(&mut self, row: Row) -> Result<(), NoMemory>
        requires row { IsRow row }
        requires may { All (MayHold self.old) (places_of_row row) }
        ensures bytes { (q : ThePlace) → byte_of self.new q ≡ byte_of self.old q }
        ensures held { OnOk result (All (HoldsPlace self.new) (places_of_row row)) }
        ensures others { (q : ThePlace) → HoldsPlace self.old q → HoldsPlace self.new q }
        ensures tables { KeepsTables self.old self.new }
    {
        for k in 0..row.count {
            self.hold_place(row.first.further(k))?;
        }
        Ok(())
    }

    /// Holds the pages of the places. No byte changes.
    fn hold_places(&mut self, places: &Places) -> Result<(), NoMemory>
        requires { All (MayHold self.old) places.now }
        ensures bytes { (q : ThePlace) → byte_of self.new q ≡ byte_of self.old q }
        ensures held { OnOk result (All (HoldsPlace self.new) places.now) }
        ensures others { (q : ThePlace) → HoldsPlace self.old q → HoldsPlace self.new q }
        ensures tables { KeepsTables self.old self.new }
    {
        let (low, high) = places.rows();
        self.hold_row(low)?;
        self.hold_row(high)?;
        Ok(())
    }

    /// Writes the byte at a place of physical memory that is held.
    fn write_physical(&mut self, address: u64, byte: u8)
        requires { HoldsPlace self.old (ThePlace.Physical address) }
        ensures bytes { (q : ThePlace) → byte_of self.new q ≡ with_byte (byte_of self.old) (ThePlace.Physical address) byte q }
        ensures held { (q : ThePlace) → HoldsPlace self.old q → HoldsPlace self.new q }
        ensures tables { KeepsTables self.old self.new }
    {
        a_write_outside_tables_keeps_the_forest();
        self.stage.frames.set(address, byte);
    }

    /// Writes the byte at the offset of the communication page of a cell.
    fn write_comm(&mut self, cell: u32, offset: u64, byte: u8)
        requires { HoldsPlace self.old (ThePlace.Page cell offset) }
        ensures bytes { (q : ThePlace) → byte_of self.new q ≡ with_byte (byte_of self.old) (ThePlace.Page cell offset) byte q }
        ensures held { (q : ThePlace) → HoldsPlace self.old q → HoldsPlace self.new q }
        ensures tables { KeepsTables self.old self.new }
    {
        a_write_outside_tables_keeps_the_forest();
        match self.comm(u64::from(cell)) {
            Some(page) => self.stage.frames.set(page + offset, byte),
            // the cell has a page
            None => unreachable!(),
        }
    }

    /// Writes the byte at a place that is held.
    fn write_place(&mut self, place: Place, byte: u8)
        requires { HoldsPlace self.old place }
        ensures bytes { (q : ThePlace) → byte_of self.new q ≡ with_byte (byte_of self.old) place byte q }
        ensures held { (q : ThePlace) → HoldsPlace self.old q → HoldsPlace self.new q }
        ensures tables { KeepsTables self.old self.new }
    {
        match place {
            Place::Physical(address) => self.write_physical(address, byte),
            Place::Page { cell, offset } => self.write_comm(cell, offset, byte),
        }
    }

    /// Writes the value over the places of the row, which are held, the lowest byte first, and tells what
    /// is left of it.
    fn write_row(&mut self, row: Row, value: u64) -> u64
        requires row { IsRow row }
        requires held { All (HoldsPlace self.old) (places_of_row row) }
        ensures bytes { (places : List ThePlace) (q : ThePlace) → overlaid places result q (byte_of self.new q) ≡ overlaid (places_of_row row ++ places) value q (byte_of self.old q) }
        ensures held { (q : ThePlace) → HoldsPlace self.old q → HoldsPlace self.new q }
        ensures tables { KeepsTables self.old self.new }
    {
        let mut rest = value;
        for k in 0..row.count {
            self.write_place(row.first.further(k), (rest % 256) as u8);
            rest /= 256;
        }
        rest
    }

    /// Writes the value over places that are held, the lowest byte first.
    fn write_places(&mut self, places: &Places, value: u64)
        requires { All (HoldsPlace self.old) places.now }
        ensures bytes { (q : ThePlace) → byte_of self.new q ≡ written (byte_of self.old) places.now value q }
        ensures held { (q : ThePlace) → HoldsPlace self.old q → HoldsPlace self.new q }
        ensures tables { KeepsTables self.old self.new }
    {
        let (low, high) = places.rows();
        let rest = self.write_row(low, value);
        // what is left of the value has no place
        let _rest = self.write_row(high, rest);
    }

    /// Writes the value over the places, the lowest byte first.
    pub fn write_value(&mut self, places: &Places, value: u64) -> Result<(), NoMemory>
        requires { All (MayHold self.old) places.now }
        ensures ok { OnOk result ((q : ThePlace) → byte_of self.new q ≡ written (byte_of self.old) places.now value q) }
        ensures err { OnErr result ((q : ThePlace) → byte_of self.new q ≡ byte_of self.old q) }
        ensures held { (q : ThePlace) → HoldsPlace self.old q → HoldsPlace self.new q }
        ensures tables { KeepsTables self.old self.new }
    {
        a_write_outside_tables_keeps_the_forest();
        match piece_of(places) {
            Some(piece) => {
                let mut bytes = [0; 8];
                LittleEndian::write_u64(&mut bytes, value);
                self.stage
                    .frames
                    .write(piece.at, &bytes[..usize::from(piece.count)])?;
                Ok(())
            }
            None => {
                self.hold_places(places)?;
                self.write_places(places, value);
                Ok(())
            }
        }
    }

    /// Holds the pages of the word of a state table. No byte changes.
    pub fn hold_endpoint_word(&mut self, word: &EndpointWord) -> Result<(), NoMemory>
        requires place { word.now.place + 4 ≤ ADDRESS_END }
        requires may { MayHoldEndpointWord self.old word.now }
        ensures bytes { (q : ThePlace) → byte_of self.new q ≡ byte_of self.old q }
        ensures held { OnOk result (HoldsEndpointWord self.new word.now) }
        ensures others { (q : ThePlace) → HoldsPlace self.old q → HoldsPlace self.new q }
        ensures tables { KeepsTables self.old self.new }
    {
        self.hold_places(&endpoint_word_places(word))
    }

    /// Writes the word of a state table, the pages of which are held. It takes no memory.
    pub fn write_endpoint_word(&mut self, word: &EndpointWord)
        requires small { word.now.place + 4 < 2 ^ 64 }
        requires held { HoldsEndpointWord self.old word.now }
        ensures bytes { (q : ThePlace) → byte_of self.new q ≡ with_endpoint_word word.now (byte_of self.old) q }
        ensures held { (q : ThePlace) → HoldsPlace self.old q → HoldsPlace self.new q }
        ensures tables { KeepsTables self.old self.new }
    {
        self.write_places(&endpoint_word_places(word), u64::from(word.value));
    }

    /// Puts the bytes into physical memory from `at` on, beside the hypervisor's.
    pub fn store(&mut self, at: u64, bytes: &[u8]) -> Result<(), NoMemory>
        requires below { at + length bytes.now ≤ ADDRESS_END }
        requires beside { (k : ℕ) → k < length bytes.now → is_own self.old.frames.own (at + k) ≡ false }
        ensures bytes { OnOk result ((q : ℕ) → byte_of self.new (Place.Physical q) ≡ stored (λ p. byte_of self.old (Place.Physical p)) at bytes.now q) }
        ensures pages { OnOk result ((cell offset : ℕ) → byte_of self.new (Place.Page cell offset) ≡ byte_of self.old (Place.Page cell offset)) }
        ensures tables { KeepsTables self.old self.new }
    {
        a_write_outside_tables_keeps_the_forest();
        self.stage.frames.write(at, bytes)
    }

    /// Edits the tables of all cells to what root and the cell that comes want after a call. A cell that comes gets a seat and a
    /// communication page, and one that goes has neither any more. It takes no memory.
    pub fn edit(&mut self, root: &Target, cell: &Target, planned: Planned)
        requires root { length root.now.cells.now ≤ 15 }
        requires cell { length cell.now.cells.now ≤ 15 }
        requires may { MayPlan (claims_of root.now) (claims_of cell.now) self.old planned }
        ensures bytes { (q : ThePlace) → StaysBy planned q → byte_of self.new q ≡ byte_of self.old q }
        ensures held { (q : ThePlace) → StaysBy planned q → HoldsPlace self.old q → HoldsPlace self.new q }
        ensures forest { (claims : TheSeat → Claims) → IsForest claims self.old → IsForest (claims_planned (claims_of root.now) (claims_of cell.now) planned claims) self.new }
        ensures still { self.new.editing ≡ None }
        ensures ids { ids_of self.new ≡ ids_planned planned (ids_of self.old) }
        ensures comms { (id : ℕ) → AreCellSeats id self.old → AreCellSeats id self.new }
        ensures come { HasCome planned self.new }
        ensures lies { LiesAlike self.old self.new }
    {
        edit_tables(&mut self.stage, root, cell, planned);
    }

    /// Makes the change to the communication page of a cell.
    pub fn change_page(&mut self, write: &PageWrite)
        requires { IsSeated self.old write.now.cell }
        ensures bytes { (q : ThePlace) → byte_of self.new q ≡ with_page write.now (byte_of self.old) q }
        ensures held { (q : ThePlace) → HoldsPlace self.old q → HoldsPlace self.new q }
        ensures tables { KeepsTables self.old self.new }
    {
        a_write_outside_tables_keeps_the_forest();
        let Some(page) = self.comm(u64::from(write.cell)) else {
            // the cell has a page
            unreachable!()
        };
        change_words(self.stage.frames.page_mut(page), &write.change);
        a_page_is_written_back();
    }
}

impl Bytes for Memory {
    ghost use Rattle.jh_board.specs.Pages.{byte_of};

    ghost byte_of = { byte_of };

    fn byte(&self, place: Place) -> u8 {
        match place {
            Place::Physical(address) => {
                if self.stage.frames.is_own(address) {
                    0
                } else {
                    self.stage.frames.read(address)
                }
            }
            Place::Page { cell, offset } => self.comm_byte(cell, offset),
        }
    }
}
