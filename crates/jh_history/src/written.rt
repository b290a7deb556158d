//! Bytes that entries wrote, for the slow plain program.
ghost use Rattle.std.specs.Prelude.{◌≡◌, ℕ, ◌+◌, ◌<◌, ◌^◌, length, fold, IfOk, IfSome, OnOk};
ghost use Rattle.jh_script.specs.declared.image.Image.{Image as TheImage};
ghost use Rattle.jh_history.specs.declared.place.Place.{Place as ThePlace};
ghost use Rattle.jh_history.specs.Places.{places_of_row, IsRow, overlaid};
ghost use Rattle.jh_ivshmem.specs.declared.spec.EndpointWord.{EndpointWord as TheEndpointWord};
ghost use Rattle.jh_history.specs.Access.{with_endpoint_word, with_endpoint_word_if};
ghost use Rattle.jh_history.specs.Bytes.{preloaded, loaded_byte};
ghost use Rattle.jh_history.specs.declared.comm.PageChange.TheVariants.{State, Message, Fresh};
ghost use Rattle.jh_history.specs.Pages.{with_page, with_page_write};
ghost use Rattle.jh_history.specs.Admitted.{IsAdmitted};
ghost use Rattle.jh_history.specs.Private.PlainView.{last_byte, put_in_page, IsRest};

use crate::comm::{PageChange, PageWrite};
use crate::device_write::endpoint_word_places;
use crate::place::{Place, Places, Row};
use jh_comm::{MESSAGE_AT, REPLY_AT, STATE_AT, fresh};
use jh_ivshmem::EndpointWord;
use jh_num::NoMemory;
use jh_script::{Image, Preload};

/// A byte that an entry wrote.
#[derive(Clone, Copy)]
pub struct WrittenByte {
    pub place: Place,
    pub byte: u8,
}

/// The byte at the place after the preload, where it was `before`.
fn preloaded_byte(preload: &Preload, place: u64, before: u8) -> u8
    requires { preload.now.at + length preload.now.bytes < 2 ^ 64 }
    ensures { (f : ℕ → ℕ) → f place ≡ before → result ≡ preloaded f preload.now place }
{
    let bytes = preload.bytes.as_slice();
    if preload.at <= place && place < preload.at + bytes.len() as u64 {
        bytes[(place - preload.at) as usize]
    } else {
        before
    }
}

/// The byte of physical memory that the preloads put at the place; 0 where none puts one.
fn preloads_byte(image: &Image, place: u64) -> u8
    requires { IsAdmitted image.now }
    ensures { result ≡ fold preloaded (λ _. 0) image.now.preloads place }
{
    let mut byte = 0u8;
    for preload in image.preloads.as_slice() {
        byte = preloaded_byte(preload, place, byte);
    }
    byte
}

/// The byte at the place as the preloads put it; 0 in a communication page, and where no preload puts one.
pub(crate) fn loaded_byte(image: &Image, place: Place) -> u8
    requires { IsAdmitted image.now }
    ensures { result ≡ loaded_byte image.now place }
{
    match place {
        Place::Physical(p) => preloads_byte(image, p),
        Place::Page { .. } => 0,
    }
}

/// Writes the value over the places of the row, the lowest byte first, and tells what is left of it.
fn write_row(bytes: &mut Vec<WrittenByte>, row: Row, value: u64) -> Result<u64, NoMemory>
    requires { IsRow row }
    ensures { IfOk result (IsRest bytes.old.items bytes.new.items (places_of_row row) value) }
{
    let mut rest = value;
    for k in 0..row.count {
        bytes.push(WrittenByte {
            place: row.first.further(k),
            byte: (rest % 256) as u8,
        })?;
        rest /= 256;
    }
    Ok(rest)
}

/// Writes the value over the places, the lowest byte first.
pub(crate) fn write_places(
    bytes: &mut Vec<WrittenByte>,
    places: &Places,
    value: u64,
) -> Result<(), NoMemory>
    ensures { OnOk result ((image : TheImage) (q : ThePlace) → last_byte image bytes.new.items q ≡ overlaid places.now value q (last_byte image bytes.old.items q)) }
{
    let (low, high) = places.rows();
    let rest = write_row(bytes, low, value)?;
    write_row(bytes, high, rest)?;
    Ok(())
}

/// Writes the word of a state table.
pub(crate) fn write_endpoint_word(
    bytes: &mut Vec<WrittenByte>,
    word: &EndpointWord,
) -> Result<(), NoMemory>
    requires { word.now.place + 4 < 2 ^ 64 }
    ensures { OnOk result ((image : TheImage) (q : ThePlace) → last_byte image bytes.new.items q ≡ with_endpoint_word word.now (last_byte image bytes.old.items) q) }
{
    write_places(bytes, &endpoint_word_places(word), u64::from(word.value))
}

/// Writes the word of a state table, where there is one to write.
pub(crate) fn write_endpoint_word_if(
    bytes: &mut Vec<WrittenByte>,
    word: Option<EndpointWord>,
) -> Result<(), NoMemory>
    requires { IfSome word (λ (s : TheEndpointWord). s.place + 4 < 2 ^ 64) }
    ensures { OnOk result ((image : TheImage) (q : ThePlace) → last_byte image bytes.new.items q ≡ with_endpoint_word_if word (last_byte image bytes.old.items) q) }
{
    match word {
        Some(word) => write_endpoint_word(bytes, &word),
        None => Ok(()),
    }
}

/// Puts the bytes into the page of the cell, from the offset on.
fn put(bytes: &mut Vec<WrittenByte>, cell: u32, at: usize, list: &[u8]) -> Result<(), NoMemory>
    requires { at + length list.now < 2 ^ 64 }
    ensures { OnOk result ((image : TheImage) (q : ThePlace) → last_byte image bytes.new.items q ≡ put_in_page cell at list.now (last_byte image bytes.old.items) q) }
{
    for (i, byte) in list.iter().enumerate() {
        let offset = (at + i) as u64;
        bytes.push(WrittenByte {
            place: Place::Page { cell, offset },
            byte: *byte,
        })?;
    }
    Ok(())
}

/// Puts a message without a reply into the page of the cell.
fn put_message(bytes: &mut Vec<WrittenByte>, cell: u32, message: u32) -> Result<(), NoMemory>
    ensures { OnOk result ((image : TheImage) (q : ThePlace) → last_byte image bytes.new.items q ≡ with_page (record { cell = cell; change = Message message }) (last_byte image bytes.old.items) q) }
{
    put(bytes, cell, REPLY_AT, &[0; 4])?;
    put(bytes, cell, MESSAGE_AT, &message.to_le_bytes())?;
    Ok(())
}

/// Puts a fresh page for the cell.
fn put_fresh(
    bytes: &mut Vec<WrittenByte>,
    cell: u32,
    state: u32,
    console: [u8; 32],
    window: u64,
) -> Result<(), NoMemory>
    ensures { OnOk result ((image : TheImage) (q : ThePlace) → last_byte image bytes.new.items q ≡ with_page (record { cell = cell; change = Fresh state console window }) (last_byte image bytes.old.items) q) }
{
    let mut page = [0u8; 4096];
    fresh(&mut page, state, &console, window);
    put(bytes, cell, 0, &page)?;
    Ok(())
}

/// Puts the cell's state into its page.
fn put_state(bytes: &mut Vec<WrittenByte>, cell: u32, state: u32) -> Result<(), NoMemory>
    ensures { OnOk result ((image : TheImage) (q : ThePlace) → last_byte image bytes.new.items q ≡ with_page (record { cell = cell; change = State state }) (last_byte image bytes.old.items) q) }
{
    put(bytes, cell, STATE_AT, &state.to_le_bytes())?;
    Ok(())
}

/// Makes the change of the page.
fn write_page(bytes: &mut Vec<WrittenByte>, write: &PageWrite) -> Result<(), NoMemory>
    ensures { OnOk result ((image : TheImage) (q : ThePlace) → last_byte image bytes.new.items q ≡ with_page write.now (last_byte image bytes.old.items) q) }
{
    match write.change {
        PageChange::State(state) => put_state(bytes, write.cell, state),
        PageChange::Message(message) => put_message(bytes, write.cell, message),
        PageChange::Fresh {
            state,
            console,
            window,
        } => put_fresh(bytes, write.cell, state, console, window),
    }
}

/// Makes the change of a communication page, where there is one.
pub(crate) fn write_page_if(
    bytes: &mut Vec<WrittenByte>,
    write: Option<PageWrite>,
) -> Result<(), NoMemory>
    ensures { OnOk result ((image : TheImage) (q : ThePlace) → last_byte image bytes.new.items q ≡ with_page_write write (last_byte image bytes.old.items) q) }
{
    match write {
        Some(write) => write_page(bytes, &write),
        None => Ok(()),
    }
}
