//! Reading and writing the words of the page. A page has 4,096 bytes.
ghost use Rattle.std.specs.Prelude.{◌≡◌, ℕ, ◌+◌, ◌<◌, ◌≤◌, length, slice_index};
ghost use Rattle.jh_num.specs.Memory.{stored};
ghost use Rattle.jh_comm.specs.Page.{word_in, state_in, message_in, reply_in, with_state, sent, fresh_page};

use byteorder::{ByteOrder, LittleEndian};

/// The first bytes of a page.
const SIGNATURE: &[u8; 6] = b"JHCOMM";

/// The revision of its layout.
const REVISION: u16 = 1;

/// Where it stands.
const REVISION_AT: usize = 6;

/// Where the state of the cell stands, in bytes from the start of the page.
pub const STATE_AT: usize = 8;

/// Where the message to the cell stands, in bytes from the start of the page.
pub const MESSAGE_AT: usize = 12;

/// Where the cell's reply stands, in bytes from the start of the page.
pub const REPLY_AT: usize = 16;

/// Where the console stands.
const CONSOLE_AT: usize = 24;

/// Where the address of the ECAM window stands.
const MMCONFIG_AT: usize = 56;

/// Writes the bytes from the offset on.
fn put(page: &mut [u8], at: usize, bytes: &[u8])
    requires { at + length bytes.now ≤ length page.old }
    ensures { (k : ℕ) → slice_index page.new k ≡ stored (λ j. slice_index page.old j) at bytes.now k }
{
    page[at..at + bytes.len()].copy_from_slice(bytes);
}

/// The number of 32 bits at the offset.
fn word(page: &[u8], at: usize) -> u32
    requires { at + 4 ≤ length page.now }
    ensures { result ≡ word_in (λ j. slice_index page.now j) at }
{
    u32::from_le_bytes([page[at], page[at + 1], page[at + 2], page[at + 3]])
}

/// Writes a fresh page over whatever stood there: the cell's state and its console (the bytes of its
/// configuration), no message and no reply, and the address at which the ECAM window begins.
pub fn fresh(page: &mut [u8], state: u32, console: &[u8; 32], mmconfig: u64)
    requires { length page.old ≡ 4096 }
    ensures { (k : ℕ) → k < 4096 → slice_index page.new k ≡ fresh_page state console.now mmconfig k }
{
    page.fill(0);
    put(page, 0, SIGNATURE);
    LittleEndian::write_u16(&mut page[REVISION_AT..REVISION_AT + 2], REVISION);
    set_state(page, state);
    put(page, CONSOLE_AT, console);
    LittleEndian::write_u64(&mut page[MMCONFIG_AT..MMCONFIG_AT + 8], mmconfig);
}

/// Sends the cell a message, and clears its reply: there is none to this one yet.
pub fn send(page: &mut [u8], message: u32)
    requires { length page.old ≡ 4096 }
    ensures { (k : ℕ) → k < 4096 → slice_index page.new k ≡ sent (λ j. slice_index page.old j) message k }
{
    put(page, REPLY_AT, &[0; 4]);
    LittleEndian::write_u32(&mut page[MESSAGE_AT..MESSAGE_AT + 4], message);
}

/// Puts the cell into the state: writes the four bytes from offset 8 on.
pub fn set_state(page: &mut [u8], state: u32)
    requires { length page.old ≡ 4096 }
    ensures { (k : ℕ) → k < 4096 → slice_index page.new k ≡ with_state (λ j. slice_index page.old j) state k }
{
    LittleEndian::write_u32(&mut page[STATE_AT..STATE_AT + 4], state);
}

/// The cell's state, the number of 32 bits at offset 8.
pub fn state(page: &[u8]) -> u32
    requires { length page.now ≡ 4096 }
    ensures { result ≡ state_in (λ j. slice_index page.now j) }
{
    word(page, STATE_AT)
}

/// What the cell replied, the number of 32 bits at offset 16; 0 where it didn't.
pub fn reply(page: &[u8]) -> u32
    requires { length page.now ≡ 4096 }
    ensures { result ≡ reply_in (λ j. slice_index page.now j) }
{
    word(page, REPLY_AT)
}

/// The last message that the cell was sent, the number of 32 bits at offset 12; 0 where there is none.
pub fn message(page: &[u8]) -> u32
    requires { length page.now ≡ 4096 }
    ensures { result ≡ message_in (λ j. slice_index page.now j) }
{
    word(page, MESSAGE_AT)
}
