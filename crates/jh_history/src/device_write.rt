//! What a guest's writes do to devices.
ghost use Rattle.std.specs.Prelude.{◌≡◌, ◌+◌, ◌%◌, ◌^◌, ◌<◌};
ghost use Rattle.jh_history.specs.declared.place.Place.TheVariants.{Physical};
ghost use Rattle.jh_history.specs.Places.{places_in_row};
ghost use Rattle.jh_history.specs.Access.{endpoint_word_put, endpoint_word_of_reach};
ghost use Rattle.jh_history.specs.Devices.{Devices as TheDevices};
ghost use Rattle.jh_history.specs.Endpoints.{config_put, register_put, endpoints_put, function_put};

use crate::access::{ConfigBytes, Reach, Register};
use crate::devices::function_number;
use crate::place::{Place, Places};
use jh_cellcfg::PciDevice;
use jh_ivshmem::{EndpointWord, Endpoints};

/// The places of a word of a state table.
pub fn endpoint_word_places(word: &EndpointWord) -> Places
    requires { word.now.place + 4 < 2 ^ 64 }
    ensures { result ≡ places_in_row (Physical word.now.place) 4 }
{
    Places::of_word(Place::Physical(word.place))
}

/// The lowest 32 bits.
fn low_word(value: u64) -> u32
    ensures { result ≡ value % 2 ^ 32 }
{
    (value % 0x1_0000_0000) as u32
}

/// Writes the value to the configuration space of the cell's device of that number.
fn write_function(
    endpoints: &mut Endpoints,
    cell: u32,
    number: u32,
    bytes: &ConfigBytes,
    value: u64,
)
    ensures list { (d : TheDevices) → d.cell ≡ cell → d.endpoints ≡ endpoints.old.list → endpoints.new.list ≡ function_put d bytes.now value number }
    ensures spare { endpoints.new.spare ≡ endpoints.old.spare }
{
    if endpoints.has(cell, number) {
        let space = endpoints.config_mut(cell, number);
        space.write(bytes.offset(), bytes.width(), low_word(value));
    }
}

/// Writes the value in configuration space: to the function that has the bytes, where it is present.
fn write_config(
    endpoints: &mut Endpoints,
    cell: u32,
    list: &[PciDevice],
    bytes: &ConfigBytes,
    value: u64,
)
    ensures list { endpoints.new.list ≡ config_put (record { cell = cell; list = list.now; endpoints = endpoints.old.list }) bytes.now value }
    ensures spare { endpoints.new.spare ≡ endpoints.old.spare }
{
    match function_number(list, bytes) {
        Some(number) => write_function(endpoints, cell, number, bytes, value),
        None => {}
    }
}

/// Writes the value to the register, and tells the write to the state table that comes with it.
fn write_register(
    endpoints: &mut Endpoints,
    cell: u32,
    register: &Register,
    value: u64,
) -> Option<EndpointWord>
    ensures list { (d : TheDevices) → d.cell ≡ cell → d.endpoints ≡ endpoints.old.list → endpoints.new.list ≡ register_put d register.now value }
    ensures word { (d : TheDevices) → d.cell ≡ cell → d.endpoints ≡ endpoints.old.list → result ≡ endpoint_word_put d register.now value }
    ensures spare { endpoints.new.spare ≡ endpoints.old.spare }
{
    let device = register.device();
    if endpoints.has(cell, device) {
        endpoints.write(cell, device, register.bar(), register.at(), low_word(value))
    } else {
        None
    }
}

/// Writes the value of the cell, whose configuration has these devices, where it reaches one, and tells the write to a
/// state table that comes with it. It takes no memory.
pub fn write_device(
    endpoints: &mut Endpoints,
    cell: u32,
    list: &[PciDevice],
    reach: &Reach,
    value: u64,
) -> Option<EndpointWord>
    ensures list { endpoints.new.list ≡ endpoints_put (record { cell = cell; list = list.now; endpoints = endpoints.old.list }) reach.now value }
    ensures word { result ≡ endpoint_word_of_reach (record { cell = cell; list = list.now; endpoints = endpoints.old.list }) reach.now value }
    ensures spare { endpoints.new.spare ≡ endpoints.old.spare }
{
    match reach {
        Reach::Config(bytes) => {
            write_config(endpoints, cell, list, bytes, value);
            None
        }
        Reach::Window(register) => write_register(endpoints, cell, register, value),
        Reach::Memory(_) | Reach::Subpage(_) | Reach::Nothing => None,
    }
}
