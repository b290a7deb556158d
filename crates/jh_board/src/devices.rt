//! What entries do to the devices of a board.
ghost use Rattle.std.specs.Prelude.{◌≡◌, ◌≤◌, ◌<◌, ◌+◌, ◌^◌, All, IfSome, OnOk, length};
ghost use Rattle.std.specs.Option.{option_to_list};
ghost use Rattle.jh_ivshmem.specs.Specs.{IsInItsLimits, endpoint_word_of};
ghost use Rattle.jh_ivshmem.specs.declared.spec.EndpointWord.{EndpointWord as TheEndpointWord};
ghost use Rattle.jh_history.specs.declared.place.Place.{Place as ThePlace};
ghost use Rattle.jh_history.specs.declared.device_change.DeviceChange.TheVariants.{Join as Joins};
ghost use Rattle.jh_history.specs.Access.{with_endpoint_word_if};
ghost use Rattle.jh_history.specs.Devices.{specs_of, specs_at};
ghost use Rattle.jh_history.specs.Endpoints.{endpoints_changed, with_words, HasGoodDevices, MayJoinThem, MayChange};
ghost use Rattle.jh_board.specs.Pages.{byte_of, HoldsPlace, HoldsEndpointWord, HoldsWordOf, KeepsTables};
ghost use Rattle.jh_board.specs.Private.Pages.{MayHoldWordOf};

use crate::memory::Memory;
use jh_cellcfg::CellConfig;
use jh_history::{DeviceChange, endpoint_of};
use jh_ivshmem::{EndpointSpec, EndpointWord, Endpoints};
use jh_num::NoMemory;

/// The endpoint's word of its state table, with the value 0.
fn cleared_word(spec: &EndpointSpec) -> EndpointWord
    requires { IsInItsLimits spec.now }
    ensures { result ≡ endpoint_word_of spec.now 0 }
{
    EndpointWord {
        place: spec.table + 4 * u64::from(spec.id),
        value: 0,
    }
}

/// The endpoint of the cell's device of that number, where it is an ivshmem device.
fn spec_at(config: &CellConfig, number: usize) -> Option<EndpointSpec>
    requires number { number < length config.now.pci_devices }
    requires good { HasGoodDevices config.now }
    ensures { option_to_list result ≡ specs_at config.now number }
{
    endpoint_of(config, number, &config.pci_devices.as_slice()[number])
}

/// Holds the pages of the word of the device of that number, where it is an ivshmem device.
fn hold_device(memory: &mut Memory, config: &CellConfig, number: usize) -> Result<(), NoMemory>
    requires number { number < length config.now.pci_devices }
    requires good { HasGoodDevices config.now }
    requires within { All IsInItsLimits (specs_at config.now number) }
    requires beside { All (MayHoldWordOf memory.old) (specs_at config.now number) }
    ensures bytes { (q : ThePlace) → byte_of memory.new q ≡ byte_of memory.old q }
    ensures held { OnOk result (All (HoldsWordOf memory.new) (specs_at config.now number)) }
    ensures others { (q : ThePlace) → HoldsPlace memory.old q → HoldsPlace memory.new q }
    ensures tables { KeepsTables memory.old memory.new }
{
    match spec_at(config, number) {
        Some(spec) => memory.hold_endpoint_word(&cleared_word(&spec)),
        None => Ok(()),
    }
}

/// Takes all memory that the devices of a cell with the configuration need: room for their endpoints, and the pages of
/// their words of the state tables. No byte changes, and no endpoint.
pub fn prepare_devices(
    memory: &mut Memory,
    endpoints: &mut Endpoints,
    config: &CellConfig,
) -> Result<(), NoMemory>
    requires good { HasGoodDevices config.now }
    requires within { All IsInItsLimits (specs_of config.now) }
    requires beside { All (MayHoldWordOf memory.old) (specs_of config.now) }
    ensures list { endpoints.new.list ≡ endpoints.old.list }
    ensures room { OnOk result (length (specs_of config.now) ≤ endpoints.new.spare) }
    ensures spare { endpoints.old.spare ≤ endpoints.new.spare }
    ensures bytes { (q : ThePlace) → byte_of memory.new q ≡ byte_of memory.old q }
    ensures held { OnOk result (All (HoldsWordOf memory.new) (specs_of config.now)) }
    ensures others { (q : ThePlace) → HoldsPlace memory.old q → HoldsPlace memory.new q }
    ensures tables { KeepsTables memory.old memory.new }
{
    endpoints.reserve(config.pci_devices.len())?;
    for number in 0..config.pci_devices.len() {
        hold_device(memory, config, number)?;
    }
    Ok(())
}

/// Makes the change at the device of that number, where it is an ivshmem device, and writes 0 as its word of the state table.
/// It takes no memory.
fn change_device(
    memory: &mut Memory,
    endpoints: &mut Endpoints,
    change: DeviceChange,
    config: &CellConfig,
    number: usize,
)
    requires number { number < length config.now.pci_devices }
    requires good { HasGoodDevices config.now }
    requires within { All IsInItsLimits (specs_at config.now number) }
    requires new { change ≡ Joins → All (MayJoinThem endpoints.old.list) (specs_at config.now number) }
    requires room { change ≡ Joins → length (specs_at config.now number) ≤ endpoints.old.spare }
    requires held { All (HoldsWordOf memory.old) (specs_at config.now number) }
    ensures bytes { (q : ThePlace) → byte_of memory.new q ≡ with_words (specs_at config.now number) (byte_of memory.old) q }
    ensures list { endpoints.new.list ≡ endpoints_changed change (specs_at config.now number) endpoints.old.list }
    ensures spare { endpoints.old.spare ≤ endpoints.new.spare + length (specs_at config.now number) }
    ensures held { (q : ThePlace) → HoldsPlace memory.old q → HoldsPlace memory.new q }
    ensures tables { KeepsTables memory.old memory.new }
{
    let Some(spec) = spec_at(config, number) else {
        return;
    };
    match change.apply(endpoints, spec) {
        Ok(word) => memory.write_endpoint_word(&word),
        // there is room, and the device may change
        Err(_) => unreachable!(),
    }
}

/// Makes the change at all devices of the cell, in order, and writes 0 as their words of the state tables. It takes no memory.
pub fn change_devices(
    memory: &mut Memory,
    endpoints: &mut Endpoints,
    change: DeviceChange,
    config: &CellConfig,
)
    requires may { MayChange change endpoints.old.list config.now }
    requires room { change ≡ Joins → length (specs_of config.now) ≤ endpoints.old.spare }
    requires held { All (HoldsWordOf memory.old) (specs_of config.now) }
    ensures bytes { (q : ThePlace) → byte_of memory.new q ≡ with_words (specs_of config.now) (byte_of memory.old) q }
    ensures list { endpoints.new.list ≡ endpoints_changed change (specs_of config.now) endpoints.old.list }
    ensures held { (q : ThePlace) → HoldsPlace memory.old q → HoldsPlace memory.new q }
    ensures tables { KeepsTables memory.old memory.new }
{
    for number in 0..config.pci_devices.len() {
        change_device(memory, endpoints, change, config, number);
    }
}

/// Writes the word of a state table, where there is one to write. It takes no memory.
pub fn write_endpoint_word_if(memory: &mut Memory, word: Option<EndpointWord>)
    requires small { IfSome word (λ (s : TheEndpointWord). s.place + 4 < 2 ^ 64) }
    requires held { IfSome word (HoldsEndpointWord memory.old) }
    ensures bytes { (q : ThePlace) → byte_of memory.new q ≡ with_endpoint_word_if word (byte_of memory.old) q }
    ensures held { (q : ThePlace) → HoldsPlace memory.old q → HoldsPlace memory.new q }
    ensures tables { KeepsTables memory.old memory.new }
{
    if let Some(word) = &word {
        memory.write_endpoint_word(word);
    }
}
