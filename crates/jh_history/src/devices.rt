//! The devices of a cell, as its accesses find them.
ghost use Rattle.std.specs.Prelude.{◌≡◌, ◌<◌, ◌++◌, find, IfSome};
ghost use Rattle.jh_mmio.specs.Dispatch.{window_has};
ghost use Rattle.jh_history.specs.Access.{config_value, register_value};
ghost use Rattle.jh_history.specs.Behind.{window_of_access};
ghost use Rattle.jh_history.specs.Devices.{Devices as TheDevices, number_from, number_at, space_window, device_windows};
ghost use Rattle.jh_history.specs.Private.DeviceWindows.{IsGoodWindow};

use crate::access::{ConfigBytes, Register, Wanted};
use crate::device_specs::is_endpoint;
use jh_cellcfg::PciDevice;
use jh_ivshmem::Endpoints;
use jh_mmio::Window;
use jh_vpci::ConfigSpace;
use std::marker::Model;

/// The devices of the configuration of a cell, and the endpoints of all cells.
#[derive(Drop)]
pub(crate) struct Devices<'a> {
    cell: u32,
    list: &'a [PciDevice],
    endpoints: &'a Endpoints,
}

impl<'a> Model for Devices<'a> {
    ghost use Rattle.jh_history.specs.Devices.{Devices as TheDevices};

    ghost Value = { TheDevices };

    ghost view = { λ d. record { cell = d.cell; list = d.list.now; endpoints = d.endpoints.now.list } };
}

/// The number of the first of the devices that is an ivshmem device with that bdf.
fn number_at_bdf(list: &[PciDevice], bdf: u64) -> Option<u32>
    ensures { result ≡ number_from bdf 0 list.now }
{
    for (number, device) in list.iter().enumerate() {
        if is_endpoint(number, device) && u64::from(device.bdf) == bdf {
            return Some(number as u32);
        }
    }
    None
}

/// The number of the cell's device whose function has the bytes of configuration space.
pub(crate) fn function_number(list: &[PciDevice], bytes: &ConfigBytes) -> Option<u32>
    ensures { (d : TheDevices) → d.list ≡ list.now → result ≡ number_at d bytes.now.at }
{
    number_at_bdf(list, bytes.function())
}

/// Whether the window has all bytes of the access.
fn has_access(window: &Window, wanted: &Wanted) -> bool
    requires { 0 < wanted.now.width }
    ensures { result ≡ window_has wanted.now.at wanted.now.width window.now }
{
    wanted.at >= window.start
        && u64::from(wanted.width) <= window.size.saturating_sub(wanted.at - window.start)
}

/// The window of the device's BAR, where it is enabled and has the whole access.
fn bar_window(space: &ConfigSpace, device: u32, bar: u8, wanted: &Wanted) -> Option<Window>
    requires some { 0 < wanted.now.width }
    requires bar { bar < 2 }
    ensures found { result ≡ find (window_has wanted.now.at wanted.now.width) (space_window space.now device bar) }
    ensures good { IfSome result IsGoodWindow }
{
    match space.window(bar) {
        Some(range) => {
            let window = Window {
                start: range.start,
                size: range.end - range.start,
                device,
                bar,
            };
            if has_access(&window, wanted) {
                Some(window)
            } else {
                None
            }
        }
        None => None,
    }
}

/// The first of the device's windows that has the whole access.
fn first_window(space: &ConfigSpace, device: u32, wanted: &Wanted) -> Option<Window>
    requires { 0 < wanted.now.width }
    ensures found { result ≡ find (window_has wanted.now.at wanted.now.width) (space_window space.now device 0 ++ space_window space.now device 1) }
    ensures good { IfSome result IsGoodWindow }
{
    match bar_window(space, device, 0, wanted) {
        Some(window) => Some(window),
        None => bar_window(space, device, 1, wanted),
    }
}

impl<'a> Devices<'a> {
    /// The devices of the configuration of the cell with that id, and the endpoints of all cells.
    pub(crate) fn new(cell: u32, list: &'a [PciDevice], endpoints: &'a Endpoints) -> Self
        ensures { result ≡ record { cell = cell; list = list.now; endpoints = endpoints.now.list } }
    {
        Devices {
            cell,
            list,
            endpoints,
        }
    }

    /// The id of the cell.
    pub(crate) fn cell(&self) -> u32
        ensures { result ≡ self.now.cell }
    {
        self.cell
    }

    /// What the cell reads of configuration space: of an absent function a number of which all bits are set.
    pub(crate) fn read_config(&self, bytes: &ConfigBytes) -> u32
        ensures { result ≡ config_value self.now bytes.now }
    {
        match function_number(self.list, bytes) {
            Some(number) => {
                if self.endpoints.has(self.cell, number) {
                    let space = self.endpoints.config(self.cell, number);
                    space.read(bytes.offset(), bytes.width())
                } else {
                    bytes.all_ones()
                }
            }
            None => bytes.all_ones(),
        }
    }

    /// What the cell reads of the register.
    pub(crate) fn read_register(&self, register: &Register) -> u32
        ensures { result ≡ register_value self.now register.now }
    {
        let device = register.device();
        if self.endpoints.has(self.cell, device) {
            self.endpoints
                .read(self.cell, device, register.bar(), register.at())
        } else {
            0
        }
    }

    /// The first of the windows of the device of that number that has the whole access.
    fn window_at(&self, number: usize, device: &PciDevice, wanted: &Wanted) -> Option<Window>
        requires { 0 < wanted.now.width }
        ensures found { result ≡ find (window_has wanted.now.at wanted.now.width) (device_windows self.now.cell self.now.endpoints number device.now) }
        ensures good { IfSome result IsGoodWindow }
    {
        if is_endpoint(number, device) && self.endpoints.has(self.cell, number as u32) {
            let space = self.endpoints.config(self.cell, number as u32);
            first_window(space, number as u32, wanted)
        } else {
            None
        }
    }

    /// The first enabled window of the cell's devices that has the whole access.
    pub(crate) fn window(&self, wanted: &Wanted) -> Option<Window>
        requires { 0 < wanted.now.width }
        ensures found { result ≡ window_of_access self.now wanted.now.at wanted.now.width }
        ensures good { IfSome result IsGoodWindow }
    {
        for (number, device) in self.list.iter().enumerate() {
            if let Some(window) = self.window_at(number, device, wanted) {
                return Some(window);
            }
        }
        None
    }
}
