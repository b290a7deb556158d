//! What is fixed of the endpoints of a cell's ivshmem devices.
ghost use Rattle.std.specs.Prelude.{◌≡◌, ◌<◌, ◌^◌, true, None, Some, option_copied, if◌then◌else◌};
ghost use Rattle.jh_check.specs.Clean.{IsGoodDevice};
ghost use Rattle.jh_history.specs.Devices.{is_endpoint, section_at, size_of, place_of_section, address_of_section, function_of, spec_of};

use jh_cellcfg::{CellConfig, PciDevice, Region};
use jh_ivshmem::EndpointSpec;
use jh_vpci::FunctionSpec;

/// The state table is the first of the device's sections.
const STATE_TABLE: u8 = 0;

/// The read/write section is the next.
const READ_WRITE: u8 = 1;

/// Then come the outputs, that of peer 0 first.
const FIRST_OUTPUT: u8 = 2;

/// Whether the device of that number is an ivshmem device. A number has 32 bits.
pub fn is_endpoint(number: usize, device: &PciDevice) -> bool
    ensures value { result ≡ is_endpoint number device.now }
    ensures small { result ≡ true → number < 2 ^ 32 }
{
    number <= u32::MAX as usize && device.is_shmem()
}

/// The region that is the device's section `k`, counted from its first; `None` where the cell has no such region.
fn section<'a>(config: &'a CellConfig, device: &PciDevice, k: u8) -> Option<&'a Region>
    ensures { option_copied result ≡ section_at config.now device.now k }
{
    let at = device.shmem_regions_start as usize + usize::from(k);
    config.memory_regions.as_slice().get(at)
}

/// How many bytes the section has; 0 where it is no region of the cell.
fn size_of(region: Option<&Region>) -> u64
    ensures { result ≡ size_of (option_copied region.entry) }
{
    match region {
        Some(region) => region.size,
        None => 0,
    }
}

/// The physical place where the section begins; 0 where it is no region of the cell.
fn place_of(region: Option<&Region>) -> u64
    ensures { result ≡ place_of_section (option_copied region.entry) }
{
    match region {
        Some(region) => region.phys_start,
        None => 0,
    }
}

/// The address where the section begins; 0 where it is no region of the cell.
fn address_of(region: Option<&Region>) -> u64
    ensures { result ≡ address_of_section (option_copied region.entry) }
{
    match region {
        Some(region) => region.virt_start,
        None => 0,
    }
}

/// What the device's function shows in configuration space; the size of the first output section stands for all.
fn function_of(config: &CellConfig, device: &PciDevice) -> FunctionSpec
    requires { IsGoodDevice config.now device.now }
    ensures { result ≡ function_of config.now device.now }
{
    FunctionSpec {
        protocol: device.shmem_protocol,
        vectors: device.num_msix_vectors as u8,
        state_size: size_of(section(config, device, STATE_TABLE)) as u32,
        rw_size: size_of(section(config, device, READ_WRITE)),
        out_size: size_of(section(config, device, FIRST_OUTPUT)),
        address: address_of(section(config, device, STATE_TABLE)),
    }
}

/// The endpoint of the cell's device of that number.
fn spec_of(config: &CellConfig, number: u32, device: &PciDevice) -> EndpointSpec
    requires { IsGoodDevice config.now device.now }
    ensures { result ≡ spec_of config.now number device.now }
{
    EndpointSpec {
        cell: config.id,
        device: number,
        bdf: device.bdf,
        peers: device.shmem_peers,
        id: device.shmem_dev_id,
        table: place_of(section(config, device, STATE_TABLE)),
        function: function_of(config, device),
    }
}

/// The endpoint of the cell's device of that number, where it is an ivshmem device.
pub fn endpoint_of(config: &CellConfig, number: usize, device: &PciDevice) -> Option<EndpointSpec>
    requires { is_endpoint number device.now ≡ true → IsGoodDevice config.now device.now }
    ensures { result ≡ (if is_endpoint number device.now then Some (spec_of config.now number device.now) else None) }
{
    if is_endpoint(number, device) {
        Some(spec_of(config, number as u32, device))
    } else {
        None
    }
}
