//! Records of a configuration: objects with the names of their members alone.
ghost use Rattle.jh_cellcfg.specs.Empty.{no_console};
ghost use Rattle.jh_spec.specs.Fields.{region_told, irqchip_told, device_told, console_told};
ghost use Rattle.jh_spec.specs.Cells.{no_region, no_irqchip, no_device};

use crate::from_json::{FromJson, member};
use crate::json::has_only;
use jh_cellcfg::{Console, Irqchip, PciDevice, Region};
use serde_json::Value;

/// The names of a PCI device's members.
const DEVICE_NAMES: [&str; 16] = [
    "kind",
    "iommu",
    "domain",
    "bdf",
    "bar_mask",
    "caps_start",
    "num_caps",
    "num_msi_vectors",
    "msi_bits",
    "num_msix_vectors",
    "msix_region_size",
    "msix_address",
    "shmem_regions_start",
    "shmem_dev_id",
    "shmem_peers",
    "shmem_protocol",
];

/// The names of a console's members.
const CONSOLE_NAMES: [&str; 7] = [
    "address",
    "size",
    "kind",
    "flags",
    "divider",
    "gate_nr",
    "clock_reg",
];

impl FromJson for Region {
    ghost tells = { region_told };

    ghost missing = { no_region };

    fn from_json(value: &Value) -> Option<Region> {
        if !has_only(value, &["phys", "virt", "size", "flags"]) {
            return None;
        }
        Some(Region {
            phys_start: member(value, "phys")?,
            virt_start: member(value, "virt")?,
            size: member(value, "size")?,
            flags: member(value, "flags")?,
        })
    }

    fn missing() -> Region {
        Region {
            phys_start: 0,
            virt_start: 0,
            size: 0,
            flags: 0,
        }
    }
}

impl FromJson for Irqchip {
    ghost tells = { irqchip_told };

    ghost missing = { no_irqchip };

    fn from_json(value: &Value) -> Option<Irqchip> {
        if !has_only(value, &["address", "id", "pin_base", "bitmap"]) {
            return None;
        }
        Some(Irqchip {
            address: member(value, "address")?,
            id: member(value, "id")?,
            pin_base: member(value, "pin_base")?,
            pin_bitmap: member(value, "bitmap")?,
        })
    }

    fn missing() -> Irqchip {
        Irqchip {
            address: 0,
            id: 0,
            pin_base: 0,
            pin_bitmap: [0; 4],
        }
    }
}

impl FromJson for PciDevice {
    ghost tells = { device_told };

    ghost missing = { no_device };

    fn from_json(value: &Value) -> Option<PciDevice> {
        if !has_only(value, &DEVICE_NAMES) {
            return None;
        }
        Some(PciDevice {
            kind: member(value, "kind")?,
            iommu: member(value, "iommu")?,
            domain: member(value, "domain")?,
            bdf: member(value, "bdf")?,
            bar_mask: member(value, "bar_mask")?,
            caps_start: member(value, "caps_start")?,
            num_caps: member(value, "num_caps")?,
            num_msi_vectors: member(value, "num_msi_vectors")?,
            msi_bits: member(value, "msi_bits")?,
            num_msix_vectors: member(value, "num_msix_vectors")?,
            msix_region_size: member(value, "msix_region_size")?,
            msix_address: member(value, "msix_address")?,
            shmem_regions_start: member(value, "shmem_regions_start")?,
            shmem_dev_id: member(value, "shmem_dev_id")?,
            shmem_peers: member(value, "shmem_peers")?,
            shmem_protocol: member(value, "shmem_protocol")?,
        })
    }

    fn missing() -> PciDevice {
        PciDevice {
            kind: 0,
            iommu: 0,
            domain: 0,
            bdf: 0,
            bar_mask: [0; 6],
            caps_start: 0,
            num_caps: 0,
            num_msi_vectors: 0,
            msi_bits: 0,
            num_msix_vectors: 0,
            msix_region_size: 0,
            msix_address: 0,
            shmem_regions_start: 0,
            shmem_dev_id: 0,
            shmem_peers: 0,
            shmem_protocol: 0,
        }
    }
}

impl FromJson for Console {
    ghost tells = { console_told };

    ghost missing = { no_console };

    fn from_json(value: &Value) -> Option<Console> {
        if !has_only(value, &CONSOLE_NAMES) {
            return None;
        }
        Some(Console {
            address: member(value, "address")?,
            size: member(value, "size")?,
            kind: member(value, "kind")?,
            flags: member(value, "flags")?,
            divider: member(value, "divider")?,
            gate_nr: member(value, "gate_nr")?,
            clock_reg: member(value, "clock_reg")?,
        })
    }

    fn missing() -> Console {
        Console::none()
    }
}
