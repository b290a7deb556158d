//! What a SPEC tells, in the words of who writes one. Each function does nothing; its contract is the law.
ghost use Rattle.std.specs.Prelude.{◌≡◌, ◌↔◌, ℕ, ◌*◌, ◌/◌, ◌%◌, ◌<◌, List, Some, None, Ok, true, length, slice_index, is_some, Contains};
ghost use Rattle.std.specs.Int.{bit_at};
ghost use Rattle.serde_json.specs.Data.{Data};
ghost use Rattle.serde_json.specs.Find.{as_object};
ghost use Rattle.jh_cellcfg.specs.declared.config.CellConfig.{CellConfig as TheCell};
ghost use Rattle.jh_cellcfg.specs.declared.config.SystemConfig.{SystemConfig as TheSystem};
ghost use Rattle.jh_cellcfg.specs.declared.config.Irqchip.{Irqchip as TheIrqchip};
ghost use Rattle.jh_cellcfg.specs.declared.config.PciDevice.{PciDevice as TheDevice};
ghost use Rattle.jh_cellcfg.specs.declared.config.Console.{Console as TheConsole};
ghost use Rattle.jh_cellcfg.specs.declared.region.Region.{Region as TheRegion};
ghost use Rattle.jh_spec.specs.declared.spec.Spec.{Spec as TheSpec};
ghost use Rattle.jh_spec.specs.Fields.{region_told, irqchip_told, device_told, console_told};
ghost use Rattle.jh_spec.specs.Cells.{cell_told, system_told};
ghost use Rattle.jh_spec.specs.Specs.{kind_told, spec_told};
ghost use Rattle.jh_spec.specs.Laws.{IsRegionOf, IsIrqchipOf, IsDeviceOf, IsConsoleOf, IsCellOf, IsSystemOf, BitmapOfCpus, blame};

use crate::fault::JsonFault;

/// Each field that is a number is the one that its member tells, or 0 where there is no such member. The other fields are
/// what their members tell; those for which there is no member are empty, or zeros.
pub fn each_field_is_its_members_number()
    ensures region { (d : Data) (told : TheRegion) → region_told d ≡ Some told → IsRegionOf d told }
    ensures irqchip { (d : Data) (told : TheIrqchip) → irqchip_told d ≡ Some told → IsIrqchipOf d told }
    ensures device { (d : Data) (told : TheDevice) → device_told d ≡ Some told → IsDeviceOf d told }
    ensures console { (d : Data) (told : TheConsole) → console_told d ≡ Some told → IsConsoleOf d told }
    ensures cell { (names : List (List ℕ)) (d : Data) (cell : TheCell) → cell_told names d ≡ Ok cell → IsCellOf d cell }
    ensures system { (d : Data) (system : TheSystem) → system_told d ≡ Ok system → IsSystemOf d system }
{}

/// An object is refused for a member exactly where that one is to blame: the first in the order of the tables that
/// has a fault, else the first name that isn't listed. Where none is, a configuration is told.
pub fn the_first_fault_is_to_blame()
    ensures member { (d : Data) (m : List ℕ) → is_some (as_object d) ≡ true
        → (spec_told d ≡ Err (JsonFault.Member m)) ↔ (blame (kind_told d) d ≡ Some m) }
    ensures told { (d : Data) → is_some (as_object d) ≡ true
        → ((spec : TheSpec) × (spec_told d ≡ Ok spec)) ↔ (blame (kind_told d) d ≡ None) }
{}

/// The bitmap has as many bytes as it is to have, and bit i mod 8 of byte i div 8 is set exactly where the list names
/// CPU i.
pub fn a_cpu_that_is_named_has_its_bit()
    ensures size { (it : BitmapOfCpus) → length it.bitmap ≡ it.bytes }
    ensures bits { (it : BitmapOfCpus) (cpu : ℕ) → cpu < 8 * it.bytes → (bit_at (slice_index it.bitmap (cpu / 8)) (cpu % 8) ≡ 1) ↔ Contains it.cpus cpu }
{}
