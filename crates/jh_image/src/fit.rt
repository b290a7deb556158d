//! Preloads beside one another and beside the hypervisor's memory.
ghost use Rattle.std.specs.Prelude.{◌↔◌, IsTrue, All};
ghost use Rattle.jh_history.specs.Admitted.{IsOtherPreload};
ghost use Rattle.jh_script.specs.declared.image.Preload.{Preload as ThePreload};
ghost use Rattle.jh_image.specs.Preloads.{IsFaultless};

use jh_cellcfg::Region;
use jh_history::{is_other_preload, is_sound_preload};
use jh_script::Preload;

/// Whether each of the earlier preloads is apart from the preload.
fn is_apart(earlier: &[Preload], preload: &Preload) -> bool
    ensures { IsTrue result ↔ All (λ (other : ThePreload). IsOtherPreload other preload.now) earlier.now }
{
    earlier.iter().all(|other| is_other_preload(other, preload))
}

/// Whether the preload ends within the places, and meets neither the hypervisor's memory nor one of the earlier
/// preloads.
pub(crate) fn is_faultless(hypervisor: &Region, earlier: &[Preload], preload: &Preload) -> bool
    ensures { IsTrue result ↔ IsFaultless hypervisor.now earlier.now preload.now }
{
    is_sound_preload(hypervisor, preload) && is_apart(earlier, preload)
}
