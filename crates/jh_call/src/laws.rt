//! What the codes and the answers mean. Each function does nothing; its contract is the law.
ghost use Rattle.std.specs.Prelude.{◌≡◌, ◌≢◌, ℕ, ◌≤◌, ◌&&◌, ◌⊎◌, ◌↔◌, nat_le, negsuc, true, false};
ghost use Rattle.jh_call.specs.declared.call.Call.{Call as TheCall};
ghost use Rattle.jh_call.specs.declared.call.Call.TheVariants.{Unknown as NoCall};
ghost use Rattle.jh_call.specs.declared.seen.Seen.{Seen as WhatIsSeen};
ghost use Rattle.jh_call.specs.Calls.{decoded, is_management, is_power};
ghost use Rattle.jh_call.specs.Answers.{answer_of, is_roots};

use crate::call::{AFFINITY_INFO, CPU_OFF, CPU_ON};

/// A call manages cells exactly where its code is 1, 2, 3 or 4.
pub fn codes_one_to_four_manage()
    ensures { (code a b : ℕ) → is_management (decoded code a b) ≡ (nat_le 1 code && nat_le code 4) }
{}

/// No call has the code 0, or one above 7 that isn't one of the three of the power interface; and every other code
/// has a call.
pub fn other_codes_are_unknown()
    ensures { (code a b : ℕ) → (decoded code a b ≡ NoCall) ↔ ((code ≡ 0) ⊎ ((8 ≤ code) × (code ≢ CPU_OFF) × (code ≢ CPU_ON) × (code ≢ AFFINITY_INFO))) }
{}

/// A cell besides root manages no cell and learns no cell's state: it isn't permitted to, whatever there
/// is to see.
pub fn a_cell_is_refused_what_is_roots()
    ensures { (call : TheCall) (seen : WhatIsSeen) → is_roots call ≡ true → seen.root ≡ false → answer_of call seen ≡ negsuc 0 }
{}

/// Root has no power interface: it is told so by each call of it, whatever there is to see.
pub fn root_has_no_power_interface()
    ensures { (call : TheCall) (seen : WhatIsSeen) → is_power call ≡ true → seen.root ≡ true → answer_of call seen ≡ negsuc 37 }
{}
