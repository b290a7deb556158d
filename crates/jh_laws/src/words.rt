//! The numbers that stand for hypercalls, and in communication pages.
ghost use Rattle.std.specs.Prelude.{◌≡◌, ◌≢◌, ◌<◌, ◌↔◌, ◌⊎◌, ℕ, true};
ghost use Rattle.jh_comm.specs.declared.words.TheConstants.{STATE_RUNNING_LOCKED, REPLY_REQUEST_APPROVED, REPLY_RECEIVED};
ghost use Rattle.jh_call.specs.declared.call.Call.TheVariants.{Create as CreateAt, Start as StartOf, Loadable as LoadableOf, Destroy as DestroyOf, Info as InfoOf, State as StateOf, CpuInfo as CpuInfoOf, CpuOff as SwitchOff, CpuOn as SwitchOn, Affinity as AffinityOf, Unknown as NoCall};
ghost use Rattle.jh_call.specs.Calls.{decoded};
ghost use Rattle.jh_history.specs.Facts.{Facts};
ghost use Rattle.jh_history.specs.Phases.{state_word, reply_word, is_down};
ghost use Rattle.jh_laws.specs.Words.{number_in_page};

/// The codes of hypercalls are those of Jailhouse: 1 to 4 create, start, set loadable and destroy a cell, 5 asks for
/// information about the hypervisor, 6 for the state of a cell and 7 for information about a CPU. Three are of Arm's power
/// interface: 0x84000002 switches the caller's CPU off, 0xc4000003 another on, and 0xc4000004 asks whether one is on. Every
/// other is unknown.
pub fn codes_mean_calls()
    ensures create { (a b : ℕ) → decoded 1 a b ≡ CreateAt a }
    ensures start { (a b : ℕ) → decoded 2 a b ≡ StartOf a }
    ensures loadable { (a b : ℕ) → decoded 3 a b ≡ LoadableOf a }
    ensures destroy { (a b : ℕ) → decoded 4 a b ≡ DestroyOf a }
    ensures info { (a b : ℕ) → decoded 5 a b ≡ InfoOf a }
    ensures state { (a b : ℕ) → decoded 6 a b ≡ StateOf a }
    ensures cpu { (a b : ℕ) → decoded 7 a b ≡ CpuInfoOf a b }
    ensures off { (a b : ℕ) → decoded 0x84000002 a b ≡ SwitchOff }
    ensures on { (a b : ℕ) → decoded 0xc4000003 a b ≡ SwitchOn a }
    ensures affinity { (a b : ℕ) → decoded 0xc4000004 a b ≡ AffinityOf a b }
    ensures others { (code a b : ℕ) → (code ≡ 0) ⊎ (7 < code) → code ≢ 0x84000002 → code ≢ 0xc4000003 → code ≢ 0xc4000004 → decoded code a b ≡ NoCall }
{}

/// A cell's state is the number in bytes 8 to 11 of its page, and its reply that in bytes 16 to 19. A cell is down in
/// state 2, SHUT_DOWN, and 3, FAILED, and locked in state 1. Reply 3 approves of a request, and reply 4 has received a
/// message.
pub fn words_have_their_places()
    ensures state { (f : Facts) (id : ℕ) → state_word f id ≡ number_in_page f id 8 }
    ensures reply { (f : Facts) (id : ℕ) → reply_word f id ≡ number_in_page f id 16 }
    ensures down { (state : ℕ) → (is_down state ≡ true) ↔ ((state ≡ 2) ⊎ (state ≡ 3)) }
    ensures locked { STATE_RUNNING_LOCKED ≡ 1 }
    ensures approved { REPLY_REQUEST_APPROVED ≡ 3 }
    ensures received { REPLY_RECEIVED ≡ 4 }
{}
