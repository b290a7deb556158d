//! What holds of CPUs that are lent. Each function does nothing; its contract is the law.
ghost use Rattle.std.specs.Prelude.{ℕ, List, if◌then◌else◌};
ghost use Rattle.jh_cpu.specs.declared.cpu.Cpu.{Cpu as TheCpu};
ghost use Rattle.jh_cpu.specs.Changes.{is_failed, lent, returned};
ghost use Rattle.jh_cpu.specs.Meanwhile.{Happening, IsBackInRoot, after_all};

/// Whatever happened to a CPU while it was lent, it comes back to root at the position that it had
/// there, or at the end of its program where it had failed there, and nothing of the time between is left.
pub fn a_lent_cpu_comes_back_where_it_was()
    ensures { (cpu : TheCpu) (owner root end : ℕ) (happenings : List Happening)
        → IsBackInRoot root (if is_failed cpu.mode then end else cpu.position) (returned root end (after_all (lent owner cpu) happenings)) }
{}
