//! The look at the pages of an access.
ghost use Rattle.std.specs.Prelude.{◌≡◌, ◌%◌, ◌<◌, ◌≤◌, IfSome, is_some, length, option_map};
ghost use Rattle.jh_num.specs.declared.address.TheConstants.{ADDRESS_END};
ghost use Rattle.jh_reach.specs.Places.{places_given, places_in_both, sight_of, AreTrueTranslations, IsInPage};
ghost use Rattle.jh_reach.specs.Looks.{looks_at, reads_of};

use crate::access::{Access, Base, Run};
use crate::looks::Looks;
use crate::page::{ends_within, run_in, split};
use jh_cache::Cache;
use jh_frames::Frames;
use jh_walk::a_walk_reads_few;

/// The places that the tables give the bytes of the access, in one run or two; `None` where it ends past the addresses,
/// or where a byte isn't given or lacks the right. What is looked at for it takes the place of all that `looks` had.
pub fn look(
    frames: &Frames,
    cache: &Cache,
    cpu: u8,
    base: Base,
    access: Access,
    looks: &mut Looks,
) -> Option<(Run, Run)>
    requires cpu { cpu < length cache.now }
    requires few { access.width ≤ 8 }
    requires aligned { base.table % 4096 ≡ 0 }
    requires place { base.table < ADDRESS_END }
    requires cached { AreTrueTranslations (sight_of frames.now cache.now cpu base) }
    ensures runs { option_map places_in_both result ≡ places_given (sight_of frames.now cache.now cpu base) access }
    ensures first { IfSome result (λ runs. IsInPage runs.0) }
    ensures second { IfSome result (λ runs. IsInPage runs.1) }
    ensures looked { looks.new.looked ≡ looks_at (sight_of frames.now cache.now cpu base) access }
    ensures whole { looks.new.whole ≡ is_some result }
    ensures read { looks.new.read ≡ reads_of (sight_of frames.now cache.now cpu base) access }
{
    *looks = Looks::new();
    if !ends_within(access) {
        return None;
    }
    a_walk_reads_few();
    let (low, high) = split(access);
    let one = run_in(
        frames,
        cache,
        cpu,
        base,
        low,
        &mut looks.first,
        &mut looks.read,
    )?;
    let other = run_in(
        frames,
        cache,
        cpu,
        base,
        high,
        &mut looks.second,
        &mut looks.read,
    )?;
    looks.whole = true;
    Some((one, other))
}
