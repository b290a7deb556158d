//! A look at one page, and at the pages of an access.
ghost use Rattle.std.specs.Prelude.{◌≡◌, ◌+◌, ◌%◌, ◌<◌, ◌≤◌, None, IfSome, is_some, length, option_map, option_to_list};
ghost use Rattle.jh_num.specs.declared.address.TheConstants.{ADDRESS_END};
ghost use Rattle.jh_walk.specs.Walks.{all_counted};
ghost use Rattle.jh_reach.specs.Places.{allows, ends_within, hit_at, place_given, places_from, places_in, sight_of, AreTrueTranslations, IsInPage};
ghost use Rattle.jh_reach.specs.Looks.{look_of, looks_at, reads_at, reads_of};
ghost use Rattle.jh_reach.specs.Private.Parts.{are_given, high_of, low_of, IsSplit};

use crate::access::{Access, Base, Needs, Run};
use crate::looks::Look;
use jh_cache::Cache;
use jh_frames::Frames;
use jh_num::{ADDRESS_END, PAGE_SIZE, Rights, Steps};
use jh_walk::{a_hit_keeps_the_offset, a_hit_lies_below_the_end, a_page_is_given_whole, walk};

/// Whether the rights have the one that is needed.
fn allows(needs: Needs, rights: Rights) -> bool
    ensures { result ≡ allows needs rights }
{
    match needs {
        Needs::Read => rights.read,
        Needs::Write => rights.write,
        Needs::Execute => rights.execute,
    }
}

/// Whether the access ends at the end of addresses at most.
pub(crate) fn ends_within(access: Access) -> bool
    ensures { result ≡ ends_within access }
{
    access.at <= ADDRESS_END && u64::from(access.width) <= ADDRESS_END - access.at
}

/// How many of the access's bytes lie in its first page.
fn in_first_page(access: Access) -> u8
    ensures few { result ≤ access.width }
    ensures page { access.at % 4096 + result ≤ 4096 }
    ensures whole { result < access.width → access.at % 4096 + result ≡ 4096 }
{
    let left = PAGE_SIZE - access.at % PAGE_SIZE;
    if u64::from(access.width) <= left {
        access.width
    } else {
        left as u8
    }
}

/// The access's bytes in its first page, and those in the next one.
pub(crate) fn split(access: Access) -> (Access, Access)
    requires few { access.width ≤ 8 }
    requires within { access.at + access.width ≤ ADDRESS_END }
    ensures low { result.0 ≡ low_of access result.0.width }
    ensures high { result.1 ≡ high_of access result.0.width }
    ensures split { IsSplit access result.0.width }
{
    let here = in_first_page(access);
    let low = Access {
        width: here,
        ..access
    };
    let high = Access {
        needs: access.needs,
        at: access.at + u64::from(here),
        width: access.width - here,
    };
    (low, high)
}

/// What the page is given, whatever its rights: what the CPU has cached, else what a walk finds, whose descriptors are
/// added to those that were read.
fn look_at(
    frames: &Frames,
    cache: &Cache,
    cpu: u8,
    base: Base,
    page: u64,
    read: &mut Steps,
) -> Option<Look>
    requires cpu { cpu < length cache.now }
    requires aligned { base.table % 4096 ≡ 0 }
    requires place { base.table < ADDRESS_END }
    requires cached { AreTrueTranslations (sight_of frames.now cache.now cpu base) }
    ensures value { result ≡ option_map (look_of (sight_of frames.now cache.now cpu base) page) (hit_at (sight_of frames.now cache.now cpu base) page) }
    ensures read { read.new ≡ all_counted read.old (reads_at (sight_of frames.now cache.now cpu base) page) }
{
    match cache.look(cpu, base.tag, page) {
        Some(hit) => Some(Look {
            page,
            hit,
            cached: true,
        }),
        None => match walk(frames, base.table, page, read) {
            Some(hit) => Some(Look {
                page,
                hit,
                cached: false,
            }),
            None => None,
        },
    }
}

/// The places of an access within one page, where it may be made: then the look at the page is put into `seen`.
pub(crate) fn run_in(
    frames: &Frames,
    cache: &Cache,
    cpu: u8,
    base: Base,
    access: Access,
    seen: &mut Option<Look>,
    read: &mut Steps,
) -> Option<Run>
    requires cpu { cpu < length cache.now }
    requires aligned { base.table % 4096 ≡ 0 }
    requires place { base.table < ADDRESS_END }
    requires cached { AreTrueTranslations (sight_of frames.now cache.now cpu base) }
    requires within { access.at + access.width ≤ ADDRESS_END }
    requires page { access.at % 4096 + access.width ≤ 4096 }
    requires unseen { seen.old ≡ None }
    ensures places { option_map places_in result ≡ places_from (place_given (sight_of frames.now cache.now cpu base) access.needs) access.at access.width }
    ensures page { IfSome result IsInPage }
    ensures given { is_some result ≡ are_given (sight_of frames.now cache.now cpu base) access }
    ensures seen { option_to_list seen.new ≡ looks_at (sight_of frames.now cache.now cpu base) access }
    ensures read { read.new ≡ all_counted read.old (reads_of (sight_of frames.now cache.now cpu base) access) }
{
    if access.width == 0 {
        return Some(Run { at: 0, count: 0 });
    }
    a_page_is_given_whole();
    a_hit_lies_below_the_end();
    a_hit_keeps_the_offset();
    let offset = access.at % PAGE_SIZE;
    let look = look_at(frames, cache, cpu, base, access.at - offset, read)?;
    if !allows(access.needs, look.hit.rights) {
        return None;
    }
    *seen = Some(look);
    Some(Run {
        at: look.hit.out + offset,
        count: access.width,
    })
}
