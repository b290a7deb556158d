//! What is left of looks: translations, and the reads that are told.
ghost use Rattle.std.specs.Prelude.{◌≡◌, ◌≢◌, ℕ, ◌<◌, false, length, not, option_to_list};
ghost use Rattle.std.specs.Option.{option_map_or};
ghost use Rattle.jh_walk.specs.Walks.{all_counted};
ghost use Rattle.jh_cache.specs.Translations.{translations_of};
ghost use Rattle.jh_reach.specs.declared.looks.Look.{Look as TheLook};
ghost use Rattle.jh_reach.specs.Fills.{filled_with, with_looks};

use crate::looks::{Look, Looks};
use jh_cache::Cache;
use jh_num::Steps;

/// Whether a page was looked at of which the CPU had no translation.
fn lacked(look: Option<Look>) -> bool
    ensures { result ≡ option_map_or (λ (l : TheLook). not l.cached) look false }
{
    match look {
        Some(look) => !look.cached,
        None => false,
    }
}

/// Fills the translation of the page that was looked at, if one was.
fn fill_one(cache: &mut Cache, cpu: u8, tag: u8, look: Option<Look>)
    requires cpu { cpu < length cache.old }
    ensures filled { translations_of cache.new cpu ≡ with_looks tag (option_to_list look) (translations_of cache.old cpu) }
    ensures others { (other : ℕ) → other ≢ cpu → translations_of cache.new other ≡ translations_of cache.old other }
    ensures cpus { length cache.new ≡ length cache.old }
{
    if let Some(look) = look {
        cache.fill(cpu, tag, look.page, look.hit);
    }
}

/// The CPU of the number has, of this tag, all translations that the access looked at, the last page's newest, where it
/// was given its places and lacked one of them. Else its translations stay.
pub fn fill(cache: &mut Cache, cpu: u8, tag: u8, looks: &Looks)
    requires cpu { cpu < length cache.old }
    ensures filled { translations_of cache.new cpu ≡ filled_with tag looks.now (translations_of cache.old cpu) }
    ensures others { (other : ℕ) → other ≢ cpu → translations_of cache.new other ≡ translations_of cache.old other }
    ensures cpus { length cache.new ≡ length cache.old }
{
    if looks.whole && (lacked(looks.first) || lacked(looks.second)) {
        fill_one(cache, cpu, tag, looks.first);
        fill_one(cache, cpu, tag, looks.second);
    }
}

/// Tells the descriptors that were read, in order.
pub fn tell(steps: &mut Steps, looks: &Looks)
    ensures { steps.new ≡ all_counted steps.old looks.now.read }
{
    for probe in looks.read.probes() {
        steps.probe(*probe);
    }
}
