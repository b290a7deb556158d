//! A translation of a page.
ghost use Rattle.std.specs.Prelude.{◌≡◌};
ghost use Rattle.jh_cache.specs.Translations.{is_for};

use jh_desc::Hit;

/// What a walk found for the page of addresses that begins at `page`, in the tables with that tag.
#[derive(Clone, Copy, PartialEq, Eq, Debug)]
pub struct Translation {
    pub tag: u8,
    pub page: u64,
    pub hit: Hit,
}

impl Translation {
    /// Whether this is what a walk found for that page, in the tables with that tag.
    pub fn is_for(&self, tag: u8, page: u64) -> bool
        ensures { result ≡ is_for tag page self.now }
    {
        self.page == page && self.tag == tag
    }
}
