//! Whether the pages that are wanted are there.
ghost use Rattle.std.specs.Prelude.{◌≡◌, nat_lt, Some, None, if◌then◌else◌};
ghost use Rattle.jh_num.specs.declared.error.TheConstants.{ENOMEM};

use jh_num::error::ENOMEM;

/// What a cell is refused for that nothing else speaks against: ENOMEM, where there are fewer pages than are wanted.
pub(crate) fn refusal_by_pages(pages: u64, pool: u32) -> Option<i64>
    ensures { result ≡ (if nat_lt pool pages then Some ENOMEM else None) }
{
    if pages > u64::from(pool) {
        Some(ENOMEM)
    } else {
        None
    }
}
