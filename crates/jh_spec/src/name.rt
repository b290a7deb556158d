//! Names, as configurations hold them.
ghost use Rattle.std.specs.Prelude.{◌≡◌, IfSome, IsTrue};
ghost use Rattle.jh_cellcfg.specs.Limits.{is_name};
ghost use Rattle.serde_json.specs.View.{view};
ghost use Rattle.jh_spec.specs.Cells.{padded_name, cell_name};

use crate::json::text_at;
use jh_cellcfg::is_name;
use serde_json::Value;

/// The text with zero bytes behind it, where that is a name.
fn padded_name(text: &[u8]) -> Option<[u8; 32]>
    ensures told { result ≡ padded_name text.now }
    ensures limits { IfSome result (λ name. IsTrue (is_name name)) }
{
    if text.len() > 32 || text.contains(&0) {
        return None;
    }
    let mut whole = [0; 32];
    whole[..text.len()].copy_from_slice(text);
    if is_name(&whole) { Some(whole) } else { None }
}

/// The name that the member `name` tells, 1 to 31 characters from 0x20 to 0x7e, with zero bytes behind it; `None` where
/// it is missing or tells none.
pub fn cell_name(object: &Value) -> Option<[u8; 32]>
    ensures told { result ≡ cell_name (view object.now) }
    ensures limits { IfSome result (λ name. IsTrue (is_name name)) }
{
    let text = text_at(object, "name")?;
    padded_name(text.as_bytes())
}
