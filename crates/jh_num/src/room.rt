//! Room in a list before an item is put in.
ghost use Rattle.std.specs.Prelude.{◌≡◌, ◌<◌, vec_len, vec_capacity, IsOk, OnOk};

use crate::no_memory::NoMemory;

/// Makes room for one item more, where there is none.
pub fn make_room<T>(list: &mut Vec<T>) -> Result<(), NoMemory>
    ensures items { list.new.items ≡ list.old.items }
    ensures len { vec_len list.new ≡ vec_len list.old }
    ensures ok { OnOk result (vec_len list.new < vec_capacity list.new) }
    ensures spare { vec_len list.old < vec_capacity list.old → IsOk result }
    ensures capacity { vec_len list.old < vec_capacity list.old → vec_capacity list.new ≡ vec_capacity list.old }
{
    if list.len() < list.capacity() {
        return Ok(());
    }
    list.reserve(1)?;
    Ok(())
}
