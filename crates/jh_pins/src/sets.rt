//! Sets of the pins of one chip, by their numbers.
ghost use Rattle.std.specs.Prelude.{◌≡◌, ◌==◌, ℕ, ◌+◌, ◌<◌, ◌^◌, ◌||◌, OnOk};
ghost use Rattle.jh_num.specs.Bytes.{has_byte};
ghost use Rattle.jh_pins.specs.Pins.{is_given_by};
ghost use Rattle.jh_pins.specs.Runs.{pin_of};
ghost use Rattle.jh_pins.specs.Private.Given.{is_given};
ghost use Rattle.jh_pins.specs.Private.Words.{is_in_word};

use crate::claim::PINS_PER_WORD;
use jh_cellcfg::Irqchip;
use jh_num::{ByteSet, NoMemory, Range};

/// Puts the pin with the number into the set.
fn insert_pin(pins: &mut ByteSet, number: u64) -> Result<(), NoMemory>
    requires { number < 2 ^ 33 }
    ensures { OnOk result ((other : ℕ) → has_byte pins.new.ranges other ≡ (has_byte pins.old.ranges other || (other == number))) }
{
    let end = number + 1;
    pins.insert(Range { start: number, end })
}

/// Puts the pins of the word's bits that are set into the set; that of bit 0 has this number. A word of all bits is put
/// in as a whole.
fn insert_word(pins: &mut ByteSet, word: u32, first: u64) -> Result<(), NoMemory>
    requires { first + 32 < 2 ^ 33 }
    ensures { OnOk result ((number : ℕ) → has_byte pins.new.ranges number ≡ (has_byte pins.old.ranges number || is_in_word word first number)) }
{
    if word == u32::MAX {
        let end = first + PINS_PER_WORD;
        pins.insert(Range { start: first, end })?;
        return Ok(());
    }
    let mut left = word;
    while left != 0 {
        let bit = left.trailing_zeros();
        insert_pin(pins, first + u64::from(bit))?;
        left &= !(1 << bit);
    }
    Ok(())
}

/// Puts the pins that the irqchip gives into the set.
fn insert_irqchip(pins: &mut ByteSet, irqchip: &Irqchip) -> Result<(), NoMemory>
    ensures { OnOk result ((number : ℕ) → has_byte pins.new.ranges number ≡ (has_byte pins.old.ranges number || is_given_by (pin_of irqchip.now.address number) irqchip.now)) }
{
    for (index, word) in irqchip.pin_bitmap.iter().enumerate() {
        let first = u64::from(irqchip.pin_base) + PINS_PER_WORD * index as u64;
        insert_word(pins, *word, first)?;
    }
    Ok(())
}

/// Puts the pins that the irqchip gives into the set, if it is of the chip.
fn insert_if_of(pins: &mut ByteSet, irqchip: &Irqchip, chip: u64) -> Result<(), NoMemory>
    ensures { OnOk result ((number : ℕ) → has_byte pins.new.ranges number ≡ (has_byte pins.old.ranges number || is_given_by (pin_of chip number) irqchip.now)) }
{
    if irqchip.address != chip {
        return Ok(());
    }
    insert_irqchip(pins, irqchip)?;
    Ok(())
}

/// Puts the pins of the chip that the irqchips give into the set.
pub fn insert_irqchips(pins: &mut ByteSet, irqchips: &[Irqchip], chip: u64) -> Result<(), NoMemory>
    ensures { OnOk result ((number : ℕ) → has_byte pins.new.ranges number ≡ (has_byte pins.old.ranges number || is_given irqchips.now (pin_of chip number))) }
{
    for irqchip in irqchips {
        insert_if_of(pins, irqchip, chip)?;
    }
    Ok(())
}
