//! Whole numbers, which must fit their field.
ghost use Rattle.std.specs.Prelude.{replicate};
ghost use Rattle.jh_spec.specs.Fields.{u8_told, u16_told, u32_told, u64_told, words_told};

use crate::from_json::FromJson;
use crate::json::number_below;
use serde_json::Value;

impl FromJson for u8 {
    ghost tells = { u8_told };

    ghost missing = { 0 };

    fn from_json(value: &Value) -> Option<u8> {
        let number = number_below(value, 1 << 8)?;
        Some(number as u8)
    }

    fn missing() -> u8 {
        0
    }
}

impl FromJson for u16 {
    ghost tells = { u16_told };

    ghost missing = { 0 };

    fn from_json(value: &Value) -> Option<u16> {
        let number = number_below(value, 1 << 16)?;
        Some(number as u16)
    }

    fn missing() -> u16 {
        0
    }
}

impl FromJson for u32 {
    ghost tells = { u32_told };

    ghost missing = { 0 };

    fn from_json(value: &Value) -> Option<u32> {
        let number = number_below(value, 1 << 32)?;
        Some(number as u32)
    }

    fn missing() -> u32 {
        0
    }
}

impl FromJson for u64 {
    ghost tells = { u64_told };

    ghost missing = { 0 };

    fn from_json(value: &Value) -> Option<u64> {
        value.as_u64()
    }

    fn missing() -> u64 {
        0
    }
}

/// Exactly so many numbers.
impl<const N: usize> FromJson for [u32; N] {
    ghost tells = { words_told N };

    ghost missing = { replicate N 0 };

    fn from_json(value: &Value) -> Option<[u32; N]> {
        let items = value.as_array()?;
        if items.len() != N {
            return None;
        }
        let mut words = [0; N];
        for k in 0..N {
            words[k] = u32::from_json(&items[k])?;
        }
        Some(words)
    }

    fn missing() -> [u32; N] {
        [0; N]
    }
}
