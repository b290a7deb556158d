//! Bytes that follow one another.
ghost use Rattle.std.specs.Prelude.{◌≤◌};

/// The bytes from `start` on, up to and without `end`. It is empty where the two are equal.
#[derive(Clone, Copy, PartialEq, Eq, Debug)]
pub struct Range {
    pub start: u64,
    pub end: u64,
    pub ghost ordered: { start ≤ end },
}
