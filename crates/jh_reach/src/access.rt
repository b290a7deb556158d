//! An access, and the places that it is given.

/// The right that an access needs.
#[derive(Clone, Copy, PartialEq, Eq, Debug)]
pub enum Needs {
    Read,
    Write,
    Execute,
}

/// An access of `width` bytes from the address `at` on.
#[derive(Clone, Copy, PartialEq, Eq, Debug)]
pub struct Access {
    pub needs: Needs,
    pub at: u64,
    pub width: u8,
}

/// What a CPU's accesses go by: the first table of the cell that owns it, and the tag of that cell's translations.
#[derive(Clone, Copy, PartialEq, Eq, Debug)]
pub struct Base {
    pub table: u64,
    pub tag: u8,
}

/// Places that follow one another, `count` of them from `at` on.
#[derive(Clone, Copy, PartialEq, Eq, Debug)]
pub struct Run {
    pub at: u64,
    pub count: u8,
}
