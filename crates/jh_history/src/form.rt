//! The form of a journal.

/// How a start is journalled: by form `One` it runs each CPU of its cell, and there is no power interface. By form
/// `Two` it runs the cell's lowest CPU alone, and the cell switches the others on and off itself.
#[derive(Clone, Copy, PartialEq, Eq, Debug)]
pub enum Form {
    One,
    Two,
}
