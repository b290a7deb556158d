//! Where bytes are kept.
ghost use Rattle.std.specs.Prelude.{◌≡◌, ◌+◌, ◌^◌, ◌<◌, ◌≤◌, ◌++◌};
ghost use Rattle.jh_history.specs.Places.{is_same, number_of, further, places_in_row, places_of_row, IsRow};

use std::marker::Model;

/// The place of a byte.
#[derive(Clone, Copy, PartialEq, Eq, Debug)]
pub enum Place {
    /// Of physical memory, by its address.
    Physical(u64),
    /// Of the communication page of the cell with the id, by its offset.
    Page { cell: u32, offset: u64 },
}

impl Place {
    /// Whether the two are one place.
    pub fn is_same(self, other: Place) -> bool
        ensures { result ≡ is_same self other }
    {
        match self {
            Place::Physical(p) => match other {
                Place::Physical(q) => p == q,
                Place::Page { .. } => false,
            },
            Place::Page { cell, offset } => match other {
                Place::Physical(_) => false,
                Place::Page {
                    cell: other,
                    offset: at,
                } => cell == other && offset == at,
            },
        }
    }
}

impl Place {
    /// The place `count` further on, in the same memory or page.
    pub fn further(self, count: u8) -> Place
        requires { number_of self + count < 2 ^ 64 }
        ensures { result ≡ further self count }
    {
        match self {
            Place::Physical(p) => Place::Physical(p + u64::from(count)),
            Place::Page { cell, offset } => Place::Page {
                cell,
                offset: offset + u64::from(count),
            },
        }
    }
}

/// A row of places: so many from the first on, one behind the other.
#[derive(Clone, Copy, PartialEq, Eq, Debug)]
pub struct Row {
    pub first: Place,
    pub count: u8,
}

/// The places of an access's bytes, in order: at most eight. An access touches two pages at most, so
/// its places are two rows at most.
#[derive(Drop)]
pub struct Places {
    low: Row,
    high: Row,
}

impl Model for Places {
    ghost use Rattle.std.specs.Prelude.{List, ◌+◌, ◌≤◌, ◌++◌};
    ghost use Rattle.jh_history.specs.declared.place.Place.{Place as ThePlace};
    ghost use Rattle.jh_history.specs.Places.{places_of_row};

    ghost Value = { List ThePlace };

    ghost view = { λ p. places_of_row p.low ++ places_of_row p.high };

    ghost use Rattle.jh_history.specs.Places.{IsRow};

    ghost invariant = { λ p. IsRow p.low × IsRow p.high × (p.low.count + p.high.count ≤ 8) };
}

impl Places {
    /// The places of the two rows, one behind the other.
    pub fn new(low: Row, high: Row) -> Self
        requires low { IsRow low }
        requires high { IsRow high }
        requires few { low.count + high.count ≤ 8 }
        ensures { result ≡ places_of_row low ++ places_of_row high }
    {
        Places { low, high }
    }

    /// The places of a word of 32 bits that begins at the place.
    pub fn of_word(first: Place) -> Self
        requires { number_of first + 4 < 2 ^ 64 }
        ensures { result ≡ places_in_row first 4 }
    {
        Places::new(Row { first, count: 4 }, Row { first, count: 0 })
    }

    /// The two rows that they are.
    pub fn rows(&self) -> (Row, Row)
        ensures places { self.now ≡ places_of_row result.0 ++ places_of_row result.1 }
        ensures low { IsRow result.0 }
        ensures high { IsRow result.1 }
        ensures few { result.0.count + result.1.count ≤ 8 }
    {
        (self.low, self.high)
    }
}
