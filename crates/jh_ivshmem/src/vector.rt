//! A vector of an endpoint.
ghost use Rattle.std.specs.Prelude.{◌≡◌};

/// One vector: the four words of its entry in the table of MSI-X (the low and the high half of the
/// message's address, the message's data, and the mask), and whether it is pending. The first three have no
/// effect but to be read again; with MSI-X, a vector whose mask is set isn't raised.
#[derive(Clone, Copy, PartialEq, Eq, Debug)]
pub struct Vector {
    pub address: u32,
    pub upper_address: u32,
    pub message: u32,
    pub masked: bool,
    pub pending: bool,
}

impl Vector {
    ghost use Rattle.jh_ivshmem.specs.Registers.{word_of, with_word};

    /// A vector as after a reset.
    pub(crate) const FRESH: Vector = Vector {
        address: 0,
        upper_address: 0,
        message: 0,
        masked: true,
        pending: false,
    };

    /// The word of the vector's entry in the table of MSI-X, by its number from 0 to 3.
    pub(crate) fn word(&self, n: u32) -> u32
        ensures { result ≡ word_of self.now n }
    {
        match n {
            0 => self.address,
            1 => self.upper_address,
            2 => self.message,
            _ => u32::from(self.masked),
        }
    }

    /// The vector with that word of its entry written. Of the last one, the mask, bit 0 alone is kept.
    pub(crate) fn with_word(self, n: u32, value: u32) -> Vector
        ensures { result ≡ with_word n value self }
    {
        match n {
            0 => Vector {
                address: value,
                ..self
            },
            1 => Vector {
                upper_address: value,
                ..self
            },
            2 => Vector {
                message: value,
                ..self
            },
            _ => Vector {
                masked: value % 2 == 1,
                ..self
            },
        }
    }
}
