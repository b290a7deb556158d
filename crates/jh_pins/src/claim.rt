//! What a cell claims.
ghost use Rattle.std.specs.Prelude.{◌≡◌, IfOk};
ghost use Rattle.jh_pins.specs.Pins.{is_set, is_given_by, is_named_by, claim_of};
ghost use Rattle.jh_pins.specs.Runs.{AreRuns};
ghost use Rattle.jh_pins.specs.Private.Pieces.{names};

use crate::pin::{Pin, PinRun};
use crate::runs::runs_of;
use jh_cellcfg::{CellConfig, Irqchip};
use jh_num::{NoMemory, Seq, has_bit};
use std::alloc::Global;
use std::marker::Model;

/// How many pins an irqchip's bitmap has a bit for.
const PINS_PER_IRQCHIP: u64 = 128;

/// How many pins a word of the bitmap has a bit for.
pub const PINS_PER_WORD: u64 = 32;

/// The pins that a cell claims: all that its irqchips give. Their runs are made once, with the claim.
#[derive(Drop)]
pub struct Claim {
    /// The id of the cell.
    id: u32,
    irqchips: Seq<Irqchip>,
    /// The runs of the pins that the cell names.
    runs: Vec<PinRun>,
}

impl Model for Claim {
    ghost use Rattle.jh_pins.specs.Claims.{Claim as TheClaim};

    ghost Value = { TheClaim };

    ghost view = { λ c. record { id = c.id; irqchips = c.irqchips } };

    ghost use Rattle.jh_pins.specs.Runs.{AreRuns};
    ghost use Rattle.jh_pins.specs.Private.Given.{is_given};

    ghost invariant = { λ c. AreRuns (is_given c.irqchips) c.runs.items };
}

/// Whether the bit of that index is set in the bitmap.
fn is_set(words: &[u32; 4], index: u64) -> bool
    ensures { result ≡ is_set words.now index }
{
    index < PINS_PER_IRQCHIP && has_bit(words[index as usize / 32], index as usize % 32)
}

/// Whether the irqchip gives the pin.
fn is_given_by(pin: Pin, irqchip: &Irqchip) -> bool
    ensures { result ≡ is_given_by pin irqchip.now }
{
    let base = u64::from(irqchip.pin_base);
    irqchip.address == pin.chip
        && base <= pin.number
        && is_set(&irqchip.pin_bitmap, pin.number - base)
}

impl Claim {
    /// What the cell with the configuration claims.
    pub fn of(alloc: Global, config: &CellConfig) -> Result<Self, NoMemory>
        ensures { IfOk result (λ claim. claim ≡ claim_of config.now) }
    {
        let irqchips = Vec::from_slice(alloc, config.irqchips.as_slice())?;
        let runs = runs_of(alloc, irqchips.as_slice())?;
        Ok(Claim {
            id: config.id,
            irqchips: Seq::from_vec(irqchips),
            runs,
        })
    }

    /// The id of the cell.
    pub fn id(&self) -> u32
        ensures { result ≡ self.now.id }
    {
        self.id
    }

    /// The runs of the pins that the cell names, in order of chip and number.
    pub fn runs(&self) -> &[PinRun]
        ensures { AreRuns (names self.now) result.now }
    {
        self.runs.as_slice()
    }

    /// Whether the cell names the pin.
    pub fn names(&self, pin: Pin) -> bool
        ensures { result ≡ is_named_by pin self.now }
    {
        self.irqchips
            .as_slice()
            .iter()
            .any(|irqchip| is_given_by(pin, irqchip))
    }
}
