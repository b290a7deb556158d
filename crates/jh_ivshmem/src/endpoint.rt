//! One endpoint.
ghost use Rattle.std.specs.Prelude.{◌≡◌, ◌<◌, length, position, IfSome};

use crate::change::EndpointChange;
use crate::registers::{ID, INTERRUPT_CONTROL, PEERS, STATE};
use crate::spec::EndpointSpec;
use crate::vector::Vector;
use jh_vpci::ConfigSpace;

/// A device of a cell on its link. It has room for 16 vectors, of which those past its count stay as
/// they are after a reset.
#[derive(Drop)]
pub struct Endpoint {
    pub spec: EndpointSpec,
    pub space: ConfigSpace,
    pub control: bool,
    pub state: u32,
    pub vectors: [Vector; 16],
}

/// The lowest of the vectors that is pending.
fn lowest_pending(vectors: &[Vector]) -> Option<usize>
    ensures value { result ≡ position (λ vector. vector.pending) vectors.now }
    ensures bound { IfSome result (λ v. v < length vectors.now) }
{
    vectors.iter().position(|vector| vector.pending)
}

impl Endpoint {
    ghost use Rattle.jh_ivshmem.specs.Private.Changes.{after};
    ghost use Rattle.jh_ivshmem.specs.Endpoint.{fresh, is_open, raised, taken, cleared, pending_in};
    ghost use Rattle.jh_ivshmem.specs.Keys.{IsWholeEndpoint};
    ghost use Rattle.jh_ivshmem.specs.Registers.{register_of, register_written, is_in_table};

    /// An endpoint as after a reset.
    pub(crate) fn new(spec: EndpointSpec) -> Endpoint
        ensures { result ≡ fresh spec }
    {
        Endpoint {
            spec,
            space: ConfigSpace::new(spec.function),
            control: false,
            state: 0,
            vectors: [Vector::FRESH; 16],
        }
    }

    /// Whether raising the vector makes it pending.
    fn is_open(&self, v: usize) -> bool
        requires sound { IsWholeEndpoint self.now }
        ensures value { result ≡ is_open self.now v }
    {
        self.control
            && v < usize::from(self.spec.vector_count())
            && self.space.is_open()
            && (!self.spec.function.has_vectors() || !self.vectors[v].masked)
    }

    /// Makes the vector pending where it is open, and then one-shot turns interrupt control off; else nothing changes.
    #[tactic(auto, unfolding(crate::specs::Endpoint::raised))]
    fn raise(&mut self, v: u16)
        requires sound { IsWholeEndpoint self.old }
        ensures { self.new ≡ raised v self.old }
    {
        let v = usize::from(v);
        if self.is_open(v) {
            self.control = !self.space.one_shot();
            self.vectors[v].pending = true;
        }
    }

    /// The lowest pending vector.
    pub(crate) fn pending(&self) -> Option<u8>
        requires sound { IsWholeEndpoint self.now }
        ensures { result ≡ pending_in self.now }
    {
        match lowest_pending(&self.vectors) {
            Some(v) => Some(v as u8),
            None => None,
        }
    }

    /// Takes the vector: it is no longer pending.
    #[tactic(auto, unfolding(crate::specs::Endpoint::taken))]
    fn take(&mut self, v: u8)
        requires sound { IsWholeEndpoint self.old }
        ensures { self.new ≡ taken v self.old }
    {
        let v = usize::from(v);
        // of a vector that there isn't nothing changes, as the definition has it
        if v < self.vectors.len() {
            self.vectors[v].pending = false;
        }
    }

    /// Makes all that a guest can change as it was at first.
    #[tactic(auto, unfolding(crate::specs::Endpoint::cleared))]
    fn clear(&mut self)
        ensures { self.new ≡ cleared self.old }
    {
        self.space.reset();
        self.control = false;
        self.state = 0;
        self.vectors = [Vector::FRESH; 16];
    }

    /// Whether the offset of BAR 1 lies in the table of vectors.
    fn is_in_table(&self, at: u32) -> bool
        ensures { result ≡ is_in_table self.now at }
    {
        at < 16 * u32::from(self.spec.function.vectors)
    }

    /// What the register reads.
    #[tactic(auto, unfolding(crate::specs::Registers::register_of))]
    pub(crate) fn register(&self, bar: u8, at: u32) -> u32
        requires sound { IsWholeEndpoint self.now }
        ensures { result ≡ register_of self.now bar at }
    {
        if bar == 0 {
            match at {
                ID => u32::from(self.spec.id),
                PEERS => u32::from(self.spec.peers),
                INTERRUPT_CONTROL => u32::from(self.control),
                STATE => self.state,
                _ => 0,
            }
        } else if self.is_in_table(at) {
            self.vectors[(at / 16) as usize].word(at / 4 % 4)
        } else {
            0
        }
    }

    /// Writes a register that concerns this endpoint alone: interrupt control or a vector's word.
    #[tactic(auto, unfolding(crate::specs::Registers::register_written))]
    fn write(&mut self, bar: u8, at: u32, value: u32)
        requires sound { IsWholeEndpoint self.old }
        ensures { self.new ≡ register_written bar at value self.old }
    {
        if bar == 0 {
            if at == INTERRUPT_CONTROL {
                self.control = value % 2 == 1;
            }
        } else if self.is_in_table(at) {
            let v = (at / 16) as usize;
            self.vectors[v] = self.vectors[v].with_word(at / 4 % 4, value);
        }
    }

    /// Makes the change.
    pub(crate) fn apply(&mut self, change: EndpointChange)
        requires sound { IsWholeEndpoint self.old }
        ensures { self.new ≡ after change self.old }
    {
        match change {
            EndpointChange::Raise(v) => self.raise(v),
            EndpointChange::Write { bar, at, value } => self.write(bar, at, value),
            EndpointChange::State(value) => self.state = value,
            EndpointChange::Reset => self.clear(),
            EndpointChange::Take(v) => self.take(v),
        }
    }
}
