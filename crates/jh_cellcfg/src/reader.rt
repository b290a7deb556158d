//! Numbers and arrays at the front of bytes.
ghost use Rattle.std.specs.Prelude.{◌≡◌, ◌+◌, ◌<◌, ◌≤◌, ◌^◌, ◌++◌, ◌∷◌, length};
ghost use Rattle.jh_cellcfg.specs.Spelling.{u16_bytes, u32_bytes, u64_bytes};

/// Bytes of which each call takes some from the front.
#[derive(Drop)]
pub struct Reader<'a> {
    pub rest: &'a [u8],
}

impl<'a> Reader<'a> {
    /// Takes the byte at the front.
    pub fn u8(&mut self) -> u8
        requires { 1 ≤ length self.old.rest.now }
        ensures taken { self.old.rest.now ≡ result ∷ self.new.rest.now }
        ensures fits { result < 2 ^ 8 }
    {
        let (front, rest) = self.rest.split_at(1);
        self.rest = rest;
        front[0]
    }

    /// Takes two bytes at the front: their number, the lowest byte first.
    pub fn u16(&mut self) -> u16
        requires { 2 ≤ length self.old.rest.now }
        ensures taken { self.old.rest.now ≡ u16_bytes result ++ self.new.rest.now }
        ensures fits { result < 2 ^ 16 }
    {
        u16::from_le_bytes(self.array::<2>())
    }

    /// Takes four bytes at the front: their number, the lowest byte first.
    pub fn u32(&mut self) -> u32
        requires { 4 ≤ length self.old.rest.now }
        ensures taken { self.old.rest.now ≡ u32_bytes result ++ self.new.rest.now }
        ensures fits { result < 2 ^ 32 }
    {
        u32::from_le_bytes(self.array::<4>())
    }

    /// Takes eight bytes at the front: their number, the lowest byte first.
    pub fn u64(&mut self) -> u64
        requires { 8 ≤ length self.old.rest.now }
        ensures taken { self.old.rest.now ≡ u64_bytes result ++ self.new.rest.now }
        ensures fits { result < 2 ^ 64 }
    {
        u64::from_le_bytes(self.array::<8>())
    }

    /// Takes `N` bytes at the front, and copies them as they are.
    pub fn array<const N: usize>(&mut self) -> [u8; N]
        requires { N ≤ length self.old.rest.now }
        ensures taken { self.old.rest.now ≡ result ++ self.new.rest.now }
        ensures fits { length result ≡ N }
    {
        let (front, rest) = self.rest.split_at(N);
        self.rest = rest;
        let mut bytes = [0; N];
        bytes.copy_from_slice(front);
        bytes
    }

    /// Takes `count` bytes at the front as a slice, without copying them.
    pub fn bytes(&mut self, count: usize) -> &'a [u8]
        requires { count ≤ length self.old.rest.now }
        ensures taken { self.old.rest.now ≡ result.now ++ self.new.rest.now }
        ensures count { length result.now ≡ count }
    {
        let (front, rest) = self.rest.split_at(count);
        self.rest = rest;
        front
    }
}
