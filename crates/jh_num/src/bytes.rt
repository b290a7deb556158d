//! Numbers that bytes spell.
ghost use Rattle.std.specs.Prelude.{◌≡◌, ◌<◌, ◌≤◌, ◌^◌, length};
ghost use Rattle.jh_num.specs.Memory.{spelled};

/// The number that at most eight bytes spell, the lowest first.
pub fn spelled(bytes: &[u8]) -> u64
    requires { length bytes.now ≤ 8 }
    ensures value { result ≡ spelled bytes.now }
    ensures fits { result < 256 ^ length bytes.now }
{
    let mut number = 0;
    for k in 0..bytes.len() {
        number = number * 256 + u64::from(bytes[bytes.len() - 1 - k]);
    }
    number
}
