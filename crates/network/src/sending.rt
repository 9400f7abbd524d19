// The bytes of what is sent.
ghost use Rattle.std.specs.Prelude.{◌≡◌, ◌+◌, ◌%◌, ◌^◌, ◌≤◌, length, sum};

// The total with the bytes of a frame more, modulo 2^32.
pub(crate) fn add_bytes(from: u32, bytes: &[u8]) -> u32
    requires { length bytes.now ≤ 1514 }
    ensures { result ≡ (from + sum bytes.now) % 2 ^ 32 }
{
    from.wrapping_add(bytes.iter().map(|b| u32::from(*b)).sum::<u32>())
}
