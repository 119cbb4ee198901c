// Bytes put into a buffer, one part after the other: the one way in which the crates above say what a buffer holds. The contracts cite `Room` and `Puts`
// of specs/Put.antt; proofs/Parts.antt has the one theory of a loop, or a row of calls, that puts one part behind the other.
#![tactic(auto)]

ghost use Rattle.std.specs.Prelude.{[], ◌∷◌};
ghost use Rattle.buffers.specs.Put.{Room, Puts};

// Puts one byte at the place `at`, and returns the place behind it.
pub fn put_byte(out: &mut [u8], at: usize, b: u8) -> usize
    requires { Room out.old at (b ∷ []) }
    ensures { Puts out.old at (b ∷ []) out.new result }
{
    out[at] = b;
    at + 1
}

// Puts the bytes from the place `at` on, and returns the place behind them.
pub fn put_bytes(out: &mut [u8], at: usize, bytes: &[u8]) -> usize
    requires { Room out.old at bytes.now }
    ensures { Puts out.old at bytes.now out.new result }
{
    let end = at + bytes.len();
    out[at..end].copy_from_slice(bytes);
    end
}
