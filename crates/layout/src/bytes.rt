// Bytes and two-byte numbers of a lent list, and the bits of a map.
ghost use Rattle.std.specs.Prelude.{◌≡◌, ◌+◌, ◌/◌, ◌%◌, ◌^◌, ◌<◌, length, eqb};
ghost use Rattle.outline.specs.Book.{word_at};

// The two-byte number at `at`, the low byte first.
#[tactic(auto, unfolding(outline::specs::Book::word_at))]
pub fn word(b: &[u8], at: usize) -> u16
    requires { at + 1 < length b.now }
    ensures { result ≡ word_at b.now at }
{
    u16::from_le_bytes([b[at], b[at + 1]])
}

// Bit i mod 8 of x, the byte of a map that holds its item i.
pub fn bit(x: u8, i: u8) -> bool
    ensures { result ≡ eqb ((x / 2 ^ (i % 8)) % 2) 1 }
{
    let s = i % 8;
    (x >> s) % 2 == 1
}
