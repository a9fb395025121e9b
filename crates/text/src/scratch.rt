// The room that one line is written in, before it is put.
ghost use Rattle.std.specs.Prelude.{◌≡◌, ◌≤◌, ◌++◌, take};

use std::fmt;

// More than the longest line has.
pub const ROOM: usize = 128;

// What was written of a line, in the first `end` bytes. `std::fmt::InlineText` cuts what doesn't fit, and so copies and tests what it holds.
#[derive(Drop)]
pub struct Scratch {
    bytes: [u8; ROOM],
    end: usize,
    ghost within: { end ≤ 128 },
}

impl Scratch {
    pub fn new() -> Scratch
        ensures { result.end ≡ 0 }
    {
        Scratch {
            bytes: [0; ROOM],
            end: 0,
        }
    }

    // What was written.
    pub fn text(&self) -> &[u8]
        ensures { result.now ≡ take self.now.end self.now.bytes }
    {
        &self.bytes[..self.end]
    }
}

// A piece that does not fit is refused whole.
impl fmt::Write for Scratch {
    ghost write_str_gives = { λ s bs t. take t.end t.bytes ≡ take s.end s.bytes ++ bs };

    fn write_str(&mut self, s: &str) -> fmt::Result {
        if ROOM - self.end < s.len() {
            return Err(fmt::Error);
        }
        let end = self.end + s.len();
        self.bytes[self.end..end].copy_from_slice(s.as_bytes());
        self.end = end;
        Ok(())
    }
}
