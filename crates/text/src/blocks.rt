// Blocks of bytes, read whole.
ghost use Rattle.std.specs.Prelude.{ℕ, ◌<◌, ◌≤◌, IfOk, OnErr, length, take};
ghost use Rattle.std.specs.Io.{ReadsAtMost};
ghost use Rattle.std.specs.Io.KnownBytes.{Consumes, IsAtEnd};

use std::io;
use std::io::Read;

// Reads until the block is full or the input ends, and answers how many bytes were read. A turn goes as far as `read` did, so no `for` fits.
pub fn read_full<R: Read>(from: &mut R, block: &mut [u8]) -> io::Result<usize>
    ensures in_bounds { ReadsAtMost result block.new }
    ensures read { IfOk result (λ n. Consumes (R.remaining from.old) (R.remaining from.new) (take n block.new)) }
    ensures err { OnErr result ((n : ℕ) × (n ≤ length block.new) × Consumes (R.remaining from.old) (R.remaining from.new) (take n block.new)) }
    ensures whole { IfOk result (λ n. n < length block.new → IsAtEnd (R.remaining from.new)) }
{
    let mut done = 0;
    while done < block.len() {
        let n = from.read(&mut block[done..])?;
        if n == 0 {
            break;
        }
        done += n;
    }
    Ok(done)
}
