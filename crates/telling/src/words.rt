// The word that each function of the C face returns.
ghost use Rattle.std.specs.Prelude.{◌≡◌, ◌<◌};
ghost use Rattle.outline.specs.Refusals.{place_of};
ghost use Rattle.outline.specs.Lending.{refusal_place_of};
ghost use Rattle.telling.specs.Word.{refused_word, part_word, written_word, most_place};

use book::refusal;
use outline::Refusal;

const NUMBER: u64 = 4294967296;

const PLACE: u64 = 1099511627776;

// The word of a refusal.
pub fn refused(x: Refusal) -> u64
    requires { place_of x < most_place }
    ensures { result ≡ refused_word x }
{
    NUMBER * u64::from(refusal::number(x)) + PLACE * refusal::place(x) as u64
}

// The word of a part of the book.
pub fn part(offset: usize, length: usize) -> u64
    requires { (offset < 65536) × (length < 65536) }
    ensures { result ≡ part_word offset length }
{
    length as u64 + PLACE * offset as u64
}

// The word of what was written or refused.
pub fn written(w: Result<usize, Refusal>) -> u64
    requires { refusal_place_of w < most_place }
    ensures { result ≡ written_word w }
{
    match w {
        Ok(count) => count as u64,
        Err(x) => refused(x),
    }
}
