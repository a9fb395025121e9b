// What is asked of a book by more than one call: the cheapest route, and the list of all pairs.
ghost use Rattle.std.specs.Prelude.{◌≡◌, OnOk};

use outline::{Answer, Question, Refusal, Station};
use std::io;
use std::io::Write;
use text::lines::Lines;

// The answer to a question. A cut one is refused as a list that ends early.
pub fn cheapest(book: &[u8], question: &[u8]) -> Answer {
    let [company, number, to_company, to_number, limit, ..] = *question else {
        return price::answers::refused(Refusal::WrongLength);
    };
    let from = Station { company, number };
    let to = Station {
        company: to_company,
        number: to_number,
    };
    search::cheapest(book, Question { from, to, limit })
}

// Lists the pairs of a book, after the lines that were gathered.
pub fn list<W: Write, const N: usize>(
    to: &mut W,
    lines: &mut Lines<N>,
    book: &[u8],
) -> io::Result<()>
    ensures ok { OnOk result (lines.new.end ≡ 0) }
    ensures same { lines.new.bytes ≡ lines.old.bytes }
{
    lines.write(to)?;
    lister::list(to, book)
}
