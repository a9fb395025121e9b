// The rows of the pair lister's output: a row is the lines from one station, or the line of a refused book. They are put one after the other.
#![tactic(auto)]

ghost use Rattle.std.specs.Prelude.{◌≡◌, ◌≤◌, length};
ghost use Rattle.outline.specs.Book.{network};
ghost use Rattle.outline.specs.Judging.{book_check};
ghost use Rattle.outline.specs.Questions.{Known};
ghost use Rattle.listing.specs.Putting.{Put};
ghost use Rattle.rows.specs.Rows.{first_row, row_text, row_after_from, row_after, is_row, Due};

use book::good::GoodBook;
use lookup::book::Book;
use outline::{Refusal, Station};

// What is put next: the line of a refused book, the lines from a station, or nothing more. `End` is a row and no `None`, since `row_after` and
// `is_row`, of which `rows_are_output` speaks, go on from it.
#[derive(Clone, Copy)]
pub enum Row {
    Refusal(Refusal),
    From(Station),
    End,
}

// The first row of a book. Here the book is judged, and nowhere else.
#[tactic(auto, unfolding(crate::specs::Rows::first_row))]
pub fn first(book: &[u8]) -> Row
    ensures { result ≡ first_row (book_check book.now) }
{
    match book::judge(book) {
        Ok(()) => Row::From(Station {
            company: 0,
            number: 0,
        }),
        Err(x) => Row::Refusal(x),
    }
}

#[tactic(auto, unfolding(crate::specs::Rows::is_row))]
pub fn more(row: Row) -> bool
    ensures { result ≡ is_row row }
{
    match row {
        Row::Refusal(_) => true,
        Row::From(_) => true,
        Row::End => false,
    }
}

// Puts a row at the front of the lent list, and answers how many bytes it has.
#[tactic(auto, unfolding(crate::specs::Rows::Due, crate::specs::Rows::row_text), using(listing::proofs::Putting::put_nothing))]
pub fn put(book: &[u8], row: Row, out: &mut [u8]) -> usize
    requires { Due book.now row × (23040 ≤ length out.old) }
    ensures { Put out.old 0 (row_text (network book.now) row) out.new result × (result ≤ 23040) }
{
    match row {
        Row::Refusal(x) => listing::put_refused(out, x),
        Row::From(x) => {
            let book = Book { bytes: book };
            listing::put_from(GoodBook { book }, x, out)
        }
        Row::End => 0,
    }
}

// The row after the lines from a station.
#[tactic(auto, unfolding(crate::specs::Rows::row_after_from, outline::specs::Tests::choose))]
fn after_station(book: Book, x: Station) -> Row
    requires { Known (network book.bytes.now) x }
    ensures { result ≡ row_after_from (network book.entry.bytes.now) x }
{
    let number = x.number + 1;
    if number < book.stations(x.company) {
        return Row::From(Station {
            company: x.company,
            number,
        });
    }
    let company = x.company + 1;
    if company < book.companies() {
        return Row::From(Station { company, number: 0 });
    }
    Row::End
}

// The row after this one.
#[tactic(auto, unfolding(crate::specs::Rows::Due, crate::specs::Rows::row_after))]
pub fn after(book: &[u8], row: Row) -> Row
    requires { Due book.now row }
    ensures { result ≡ row_after (network book.now) row }
{
    match row {
        Row::Refusal(_) => Row::End,
        Row::From(x) => after_station(Book { bytes: book }, x),
        Row::End => Row::End,
    }
}
