// A book to its sheet, and a sheet to its book.
#![tactic(auto)]

pub mod trips;

ghost use Rattle.std.specs.Prelude.{◌≡◌};
ghost use Rattle.outline.specs.SheetJudging.{sheet_check};
ghost use Rattle.outline.specs.Lending.{read_answer, read_leaves, write_answer, write_leaves};

use book::good::GoodBook;
use lookup::book::Book;
use outline::Refusal;
use sheet_layout::sheet::Sheet;

// The sheet of a good book, where there is room for it.
fn read_good(good: GoodBook, sheet: &mut [u16]) -> Result<usize, Refusal>
    ensures value { result ≡ read_answer good.entry.book.bytes.now sheet.old }
    ensures sheet_after { sheet.new ≡ read_leaves good.entry.book.bytes.now sheet.old }
{
    let numbers = reading::sheet_length(good.book);
    if sheet.len() < numbers {
        return Err(Refusal::NoRoom);
    }
    reading::fill(good.book, sheet);
    Ok(numbers)
}

// Reads a book into a lent sheet.
pub fn read(book: &[u8], sheet: &mut [u16]) -> Result<usize, Refusal>
    ensures value { result ≡ read_answer book.now sheet.old }
    ensures sheet_after { sheet.new ≡ read_leaves book.now sheet.old }
{
    book::judge(book)?;
    let book = Book { bytes: book };
    read_good(GoodBook { book }, sheet)
}

// The book of a good sheet, where there is room for it.
#[tactic(auto, using(crate::proofs::Room::answers, crate::proofs::Room::leaves))]
fn write_good(sheet: &[u16], book: &mut [u8]) -> Result<usize, Refusal>
    requires { sheet_check sheet.now ≡ Ok tt }
    ensures value { result ≡ write_answer sheet.now book.old }
    ensures book_after { book.new ≡ write_leaves sheet.now book.old }
{
    let sheet = Sheet::new(sheet);
    let bytes = writing::book_length(sheet);
    if book.len() < bytes {
        return Err(Refusal::NoRoom);
    }
    writing::fill(sheet, book);
    Ok(bytes)
}

// Writes a sheet's book into a lent buffer.
pub fn write(sheet: &[u16], book: &mut [u8]) -> Result<usize, Refusal>
    ensures value { result ≡ write_answer sheet.now book.old }
    ensures book_after { book.new ≡ write_leaves sheet.now book.old }
{
    sheet_check::judge(sheet)?;
    write_good(sheet, book)
}
