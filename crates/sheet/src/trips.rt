// Both round trips: there, back, and compared.
ghost use Rattle.std.specs.Prelude.{◌≡◌, ◌≤◌, length, leb};
ghost use Rattle.outline.specs.Tests.{choose};
ghost use Rattle.outline.specs.Book.{fares_of};
ghost use Rattle.outline.specs.Valid.{ValidBook};
ghost use Rattle.outline.specs.Sheet.{fares_in, sheet_of};
ghost use Rattle.outline.specs.SheetValid.{ValidSheet};
ghost use Rattle.outline.specs.Writing.{book_of};
ghost use Rattle.outline.specs.Lending.{filled, read_leaves, write_leaves};
ghost use Rattle.sheet.specs.Trips.{sheet_returns, book_returns};

// Whether the book of a valid sheet reads back as the sheet, where there is room.
fn sheet_read(sheet: &[u16], book: &[u8], again: &mut [u16]) -> bool
    requires { ValidSheet sheet.now × (book.now ≡ book_of (fares_in sheet.now)) }
    ensures value { result ≡ leb (length sheet.now) (length again.old) }
    ensures again_after { again.new ≡ choose (leb (length sheet.now) (length again.old)) (filled sheet.now again.old) again.old }
{
    let got = crate::read(book, again);
    match got {
        Err(_) => false,
        Ok(n) => again[..n] == sheet[..],
    }
}

// Writes a sheet's book, reads that back, and compares: true exactly where the sheet is valid and both lent lists have room.
pub fn sheet_returns(sheet: &[u16], book: &mut [u8], again: &mut [u16]) -> bool
    ensures value { result ≡ sheet_returns sheet.now book.old again.old }
    ensures book_after { book.new ≡ write_leaves sheet.now book.old }
    ensures again_after { again.new ≡ choose result (filled sheet.now again.old) again.old }
{
    let wrote = crate::write(sheet, book);
    match wrote {
        Err(_) => false,
        Ok(n) => sheet_read(sheet, &book[..n], again),
    }
}

// Whether the sheet of a valid book is written as the book, where there is room.
fn book_written(book: &[u8], sheet: &[u16], again: &mut [u8]) -> bool
    requires { ValidBook book.now × (sheet.now ≡ sheet_of (fares_of book.now)) }
    ensures value { result ≡ leb (length book.now) (length again.old) }
    ensures again_after { again.new ≡ choose (leb (length book.now) (length again.old)) (filled book.now again.old) again.old }
{
    let wrote = crate::write(sheet, again);
    match wrote {
        Err(_) => false,
        Ok(n) => again[..n] == book[..],
    }
}

// Reads a book's sheet, writes that again, and compares: true exactly where the book is valid and both lent lists have room.
pub fn book_returns(book: &[u8], sheet: &mut [u16], again: &mut [u8]) -> bool
    ensures value { result ≡ book_returns book.now sheet.old again.old }
    ensures sheet_after { sheet.new ≡ read_leaves book.now sheet.old }
    ensures again_after { again.new ≡ choose result (filled book.now again.old) again.old }
{
    let got = crate::read(book, sheet);
    match got {
        Err(_) => false,
        Ok(n) => book_written(book, &sheet[..n], again),
    }
}
