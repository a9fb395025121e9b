// The pair lister's output for a book, written row by row.
#![tactic(auto)]

ghost use Rattle.std.specs.Prelude.{OnOk};
ghost use Rattle.std.specs.Io.KnownBytes.{Appends};
ghost use Rattle.outline.specs.Book.{network};
ghost use Rattle.outline.specs.Judging.{book_check};
ghost use Rattle.outline.specs.Lister.{lines_of};

use std::io;
use std::io::Write;

// Writes the rows of a book, one after the other. The buffer has room for the longest. An error is the writer's, and says
// nothing of what it took before. Each row is made of the row before, so there is nothing that a `for` could count.
pub fn list<W: Write>(to: &mut W, book: &[u8]) -> io::Result<()>
    ensures { OnOk result (Appends (W.contents to.old) (W.contents to.new) (lines_of (book_check book.now) (network book.now))) }
{
    let mut out = [0u8; 65536];
    let mut row = rows::first(book);
    while rows::more(row) {
        let end = rows::put(book, row, &mut out);
        to.write_all(&out[..end])?;
        row = rows::after(book, row);
    }
    Ok(())
}
