// The lists that are lent to the reader and to the writer, and what stands in them afterwards.
use crate::answers::Done;
use crate::sum;

// What stands in a lent list before anything is written.
const BYTES: [u8; 65536] = [165; 65536];

const NUMBERS: [u16; 32768] = [42405; 32768];

// Whether a sheet comes back from a round trip with all the room it needs.
fn sheet_back(given: &[u16]) -> bool {
    sheet::trips::sheet_returns(given, &mut BYTES, &mut NUMBERS)
}

// The same of a book.
fn book_back(given: &[u8]) -> bool {
    sheet::trips::book_returns(given, &mut NUMBERS, &mut BYTES)
}

// Reads a book.
pub fn read(book: &[u8], lent: usize) -> Done {
    let mut all = NUMBERS;
    let room = lent.min(all.len());
    let sheet = &mut all[..room];
    Done {
        written: sheet::read(book, sheet),
        sum: sum::of(sheet),
        back: book_back(book),
    }
}

// Writes the book of a sheet.
fn write(sheet: &[u16], lent: usize) -> Done {
    let mut all = BYTES;
    let room = lent.min(all.len());
    let book = &mut all[..room];
    Done {
        written: sheet::write(sheet, book),
        sum: sum::of(book),
        back: sheet_back(sheet),
    }
}

// Writes the book of the sheet whose numbers these bytes are, two bytes each, the high byte first.
pub fn write_numbers(data: &[u8], lent: usize) -> Done {
    let mut all = NUMBERS;
    let long = all.len().min(data.len() / 2);
    let sheet = &mut all[..long];
    for (number, pair) in sheet.iter_mut().zip(data.chunks_exact(2)) {
        *number = u16::from_be_bytes([pair[0], pair[1]]);
    }
    write(sheet, lent)
}
