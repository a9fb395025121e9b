// A company in a book.
#![tactic(auto)]

ghost use Rattle.std.specs.Prelude.{◌≡◌, ◌*◌, ◌<◌, get_or};
ghost use Rattle.outline.specs.Fares.{fare_at};
ghost use Rattle.outline.specs.Book.{station_count, entry_place, table_of};
ghost use Rattle.layout.specs.Bodies.{CompanySized};

use crate::bytes::word;

// A company's body, of the length that its stations ask for.
#[derive(Clone, Copy)]
pub struct Body<'a> {
    pub bytes: &'a [u8],
    pub ghost sized: { CompanySized bytes.now },
}

impl<'a> Body<'a> {
    pub fn stations(self) -> u8
        ensures { result ≡ station_count self.entry.bytes.now }
    {
        crate::stations(self.bytes)
    }

    // Entry i, counted row by row.
    #[tactic(auto, using(laws::proofs::Reading::entry_at))]
    pub fn nth_fare(self, i: usize) -> u16
        requires { i < station_count self.bytes.now * station_count self.bytes.now }
        ensures { result ≡ get_or (table_of self.entry.bytes.now).fares i 0 }
    {
        word(self.bytes, 1 + 2 * i)
    }
}
