// The numbers of a company in a sheet.
#![tactic(auto)]

ghost use Rattle.std.specs.Prelude.{◌≡◌, ◌+◌, ◌≤◌, length, get_or};
ghost use Rattle.outline.specs.Sheet.{table_numbers, fare_index, table_in};

use source::Company;

// A company's numbers: the sheet, and where in it they begin.
#[derive(Clone, Copy)]
pub struct Table<'a> {
    pub sheet: &'a [u16],
    pub at: usize,
    pub ghost inside: { at + table_numbers (get_or sheet.now at 0) ≤ length sheet.now },
}

impl<'a> Table<'a> {
    // The fares, row by row.
    #[tactic(auto, unfolding(outline::specs::Sheet::table_in))]
    pub fn fares(self) -> &'a [u16]
        ensures { result.now ≡ (table_in self.entry.sheet.now self.entry.at).fares }
    {
        let n = usize::from(self.sheet[self.at]);
        crate::numbers(self.sheet, self.at + 1, n * n)
    }
}

impl<'a> Company for Table<'a> {
    ghost table = { λ table. table_in table.sheet.now table.at };

    ghost place = { λ table i j. table.at + fare_index (get_or table.sheet.now table.at 0) i j };

    #[tactic(auto, unfolding(outline::specs::Sheet::table_in))]
    fn stations(self) -> u16 {
        self.sheet[self.at]
    }

    fn entry(self, i: u16, j: u16) -> u16 {
        self.sheet[self.place(i, j)]
    }

    fn place(self, i: u16, j: u16) -> usize {
        self.at + crate::fare_index(self.sheet[self.at], i, j)
    }
}
