// What is judged: a book or a sheet, seen as companies' tables, links and rules. What each of them says is told in the same words.
#![tactic(auto)]

pub mod limits;

ghost use Rattle.std.specs.Prelude.{◌≡◌, ℕ, ◌<◌, length};
ghost use Rattle.outline.specs.Fares.{Table, Fares, fare_at, table_at, link_at, rule_at};
ghost use Rattle.outline.specs.Judging.{same_link};
ghost use Rattle.outline.specs.Sheet.{link_in};

use outline::Rule;

// A company: how many stations it has, its entries, and where each entry stands in the book or the sheet.
pub trait Company: Copy {
    ghost table: { Self → Table };

    ghost place: { Self → ℕ → ℕ → ℕ };

    fn stations(self) -> u16
        ensures { result ≡ (table self).stations };

    // The entry of row i, column j.
    fn entry(self, i: u16, j: u16) -> u16
        requires { (i < (table self).stations) × (j < (table self).stations) }
        ensures { result ≡ fare_at (table self) i j };

    fn place(self, i: u16, j: u16) -> usize
        requires { (i < (table self).stations) × (j < (table self).stations) }
        ensures { result ≡ place self i j };
}

pub trait Source: Copy {
    type Company: Company;

    ghost fares: { Self → Fares };

    ghost place: { Self → ℕ → ℕ → ℕ → ℕ };

    fn companies(self) -> u16
        ensures { result ≡ length (fares self).tables };

    fn company(self, c: u16) -> Self::Company
        requires { c < length (fares self).tables }
        ensures says { Self.Company.table result ≡ table_at (fares self) c }
        ensures stands { Self.Company.place result ≡ place self c };

    fn links(self) -> u16
        ensures { result ≡ length (fares self).links };

    // The four numbers of link k, as a sheet has them.
    fn link(self, k: u16) -> [u16; 4]
        requires { k < length (fares self).links }
        ensures { link_in result 0 ≡ link_at (fares self) k };

    // Whether links j and k are the same. Each source compares them as they stand in it: a book's are four bytes.
    fn same_links(self, j: u16, k: u16) -> bool
        requires { (j < length (fares self).links) × (k < length (fares self).links) }
        ensures { result ≡ same_link (link_at (fares self) j) (link_at (fares self) k) };

    fn rules(self) -> u16
        ensures { result ≡ length (fares self).rules };

    fn rule(self, k: u16) -> Rule
        requires { k < length (fares self).rules }
        ensures { result ≡ rule_at (fares self) k };
}
