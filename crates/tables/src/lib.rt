// The companies' tables of a book or a sheet: the first bad entry.
#![tactic(auto)]

ghost use Rattle.std.specs.Prelude.{◌≡◌, ◌<◌};
ghost use Rattle.outline.specs.Judging.{good_entry, row_check, table_check, tables_check};

use outline::Refusal;
use source::{Company, Source};

const MOST_FARE: u16 = 9999;

#[tactic(auto, unfolding(outline::specs::Judging::good_entry, outline::specs::Tests::choose))]
fn good_entry(i: u16, j: u16, x: u16) -> bool
    ensures { result ≡ good_entry i j x }
{
    if i == j {
        return x == 0;
    }
    x <= MOST_FARE
}

// The first bad entry of row i.
#[tactic(auto, unfolding(outline::specs::Refusals::first_below, outline::specs::Judging::row_check), using(laws::proofs::Firsts::first_more, laws::proofs::Firsts::first_ends))]
fn judge_row<C: Company>(company: C, i: u16) -> Result<(), Refusal>
    requires { i < (C.table company).stations }
    ensures { result ≡ row_check (C.place company) (C.table company) i }
{
    for j in 0..company.stations() {
        if !good_entry(i, j, company.entry(i, j)) {
            return Err(Refusal::BadEntry(company.place(i, j)));
        }
    }
    Ok(())
}

#[tactic(auto, unfolding(outline::specs::Refusals::first_below, outline::specs::Judging::table_check), using(laws::proofs::Firsts::first_more, laws::proofs::Firsts::first_ends))]
fn judge_table<C: Company>(company: C) -> Result<(), Refusal>
    ensures { result ≡ table_check (C.place company) (C.table company) }
{
    for i in 0..company.stations() {
        judge_row(company, i)?;
    }
    Ok(())
}

// The first bad entry of all tables.
#[tactic(auto, unfolding(outline::specs::Refusals::first_below, outline::specs::Judging::tables_check), using(laws::proofs::Firsts::first_more, laws::proofs::Firsts::first_ends))]
pub fn judge<S: Source>(source: S) -> Result<(), Refusal>
    ensures { result ≡ tables_check (S.place source) (S.fares source) }
{
    for c in 0..source.companies() {
        judge_table(source.company(c))?;
    }
    Ok(())
}
