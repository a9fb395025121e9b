// A book filled from a sheet: each body is written into its own part of the lent buffer.
#![tactic(auto)]

ghost use Rattle.std.specs.Prelude.{◌≡◌, ◌+◌, ◌*◌, ◌≤◌, ◌<◌, length};
ghost use Rattle.outline.specs.Tests.{in_order};
ghost use Rattle.outline.specs.Sheet.{companies_in, fares_in};
ghost use Rattle.outline.specs.SheetValid.{ValidSheet};
ghost use Rattle.outline.specs.Writing.{body_in, offset_in, entry_bytes, book_of};
ghost use Rattle.outline.specs.Lending.{filled};

use sheet_layout::sheet::Sheet;
use sheet_layout::table::Table;
use source::Source;

// How many bytes the bodies of the companies have.
#[tactic(auto, using(laws::proofs::Sheet::companies_in_lem))]
fn companies_length(sheet: Sheet) -> usize
    ensures { result ≡ length (in_order (body_in (fares_in sheet.entry.numbers.now)) (companies_in sheet.entry.numbers.now)) }
{
    let mut at = sheet_layout::COUNTS;
    let mut long: usize = 0;
    for c in 0..sheet.companies() {
        let stations = sheet.numbers[at];
        long += layout::company_length(stations as u8);
        at += sheet_layout::table_numbers(stations);
    }
    long
}

// Where the bodies of the companies begin.
#[tactic(auto, using(laws::proofs::Sheet::companies_in_lem))]
fn first_body(sheet: Sheet) -> usize
    ensures { result ≡ 4 + 4 * (companies_in sheet.entry.numbers.now + 2) }
{
    layout::first_body(sheet.companies() as u8)
}

// How many bytes the book of a sheet has.
#[tactic(auto, using(crate::proofs::Turns::companies_few, crate::proofs::Turns::book_long, laws::proofs::Sheet::links_in_lem, laws::proofs::Sheet::rules_in_lem))]
pub fn book_length(sheet: Sheet) -> usize
    ensures { result ≡ length (book_of (fares_in sheet.entry.numbers.now)) }
{
    let links = layout::links_length(sheet.links() as u8);
    let rules = layout::rules_length(sheet.rules() as u8);
    first_body(sheet) + companies_length(sheet) + links + rules
}

// The entries of the companies in the contents. It answers where the last of their bodies ends.
#[tactic(auto, using(laws::proofs::Sheet::companies_in_lem))]
fn put_entries(sheet: Sheet, book: &mut [u8]) -> usize
    requires { 4 * companies_in sheet.numbers.now ≤ length book.old }
    ensures value { result ≡ offset_in (fares_in sheet.entry.numbers.now) (companies_in sheet.entry.numbers.now) }
    ensures book_after { book.new ≡ filled (in_order (entry_bytes (fares_in sheet.entry.numbers.now)) (companies_in sheet.entry.numbers.now)) book.old }
{
    let mut at = sheet_layout::COUNTS;
    let mut offset = first_body(sheet);
    for e in 0..sheet.companies() {
        let stations = sheet.numbers[at];
        let long = layout::company_length(stations as u8);
        let to = bodies::ENTRY * usize::from(e);
        bodies::put_entry(offset, long, &mut book[to..]);
        at += sheet_layout::table_numbers(stations);
        offset += long;
    }
    offset
}

#[tactic(auto, using(crate::proofs::Turns::companies_few, crate::proofs::Turns::links_long, crate::proofs::Turns::rules_long, laws::proofs::Sheet::companies_in_lem, laws::proofs::Sheet::links_in_lem, laws::proofs::Sheet::rules_in_lem))]
fn put_contents(sheet: Sheet, book: &mut [u8])
    requires { 4 * (companies_in sheet.numbers.now + 2) ≤ length book.old }
    ensures { book.new ≡ filled (in_order (entry_bytes (fares_in sheet.entry.numbers.now)) (companies_in sheet.entry.numbers.now + 2)) book.old }
{
    let offset = put_entries(sheet, book);
    let links = layout::links_length(sheet.links() as u8);
    let rules = layout::rules_length(sheet.rules() as u8);
    let to = bodies::ENTRY * usize::from(sheet.companies());
    bodies::put_entry(offset, links, &mut book[to..]);
    let next = to + bodies::ENTRY;
    bodies::put_entry(offset + links, rules, &mut book[next..]);
}

// The bodies of the companies, each into its own part. The loops over the companies stay three: one pass for all would hold three parts of the
// buffer at a time.
#[tactic(auto, using(laws::proofs::Sheet::companies_in_lem))]
fn put_companies(sheet: Sheet, book: &mut [u8])
    requires { length (in_order (body_in (fares_in sheet.numbers.now)) (companies_in sheet.numbers.now)) ≤ length book.old }
    ensures { book.new ≡ filled (in_order (body_in (fares_in sheet.entry.numbers.now)) (companies_in sheet.entry.numbers.now)) book.old }
{
    let mut at = sheet_layout::COUNTS;
    let mut to: usize = 0;
    let n = sheet.companies();
    for c in 0..n {
        let stations = sheet.numbers[at];
        let company = Table {
            sheet: sheet.numbers,
            at,
        };
        bodies::put_company(company, &mut book[to..]);
        to += layout::company_length(stations as u8);
        at += sheet_layout::table_numbers(stations);
    }
}

// The whole book, to the front of the lent buffer.
#[tactic(auto, using(crate::proofs::Turns::companies_few, crate::proofs::Turns::links_long, crate::proofs::Turns::rules_long, crate::proofs::Turns::book_long, laws::proofs::Sheet::companies_in_lem, laws::proofs::Sheet::links_in_lem, laws::proofs::Sheet::rules_in_lem))]
pub fn fill(sheet: Sheet, book: &mut [u8])
    requires { ValidSheet sheet.numbers.now × (length (book_of (fares_in sheet.numbers.now)) ≤ length book.old) }
    ensures { book.new ≡ filled (book_of (fares_in sheet.entry.numbers.now)) book.old }
{
    let links = sheet.links();
    let rules = sheet.rules();
    let contents = layout::HEADER;
    let tables = first_body(sheet);
    let changes = tables + companies_length(sheet);
    let discounts = changes + layout::links_length(links as u8);
    bodies::put_header(sheet.companies(), links, rules, book);
    put_contents(sheet, &mut book[contents..]);
    put_companies(sheet, &mut book[tables..]);
    bodies::put_links(sheet.numbers, sheet.first_link, links, &mut book[changes..]);
    bodies::put_rules(
        sheet.numbers,
        sheet.first_rule,
        rules,
        &mut book[discounts..],
    );
}
