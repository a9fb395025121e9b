// A sheet filled from a book, part after part.
#![tactic(auto)]

ghost use Rattle.std.specs.Prelude.{◌≡◌, ◌≤◌, length};
ghost use Rattle.outline.specs.Book.{fares_of};
ghost use Rattle.outline.specs.Sheet.{tables_sheet, links_sheet, rules_sheet, sheet_of};
ghost use Rattle.outline.specs.Lending.{filled};

use layout::company::Body;
use layout::rule::RuleBytes;
use lookup::book::Book;

// How many numbers the companies of a book have. It and `writing::companies_length` stay two: that one steps through the sheet as it sums,
// and one for both would take the step and the size as closures.
fn tables_length(book: Book) -> usize
    ensures { result ≡ length (tables_sheet (fares_of book.entry.bytes.now)) }
{
    let mut long: usize = 0;
    for c in 0..book.companies() {
        long += sheet_layout::table_numbers(u16::from(book.stations(c)));
    }
    long
}

// How many numbers the sheet of a book has.
#[tactic(auto, using(crate::proofs::Parts::tables_few, crate::proofs::Parts::links_long_of, crate::proofs::Parts::rules_long_of, crate::proofs::Parts::sheet_long, laws::proofs::Reading::network_links, laws::proofs::Reading::network_rules))]
pub fn sheet_length(book: Book) -> usize
    ensures { result ≡ length (sheet_of (fares_of book.entry.bytes.now)) }
{
    let changes = sheet_layout::links_numbers(u16::from(book.links()));
    let discounts = sheet_layout::rules_numbers(u16::from(book.rules()));
    sheet_layout::COUNTS + tables_length(book) + changes + discounts
}

// The numbers of all companies.
fn fill_tables(book: Book, sheet: &mut [u16])
    requires { length (tables_sheet (fares_of book.bytes.now)) ≤ length sheet.old }
    ensures { sheet.new ≡ filled (tables_sheet (fares_of book.entry.bytes.now)) sheet.old }
{
    let mut at: usize = 0;
    for c in 0..book.companies() {
        let body = Body {
            bytes: layout::body(book.bytes, usize::from(c)),
        };
        numbers::put_table(body, &mut sheet[at..]);
        at += sheet_layout::table_numbers(u16::from(body.stations()));
    }
}

// The numbers of all links.
#[tactic(auto, using(filling::proofs::InOrder::order_none, laws::proofs::Reading::network_links, crate::proofs::Parts::links_long_of))]
fn fill_links(book: Book, sheet: &mut [u16])
    requires { length (links_sheet (fares_of book.bytes.now)) ≤ length sheet.old }
    ensures { sheet.new ≡ filled (links_sheet (fares_of book.entry.bytes.now)) sheet.old }
{
    for k in 0..book.links() {
        let at = sheet_layout::links_numbers(u16::from(k));
        numbers::put_link(book.link(k), &mut sheet[at..]);
    }
}

// The numbers of all rules. Their loop and that of the links stay two, as in `bodies::put_rules`.
#[tactic(auto, using(filling::proofs::InOrder::order_none, laws::proofs::Reading::network_rules, crate::proofs::Parts::rules_long_of))]
fn fill_rules(book: Book, sheet: &mut [u16])
    requires { length (rules_sheet (fares_of book.bytes.now)) ≤ length sheet.old }
    ensures { sheet.new ≡ filled (rules_sheet (fares_of book.entry.bytes.now)) sheet.old }
{
    let body = book.rules_body();
    for k in 0..book.rules() {
        let at = sheet_layout::rules_numbers(u16::from(k));
        numbers::put_rule(RuleBytes { body, k }, &mut sheet[at..]);
    }
}

// The whole sheet, to the front of the lent list.
#[tactic(auto, using(crate::proofs::Parts::tables_few, crate::proofs::Parts::links_long_of, crate::proofs::Parts::sheet_long, laws::proofs::Reading::network_links))]
pub fn fill(book: Book, sheet: &mut [u16])
    requires { length (sheet_of (fares_of book.bytes.now)) ≤ length sheet.old }
    ensures { sheet.new ≡ filled (sheet_of (fares_of book.entry.bytes.now)) sheet.old }
{
    let tables = sheet_layout::COUNTS;
    let changes = tables + tables_length(book);
    let discounts = changes + sheet_layout::links_numbers(u16::from(book.links()));
    numbers::put_counts(book.companies(), book.links(), book.rules(), sheet);
    fill_tables(book, &mut sheet[tables..]);
    fill_links(book, &mut sheet[changes..]);
    fill_rules(book, &mut sheet[discounts..]);
}
