// The parts of a book, each written to the front of its own part of the lent buffer. With layout this is all that knows a book's places.
#![tactic(auto)]

ghost use Rattle.std.specs.Prelude.{◌≡◌, ◌∷◌, [], ◌++◌, ℕ, ◌+◌, ◌*◌, ◌/◌, ◌%◌, ◌≤◌, ◌<◌, length, get_or};
ghost use Rattle.outline.specs.Tests.{in_order};
ghost use Rattle.outline.specs.Book.{company_length, link_length, rule_length};
ghost use Rattle.outline.specs.Sheet.{table_in, link_numbers, link_in, rule_numbers, rule_in};
ghost use Rattle.outline.specs.Writing.{two_bytes, bytes_of_words, table_bytes, link_bytes, rule_bytes};
ghost use Rattle.outline.specs.Lending.{filled};
ghost use Rattle.bodies.specs.Bytes.{LinkBytes, RuleBytes};

use sheet_layout::rule::RuleNumbers;
use sheet_layout::table::Table;
use source::Company;

// The bytes of an entry of the contents.
pub const ENTRY: usize = 4;

// A number in two bytes, the low byte first.
#[tactic(auto, unfolding(outline::specs::Writing::two_bytes), using(filling::proofs::Filled::two_stores))]
fn put_word(x: u16, book: &mut [u8])
    requires { 2 ≤ length book.old }
    ensures { book.new ≡ filled (two_bytes x) book.old }
{
    let [low, high] = x.to_le_bytes();
    book[0] = low;
    book[1] = high;
}

// Numbers, each as a byte. `numbers::put_bytes` widens where this narrows what is known to be small, so the two stay two.
#[tactic(auto, using(filling::proofs::Filled::filled_none, filling::proofs::Filled::filled_next, filling::proofs::Filled::filled_end))]
fn put_numbers(from: &[u16], book: &mut [u8])
    requires from_in_bounds { length from.now ≤ length book.old }
    requires by_index { (i : ℕ) → i < length from.now → get_or from.now i 0 < 256 }
    ensures { book.new ≡ filled from.now book.old }
{
    for (i, number) in from.iter().enumerate() {
        book[i] = *number as u8;
    }
}

#[tactic(auto, using(filling::proofs::Filled::four_stores))]
pub fn put_header(companies: u16, links: u16, rules: u16, book: &mut [u8])
    requires { (companies < 256) × (links < 256) × (rules < 256) × (4 ≤ length book.old) }
    ensures { book.new ≡ filled (1 ∷ companies ∷ links ∷ rules ∷ []) book.old }
{
    book[0] = layout::LAYOUT;
    book[1] = companies as u8;
    book[2] = links as u8;
    book[3] = rules as u8;
}

// An entry of the contents.
pub fn put_entry(offset: usize, long: usize, book: &mut [u8])
    requires { (offset < 65536) × (long < 65536) × (4 ≤ length book.old) }
    ensures { book.new ≡ filled (two_bytes offset ++ two_bytes long) book.old }
{
    put_word(offset as u16, book);
    put_word(long as u16, &mut book[2..]);
}

// Numbers, each in two bytes.
#[tactic(auto, using(filling::proofs::Bytes::bytes_none, filling::proofs::Bytes::bytes_turn, filling::proofs::Bytes::bytes_end))]
fn put_words(from: &[u16], book: &mut [u8])
    requires { 2 * length from.now ≤ length book.old }
    ensures { book.new ≡ filled (bytes_of_words from.now) book.old }
{
    for (i, number) in from.iter().enumerate() {
        let to = 2 * i;
        put_word(*number, &mut book[to..]);
    }
}

// The body of a company.
#[tactic(auto, unfolding(outline::specs::Sheet::table_in))]
pub fn put_company(table: Table, book: &mut [u8])
    requires at_bound { get_or table.sheet.now table.at 0 < 256 }
    requires at_in_bounds { company_length (get_or table.sheet.now table.at 0) ≤ length book.old }
    ensures { book.new ≡ filled (table_bytes (table_in table.entry.sheet.now table.entry.at)) book.old }
{
    book[0] = table.stations() as u8;
    put_words(table.fares(), &mut book[1..]);
}

// The link whose numbers begin at `at` of the sheet.
#[tactic(auto, unfolding(outline::specs::Sheet::link_in, outline::specs::Writing::link_bytes), using(filling::proofs::Filled::four_stores))]
fn put_link(sheet: &[u16], at: usize, book: &mut [u8])
    requires link_numbers_in_bounds { (at + link_numbers ≤ length sheet.now) × (link_length ≤ length book.old) }
    requires link_bytes { LinkBytes (link_in sheet.now at) }
    ensures { book.new ≡ filled (link_bytes (link_in sheet.now at)) book.old }
{
    book[0] = sheet[at] as u8;
    book[1] = sheet[at + 1] as u8;
    book[2] = sheet[at + 2] as u8;
    book[3] = sheet[at + 3] as u8;
}

// The body of n links whose numbers begin at `first` of the sheet.
#[tactic(auto, using(filling::proofs::InOrder::order_none))]
pub fn put_links(sheet: &[u16], first: usize, n: u16, book: &mut [u8])
    requires n_bound { (n < 256) × (first + link_numbers * n ≤ length sheet.now) × (link_length * n ≤ length book.old) }
    requires by_index { (k : ℕ) → k < n → LinkBytes (link_in sheet.now (first + link_numbers * k)) }
    ensures { book.new ≡ filled (in_order (λ (k : ℕ). link_bytes (link_in sheet.now (first + link_numbers * k))) n) book.old }
{
    for k in 0..n {
        let at = first + sheet_layout::links_numbers(k);
        let to = layout::links_length(k as u8);
        put_link(sheet, at, &mut book[to..]);
    }
}

// The bytes of a rule.
fn put_rule(rule: RuleNumbers, book: &mut [u8])
    requires rule_numbers_in_bounds { rule_length ≤ length book.old }
    requires rule_bytes { RuleBytes (rule_in rule.sheet.now rule.at) }
    ensures { book.new ≡ filled (rule_bytes (rule_in rule.entry.sheet.now rule.entry.at)) book.old }
{
    put_numbers(rule.first(), book);
    put_word(rule.amount(), &mut book[5..]);
    put_numbers(rule.maps(), &mut book[7..]);
}

// The body of n rules whose numbers begin at `first` of the sheet. Its loop is not shared with that of the links: one for both would take
// the writer, its sizes and what it writes as parameters, in more lines than a loop has.
#[tactic(auto, using(filling::proofs::InOrder::order_none))]
pub fn put_rules(sheet: &[u16], first: usize, n: u16, book: &mut [u8])
    requires n_bound { (n < 256) × (first + rule_numbers * n ≤ length sheet.now) × (rule_length * n ≤ length book.old) }
    requires by_index { (k : ℕ) → k < n → RuleBytes (rule_in sheet.now (first + rule_numbers * k)) }
    ensures { book.new ≡ filled (in_order (λ (k : ℕ). rule_bytes (rule_in sheet.now (first + rule_numbers * k))) n) book.old }
{
    for k in 0..n {
        let at = first + sheet_layout::rules_numbers(k);
        let to = layout::rules_length(k as u8);
        put_rule(RuleNumbers { sheet, at }, &mut book[to..]);
    }
}
