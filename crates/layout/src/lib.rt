// The layout of a book: where its counts, bodies, entries, links and rules stand. No other crate knows an offset or a size.
#![tactic(auto)]

pub mod bytes;
pub mod company;
pub mod rule;

ghost use Rattle.std.specs.Prelude.{◌≡◌, ◌+◌, ◌*◌, ◌≤◌, ◌<◌, length, get_or};
ghost use Rattle.outline.specs.Fares.{fare_at};
ghost use Rattle.outline.specs.Book.{company_count, link_count, rule_count, offset_of, length_of, rules_entry, end_before, body_of, station_count, company_length, entry_place, table_of, link_length, link_of, rule_length};
ghost use Rattle.outline.specs.Valid.{Header};
ghost use Rattle.layout.specs.Bodies.{Listed, CompanySized};

use bytes::word;
use outline::{Link, Station};

pub const LAYOUT: u8 = 1;

pub const HEADER: usize = 4;

const CONTENTS_ENTRY: usize = 4;

const LINK: usize = 4;

const RULE: usize = 33;

pub fn companies(book: &[u8]) -> u8
    requires { 4 ≤ length book.now }
    ensures { result ≡ company_count book.now }
{
    book[1]
}

pub fn links(book: &[u8]) -> u8
    requires { 4 ≤ length book.now }
    ensures { result ≡ link_count book.now }
{
    book[2]
}

pub fn rules(book: &[u8]) -> u8
    requires { 4 ≤ length book.now }
    ensures { result ≡ rule_count book.now }
{
    book[3]
}

// Where the bodies begin, after the contents of so many companies, the links and the rules.
pub fn first_body(companies: u8) -> usize
    ensures { result ≡ 4 + 4 * (companies + 2) }
{
    HEADER + CONTENTS_ENTRY * (usize::from(companies) + 2)
}

// The offset that entry e of the contents tells.
#[tactic(auto, unfolding(outline::specs::Book::offset_of))]
pub fn offset(book: &[u8], e: usize) -> usize
    requires { Listed book.now e }
    ensures { (result ≡ offset_of book.now e) × (result < 65536) }
{
    usize::from(word(book, HEADER + CONTENTS_ENTRY * e))
}

// The length that entry e of the contents tells.
#[tactic(auto, unfolding(outline::specs::Book::length_of))]
pub fn extent(book: &[u8], e: usize) -> usize
    requires { Listed book.now e }
    ensures { (result ≡ length_of book.now e) × (result < 65536) }
{
    usize::from(word(book, HEADER + CONTENTS_ENTRY * e + 2))
}

// The body that entry e of the contents tells.
#[tactic(auto, unfolding(outline::specs::Book::body_of), using(laws::proofs::Reading::lent_part))]
pub fn body(book: &[u8], e: usize) -> &[u8]
    requires listed { Listed book.now e }
    requires e_in_bounds { offset_of book.now e + length_of book.now e ≤ length book.now }
    ensures result_value { result.now ≡ body_of book.now e }
    ensures ref_ptr_value { (result.ref_ptr.0 ≡ book.entry.ref_ptr.0) × (result.ref_ptr.1 ≡ book.entry.ref_ptr.1 + offset_of book.now e) }
{
    let from = offset(book, e);
    let to = from + extent(book, e);
    &book[from..to]
}

// Where the part before entry e's body ends.
#[tactic(auto, using(laws::proofs::Reading::end_first, laws::proofs::Reading::end_after))]
pub fn end_before(book: &[u8], e: usize) -> usize
    requires { Header book.now × (e ≤ rules_entry book.now) }
    ensures { result ≡ end_before book.now e }
{
    if e == 0 {
        return first_body(companies(book));
    }
    offset(book, e - 1) + extent(book, e - 1)
}

pub fn company_length(n: u8) -> usize
    ensures { result ≡ company_length n }
{
    let m = usize::from(n);
    1 + 2 * (m * m)
}

// The bytes of so many links. It and that of the rules stay two: one for both would take the size, which no other file knows.
pub fn links_length(n: u8) -> usize
    ensures { result ≡ link_length * n }
{
    LINK * usize::from(n)
}

// The bytes of so many rules.
pub fn rules_length(n: u8) -> usize
    ensures { result ≡ rule_length * n }
{
    RULE * usize::from(n)
}

// Where the entry of row i, column j begins in the body of a company of n stations.
pub fn entry_place(n: u8, i: u8, j: u8) -> usize
    ensures { (result ≡ entry_place n i j) × (result < 131072) }
{
    1 + 2 * (usize::from(i) * usize::from(n) + usize::from(j))
}

// How many stations a company has, from its body.
pub fn stations(body: &[u8]) -> u8
    requires { 0 < length body.now }
    ensures { result ≡ station_count body.now }
{
    body[0]
}

// How many entries the table of n stations has.
pub fn entries(n: u8) -> usize
    ensures { result ≡ n * n }
{
    usize::from(n) * usize::from(n)
}

// The number in row i, column j of a company's body.
#[tactic(auto, using(laws::proofs::Reading::cell, laws::proofs::Reading::fare_at_lem))]
pub fn fare(body: &[u8], i: u8, j: u8) -> u16
    requires { CompanySized body.now × (i < station_count body.now) × (j < station_count body.now) }
    ensures { result ≡ fare_at (table_of body.now) i j }
{
    word(body, entry_place(body[0], i, j))
}

// Link k of the links' body.
#[tactic(auto, unfolding(outline::specs::Book::link_of))]
pub fn link(body: &[u8], k: u8) -> Link
    requires { link_length * k + 4 ≤ length body.now }
    ensures { result ≡ link_of body.now k }
{
    let at = LINK * usize::from(k);
    Link {
        one: Station {
            company: body[at],
            number: body[at + 1],
        },
        other: Station {
            company: body[at + 2],
            number: body[at + 3],
        },
    }
}
