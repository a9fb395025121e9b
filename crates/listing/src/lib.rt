// The lines of the pair lister.
#![tactic(auto)]

ghost use Rattle.std.specs.Prelude.{◌≡◌, ◌∷◌, [], ◌++◌, ◌+◌, ◌≤◌, ◌<◌, length};
ghost use Rattle.outline.specs.Book.{network};
ghost use Rattle.outline.specs.Questions.{Known};
ghost use Rattle.outline.specs.Lister.{bytes_of_text, line_feed, digit, decimal, field, fare_field, station_fields, answer_fields, line_of, refused_line};
ghost use Rattle.listing.specs.Lines.{line_to, lines_to, lines_from};
ghost use Rattle.listing.specs.Putting.{Put};

use book::good::GoodBook;
use book::refusal;
use outline::{Answer, Question, Refusal, Station};

const MOST_RIDES: u8 = 4;

// The character of a digit.
fn character(d: usize) -> u8
    requires { d < 10 }
    ensures { result ≡ digit d }
{
    b'0' + d as u8
}

#[tactic(auto, using(crate::proofs::Putting::put_one))]
fn put_byte(out: &mut [u8], at: usize, x: u8) -> usize
    requires { at < length out.old }
    ensures { Put out.old at (x ∷ []) out.new result }
{
    out[at] = x;
    at + 1
}

fn put_bytes(out: &mut [u8], at: usize, text: &[u8]) -> usize
    requires { at + length text.now ≤ length out.old }
    ensures { Put out.old at text.now out.new result }
{
    let end = at + text.len();
    out[at..end].copy_from_slice(text);
    end
}

// A number in decimal digits.
fn put_decimal(out: &mut [u8], at: usize, x: usize) -> usize
    requires { at + length (decimal x) ≤ length out.old }
    ensures { Put out.old at (decimal x) out.new result }
{
    if x < 10 {
        return put_byte(out, at, character(x));
    }
    let last = put_decimal(out, at, x / 10);
    put_byte(out, last, character(x % 10))
}

// A number below 65,536, and what stands after it.
fn put_field(out: &mut [u8], at: usize, x: usize, after: u8) -> usize
    requires { (at + 6 ≤ length out.old) × (x < 65536) }
    ensures { Put out.old at (field x after) out.new result × (result ≤ at + 6) }
{
    let end = put_decimal(out, at, x);
    put_byte(out, end, after)
}

fn put_station(out: &mut [u8], at: usize, x: Station) -> usize
    requires { at + 12 ≤ length out.old }
    ensures { Put out.old at (station_fields x) out.new result × (result ≤ at + 12) }
{
    let next = put_field(out, at, usize::from(x.company), b' ');
    put_field(out, next, usize::from(x.number), b' ')
}

fn put_none(out: &mut [u8], at: usize) -> usize
    requires { at + 6 ≤ length out.old }
    ensures { Put out.old at (bytes_of_text "none ") out.new result × (result ≤ at + 6) }
{
    put_bytes(out, at, b"none ")
}

// The fare, or that there is none.
#[tactic(auto, unfolding(outline::specs::Lister::fare_field))]
fn put_fare(out: &mut [u8], at: usize, judged: Result<(), Refusal>, fare: u16) -> usize
    requires { at + 6 ≤ length out.old }
    ensures { Put out.old at (fare_field judged fare) out.new result × (result ≤ at + 6) }
{
    match judged {
        Ok(()) => put_field(out, at, usize::from(fare), b' '),
        Err(_) => put_none(out, at),
    }
}

fn put_answer(out: &mut [u8], at: usize, a: Answer) -> usize
    requires { at + 12 ≤ length out.old }
    ensures { Put out.old at (answer_fields a) out.new result × (result ≤ at + 12) }
{
    let judged = a.judged;
    let rides = put_fare(out, at, judged, a.fare);
    put_field(out, rides, usize::from(a.rides), b'\n')
}

fn put_stations(out: &mut [u8], at: usize, x: Station, y: Station) -> usize
    requires { at + 24 ≤ length out.old }
    ensures { Put out.old at (station_fields x ++ station_fields y) out.new result × (result ≤ at + 24) }
{
    let next = put_station(out, at, x);
    put_station(out, next, y)
}

// The line of a pair and its answer.
pub fn put_line(out: &mut [u8], at: usize, pair: Question, a: Answer) -> usize
    requires { at + 36 ≤ length out.old }
    ensures { Put out.old at (line_of pair a) out.new result × (result ≤ at + 36) }
{
    let fare = put_stations(out, at, pair.from, pair.to);
    put_answer(out, fare, a)
}

// The line of two stations; the same station twice has none.
fn put_pair(good: GoodBook, x: Station, y: Station, out: &mut [u8], at: usize) -> usize
    requires { Known (network good.book.bytes.now) x × Known (network good.book.bytes.now) y × (at + 36 ≤ length out.old) }
    ensures { Put out.old at (line_to (network good.entry.book.bytes.now) x y) out.new result × (result ≤ at + 36) }
{
    if x == y {
        return at;
    }
    let pair = Question {
        from: x,
        to: y,
        limit: MOST_RIDES,
    };
    let answer = search::ask(good, pair);
    put_line(out, at, pair, answer)
}

// The lines from a station to those of a company.
fn put_to(good: GoodBook, x: Station, company: u8, out: &mut [u8], at: usize) -> usize
    requires { Known (network good.book.bytes.now) x × (company < (network good.book.bytes.now).companies) × (at + 1440 ≤ length out.old) }
    ensures { Put out.old at (lines_to (network good.entry.book.bytes.now) x company) out.new result × (result ≤ at + 1440) }
{
    let n = good.book.stations(company);
    let mut end = at;
    for number in 0..n {
        end = put_pair(good, x, Station { company, number }, out, end);
    }
    end
}

// The lines from a station, at the front of the lent list.
pub fn put_from(good: GoodBook, x: Station, out: &mut [u8]) -> usize
    requires { Known (network good.book.bytes.now) x × (23040 ≤ length out.old) }
    ensures { Put out.old 0 (lines_from (network good.entry.book.bytes.now) x) out.new result × (result ≤ 23040) }
{
    let n = good.book.companies();
    let mut end: usize = 0;
    for company in 0..n {
        end = put_to(good, x, company, out, end);
    }
    end
}

// A number of at most twenty digits, and the line feed.
fn put_place(out: &mut [u8], at: usize, x: usize) -> usize
    requires { at + 21 ≤ length out.old }
    ensures { Put out.old at (field x line_feed) out.new result × (result ≤ at + 21) }
{
    let end = put_decimal(out, at, x);
    put_byte(out, end, b'\n')
}

// The line of a refused book, at the front of the lent list.
pub fn put_refused(out: &mut [u8], x: Refusal) -> usize
    requires { 35 ≤ length out.old }
    ensures { Put out.old 0 (refused_line x) out.new result × (result ≤ 35) }
{
    let number = put_bytes(out, 0, b"refused ");
    let place = put_field(out, number, usize::from(refusal::number(x)), b' ');
    put_place(out, place, refusal::place(x))
}
