// A fare book whose parts lie as they should: what it says is read from it, and it is judged.
ghost use Rattle.std.specs.Prelude.{◌≡◌, ◌+◌, ◌≤◌, ◌<◌, length};
ghost use Rattle.outline.specs.Book.{station_count, entry_place, table_of, rule_of, fares_of};
ghost use Rattle.outline.specs.Valid.{LaidOut};
ghost use Rattle.outline.specs.Judging.{entry_offset};

use layout::rule::RuleBytes;
use outline::Rule;
use source::{Company, Source};

#[derive(Clone, Copy)]
pub struct Book<'a> {
    pub bytes: &'a [u8],
    pub ghost laid_out: { LaidOut bytes.now },
}

// A company's body, and where in the book it begins.
#[derive(Clone, Copy)]
pub struct Body<'a> {
    body: layout::company::Body<'a>,
    start: usize,
    ghost near: { start < 65536 },
}

impl<'a> Company for Body<'a> {
    ghost table = { λ body. table_of body.body.bytes.now };

    ghost place = { λ body i j. body.start + entry_place (station_count body.body.bytes.now) i j };

    #[tactic(auto, unfolding(outline::specs::Book::table_of))]
    fn stations(self) -> u16 {
        u16::from(self.body.stations())
    }

    #[tactic(auto, unfolding(outline::specs::Book::table_of))]
    fn entry(self, i: u16, j: u16) -> u16 {
        layout::fare(self.body.bytes, i as u8, j as u8)
    }

    #[tactic(auto, unfolding(outline::specs::Book::table_of))]
    fn place(self, i: u16, j: u16) -> usize {
        self.start + layout::entry_place(self.body.stations(), i as u8, j as u8)
    }
}

// Bytes, each as a number.
fn numbers<const N: usize>(bytes: &[u8]) -> [u16; N]
    requires { length bytes.now ≡ N }
    ensures { result ≡ bytes.now }
{
    let mut numbers = [0; N];
    for (i, byte) in bytes.iter().enumerate() {
        numbers[i] = u16::from(*byte);
    }
    numbers
}

// What a rule's bytes say.
fn rule(bytes: RuleBytes) -> Rule
    ensures { result ≡ rule_of bytes.entry.body.now bytes.entry.k }
{
    Rule {
        rides: u16::from(bytes.rides()),
        companies: numbers(bytes.companies()),
        amount: bytes.amount(),
        boarding: numbers(bytes.boarding()),
        alighting: numbers(bytes.alighting()),
        permitted: numbers(bytes.permitted()),
    }
}

impl<'a> Source for Book<'a> {
    type Company = Body<'a>;

    ghost fares = { λ book. fares_of book.bytes.now };

    ghost place = { λ book. entry_offset book.bytes.now };

    fn companies(self) -> u16 {
        u16::from(layout::companies(self.bytes))
    }

    fn company(self, c: u16) -> Body<'a> {
        Body {
            body: layout::company::Body {
                bytes: layout::body(self.bytes, usize::from(c)),
            },
            start: layout::offset(self.bytes, usize::from(c)),
        }
    }

    fn links(self) -> u16 {
        u16::from(layout::links(self.bytes))
    }

    fn link(self, k: u16) -> [u16; 4] {
        let link = layout::link(self.links_body(), k as u8);
        [
            u16::from(link.one.company),
            u16::from(link.one.number),
            u16::from(link.other.company),
            u16::from(link.other.number),
        ]
    }

    #[tactic(auto, unfolding(outline::specs::Judging::same_link, outline::specs::Network::same_station, outline::specs::Tests::both, outline::specs::Book::network, outline::specs::Network::network_of))]
    fn same_links(self, j: u16, k: u16) -> bool {
        let x = Book::link(self, j as u8);
        let y = Book::link(self, k as u8);
        x.one == y.one && x.other == y.other
    }

    fn rules(self) -> u16 {
        u16::from(layout::rules(self.bytes))
    }

    fn rule(self, k: u16) -> Rule {
        rule(self.rule_bytes(k as u8))
    }
}
