// What a book says: its companies' stations and entries, its links and its rules.
#![tactic(auto)]

pub mod book;

ghost use Rattle.std.specs.Prelude.{◌≡◌, ◌*◌, ◌<◌, length};
ghost use Rattle.outline.specs.Fares.{in_map};
ghost use Rattle.outline.specs.Network.{entry_of, same_station, leads, joins, link_between};
ghost use Rattle.outline.specs.Book.{body_of, links_entry, rules_entry, rule_of, network};

use crate::book::Book;
use layout::bytes::bit;
use layout::rule::RuleBytes;
use outline::{Link, Station};

#[tactic(auto, unfolding(outline::specs::Network::entry_of))]
fn entry_of(x: u16) -> Option<u16>
    ensures { result ≡ entry_of x }
{
    if x == 0 { None } else { Some(x) }
}

#[tactic(auto, unfolding(outline::specs::Network::leads, outline::specs::Network::same_station, outline::specs::Tests::both))]
fn leads_to(l: Link, x: Station, y: Station) -> bool
    ensures { result ≡ leads l x y }
{
    l.one == x && l.other == y
}

// Whether a link joins two stations, walked either way.
#[tactic(auto, unfolding(outline::specs::Network::joins, outline::specs::Tests::either))]
pub fn joined_by(l: Link, x: Station, y: Station) -> bool
    ensures { result ≡ joins l x y }
{
    leads_to(l, x, y) || leads_to(l, y, x)
}

// Whether a map holds item i.
#[tactic(auto, unfolding(outline::specs::Fares::in_map))]
pub fn in_map(map: &[u8], i: u8) -> bool
    requires { i < 8 * length map.now }
    ensures { result ≡ in_map map.now i }
{
    bit(map[usize::from(i / 8)], i)
}

impl<'a> Book<'a> {
    pub fn companies(self) -> u8
        ensures { result ≡ (network self.entry.bytes.now).companies }
    {
        layout::companies(self.bytes)
    }

    pub fn stations(self, company: u8) -> u8
        requires { company < (network self.bytes.now).companies }
        ensures { result ≡ (network self.entry.bytes.now).stations company }
    {
        self.bytes[layout::offset(self.bytes, usize::from(company))]
    }

    // What a ride from one station of a company to another costs in yen, where one is sold.
    pub fn entry(self, company: u8, boarding: u8, alighting: u8) -> Option<u16>
        requires company_bound { company < (network self.bytes.now).companies }
        requires boarding_bound { (boarding < (network self.bytes.now).stations company) × (alighting < (network self.bytes.now).stations company) }
        ensures { result ≡ (network self.entry.bytes.now).entry company boarding alighting }
    {
        let table = layout::body(self.bytes, usize::from(company));
        entry_of(layout::fare(table, boarding, alighting))
    }

    pub fn links(self) -> u8
        ensures { result ≡ (network self.entry.bytes.now).links }
    {
        layout::links(self.bytes)
    }

    // The body of the links.
    pub fn links_body(self) -> &'a [u8]
        ensures { result.now ≡ body_of self.entry.bytes.now (links_entry self.entry.bytes.now) }
    {
        layout::body(self.bytes, usize::from(layout::companies(self.bytes)))
    }

    pub fn link(self, k: u8) -> Link
        requires { k < (network self.bytes.now).links }
        ensures { result ≡ (network self.entry.bytes.now).link k }
    {
        layout::link(self.links_body(), k)
    }

    // The link between two stations, where there is one.
    pub fn link_between(self, x: Station, y: Station) -> Option<u8>
        ensures { result ≡ link_between (network self.entry.bytes.now) x y }
    {
        for k in 0..self.links() {
            if joined_by(self.link(k), x, y) {
                return Some(k);
            }
        }
        None
    }

    pub fn rules(self) -> u8
        ensures { result ≡ (network self.entry.bytes.now).rules }
    {
        layout::rules(self.bytes)
    }

    // The body of the rules.
    pub fn rules_body(self) -> &'a [u8]
        ensures { result.now ≡ body_of self.entry.bytes.now (rules_entry self.entry.bytes.now) }
    {
        layout::body(self.bytes, usize::from(layout::companies(self.bytes)) + 1)
    }

    // The bytes of rule k.
    fn rule_bytes(self, k: u8) -> RuleBytes<'a>
        requires { k < (network self.bytes.now).rules }
        ensures { rule_of result.body.now result.k ≡ (network self.entry.bytes.now).rule k }
    {
        RuleBytes {
            body: self.rules_body(),
            k,
        }
    }

    // How many rides the runs of rule k have.
    pub fn rule_rides(self, k: u8) -> u8
        requires { k < (network self.bytes.now).rules }
        ensures { result ≡ ((network self.entry.bytes.now).rule k).rides }
    {
        self.rule_bytes(k).rides()
    }

    // The four company bytes of rule k.
    pub fn rule_companies(self, k: u8) -> &'a [u8]
        requires { k < (network self.bytes.now).rules }
        ensures { result.now ≡ ((network self.entry.bytes.now).rule k).companies }
    {
        self.rule_bytes(k).companies()
    }

    pub fn rule_amount(self, k: u8) -> u16
        requires { k < (network self.bytes.now).rules }
        ensures { result ≡ ((network self.entry.bytes.now).rule k).amount }
    {
        self.rule_bytes(k).amount()
    }

    // The map of boarding stations of rule k.
    pub fn rule_boarding(self, k: u8) -> &'a [u8]
        requires { k < (network self.bytes.now).rules }
        ensures { result.now ≡ ((network self.entry.bytes.now).rule k).boarding }
    {
        self.rule_bytes(k).boarding()
    }

    // The map of alighting stations of rule k.
    pub fn rule_alighting(self, k: u8) -> &'a [u8]
        requires { k < (network self.bytes.now).rules }
        ensures { result.now ≡ ((network self.entry.bytes.now).rule k).alighting }
    {
        self.rule_bytes(k).alighting()
    }

    // The map of links that rule k permits.
    pub fn rule_permitted(self, k: u8) -> &'a [u8]
        requires { k < (network self.bytes.now).rules }
        ensures { result.now ≡ ((network self.entry.bytes.now).rule k).permitted }
    {
        self.rule_bytes(k).permitted()
    }
}
