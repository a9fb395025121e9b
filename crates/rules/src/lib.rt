// The rules of a book or a sheet: the first bad one.
#![tactic(auto)]

ghost use Rattle.std.specs.Prelude.{◌≡◌, ℕ, ◌*◌, ◌≤◌, ◌<◌, true, false, length, get_or, ltb};
ghost use Rattle.outline.specs.Tests.{all_below};
ghost use Rattle.outline.specs.Fares.{in_map};
ghost use Rattle.outline.specs.Network.{network_of};
ghost use Rattle.outline.specs.Refusals.{first_below};
ghost use Rattle.outline.specs.Judging.{good_company, good_map, good_maps, good_rule, rule_check};
ghost use Rattle.rules.specs.Rules.{GoodCompanies};

use outline::{Refusal, Rule};
use source::{Company, Source};

const LEAST_RUN: u16 = 2;

const MOST_RUN: u16 = 4;

const MOST_AMOUNT: u16 = 999;

const NO_COMPANY: u16 = 255;

// Whether company i of a rule of so many rides is right: of a ride, existing and other than the one before; else 255.
#[tactic(auto, unfolding(outline::specs::Judging::good_company, outline::specs::Tests::both, outline::specs::Tests::either, outline::specs::Tests::choose))]
fn good_company(companies: [u16; 4], rides: u16, known: u16, i: usize) -> bool
    requires { i < 4 }
    ensures { result ≡ good_company known rides companies i }
{
    let company = companies[i];
    if usize::from(rides) <= i {
        return company == NO_COMPANY;
    }
    company < known && (i == 0 || companies[i - 1] != company)
}

fn good_companies(companies: [u16; 4], rides: u16, known: u16) -> bool
    ensures { result ≡ all_below (good_company known rides companies) 4 }
{
    for i in 0..4 {
        if !good_company(companies, rides, known, i) {
            return false;
        }
    }
    true
}

// Whether a map holds item i.
#[tactic(auto, unfolding(outline::specs::Fares::in_map))]
fn in_map(map: &[u16], i: usize) -> bool
    requires { i < 8 * length map.now }
    ensures { result ≡ in_map map.now i }
{
    let s = (i % 8) as u16;
    (map[i / 8] >> s) % 2 == 1
}

// Whether each number of a map is a byte.
fn are_bytes(map: &[u16]) -> bool
    ensures { result ≡ all_below (λ i. ltb (get_or map.now i 0) 256) (length map.now) }
{
    map.iter().all(|x| *x < 256)
}

// Whether a map holds an item from `start` on and before `end`.
fn holds_some(map: &[u16], start: usize, end: usize) -> bool
    requires { end ≤ 8 * length map.now }
    ensures some { result ≡ true → (i : ℕ) × (start ≤ i) × (i < end) × (in_map map.now i ≡ true) }
    ensures none { result ≡ false → (i : ℕ) → start ≤ i → i < end → in_map map.now i ≡ false }
{
    for i in start..end {
        if in_map(map, i) {
            return true;
        }
    }
    false
}

// Whether a map is of bytes and holds nothing beyond its first items. A number of 0 holds nothing, so its items aren't looked at.
fn good_map(map: &[u16], items: u16) -> bool
    requires { length map.now ≤ 16 }
    ensures { result ≡ good_map map.now items }
{
    if !are_bytes(map) {
        return false;
    }
    let items = usize::from(items);
    for k in items / 8..map.len() {
        if map[k] != 0 && holds_some(map, items.max(8 * k), 8 * k + 8) {
            return false;
        }
    }
    true
}

// Whether the three maps of a rule are right, where its rides and companies are.
#[tactic(auto, unfolding(outline::specs::Judging::good_maps, outline::specs::Tests::both, outline::specs::Network::network_of))]
fn good_maps<S: Source>(source: S, rule: Rule) -> bool
    requires { GoodCompanies (network_of (S.fares source)) rule }
    ensures { result ≡ good_maps (network_of (S.fares source)) rule }
{
    let first = source.company(rule.companies[0]);
    let last = source.company(rule.companies[usize::from(rule.rides) - 1]);
    good_map(&rule.boarding, first.stations())
        && good_map(&rule.alighting, last.stations())
        && good_map(&rule.permitted, source.links())
}

#[tactic(auto, unfolding(outline::specs::Judging::good_rule, outline::specs::Tests::both, outline::specs::Tests::within, outline::specs::Network::network_of))]
fn good_rule<S: Source>(source: S, rule: Rule) -> bool
    ensures { result ≡ good_rule (network_of (S.fares source)) rule }
{
    if !(LEAST_RUN..=MOST_RUN).contains(&rule.rides) {
        return false;
    }
    if !good_companies(rule.companies, rule.rides, source.companies()) {
        return false;
    }
    (1..=MOST_AMOUNT).contains(&rule.amount) && good_maps(source, rule)
}

// The first bad rule.
#[tactic(auto, unfolding(outline::specs::Refusals::first_below), using(laws::proofs::Firsts::first_more, laws::proofs::Firsts::first_ends))]
pub fn judge<S: Source>(source: S) -> Result<(), Refusal>
    ensures { result ≡ first_below (rule_check (network_of (S.fares source))) (network_of (S.fares source)).rules }
{
    for k in 0..source.rules() {
        if !good_rule(source, source.rule(k)) {
            return Err(Refusal::BadRule(usize::from(k)));
        }
    }
    Ok(())
}
