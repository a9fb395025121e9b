// The parts of a sheet, each written to the front of a part of the lent list. With sheet_layout and bodies this is all that knows a sheet's places.
#![tactic(auto)]

ghost use Rattle.std.specs.Prelude.{◌≡◌, ◌∷◌, [], ◌*◌, ◌≤◌, ◌<◌, length};
ghost use Rattle.outline.specs.Book.{table_of, station_count, rule_of};
ghost use Rattle.outline.specs.Sheet.{table_numbers, table_sheet, link_sheet, rule_numbers, rule_sheet};
ghost use Rattle.outline.specs.Lending.{filled};

use layout::company::Body;
use layout::rule::RuleBytes;
use outline::Link;

// Bytes, each as a number.
#[tactic(auto, using(filling::proofs::Filled::filled_none, filling::proofs::Filled::filled_next, filling::proofs::Filled::filled_end))]
fn put_bytes(from: &[u8], sheet: &mut [u16])
    requires { length from.now ≤ length sheet.old }
    ensures { sheet.new ≡ filled from.now sheet.old }
{
    for (i, byte) in from.iter().enumerate() {
        sheet[i] = u16::from(*byte);
    }
}

#[tactic(auto, using(filling::proofs::Filled::three_stores))]
pub fn put_counts(companies: u8, links: u8, rules: u8, sheet: &mut [u16])
    requires { 3 ≤ length sheet.old }
    ensures { sheet.new ≡ filled (companies ∷ links ∷ rules ∷ []) sheet.old }
{
    sheet[0] = u16::from(companies);
    sheet[1] = u16::from(links);
    sheet[2] = u16::from(rules);
}

// The fares of a company, from its body.
#[tactic(auto, using(filling::proofs::Filled::filled_none, filling::proofs::Filled::filled_next, filling::proofs::Filled::filled_end, laws::proofs::Reading::fares_length))]
fn put_fares(body: Body, sheet: &mut [u16])
    requires { station_count body.bytes.now * station_count body.bytes.now ≤ length sheet.old }
    ensures { sheet.new ≡ filled (table_of body.entry.bytes.now).fares sheet.old }
{
    let n = layout::entries(body.stations());
    for i in 0..n {
        sheet[i] = body.nth_fare(i);
    }
}

// The numbers of a company, from its body.
pub fn put_table(body: Body, sheet: &mut [u16])
    requires { table_numbers (station_count body.bytes.now) ≤ length sheet.old }
    ensures { sheet.new ≡ filled (table_sheet (table_of body.entry.bytes.now)) sheet.old }
{
    sheet[0] = u16::from(body.stations());
    put_fares(body, &mut sheet[1..]);
}

#[tactic(auto, unfolding(outline::specs::Sheet::link_sheet), using(filling::proofs::Filled::four_stores))]
pub fn put_link(l: Link, sheet: &mut [u16])
    requires { 4 ≤ length sheet.old }
    ensures { sheet.new ≡ filled (link_sheet l) sheet.old }
{
    sheet[0] = u16::from(l.one.company);
    sheet[1] = u16::from(l.one.number);
    sheet[2] = u16::from(l.other.company);
    sheet[3] = u16::from(l.other.number);
}

// The numbers of a rule, from its bytes.
pub fn put_rule(rule: RuleBytes, sheet: &mut [u16])
    requires { rule_numbers ≤ length sheet.old }
    ensures { sheet.new ≡ filled (rule_sheet (rule_of rule.entry.body.now rule.entry.k)) sheet.old }
{
    put_bytes(rule.first(), sheet);
    sheet[5] = rule.amount();
    put_bytes(rule.maps(), &mut sheet[6..]);
}
