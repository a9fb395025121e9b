// The layout of a sheet: where its counts, tables, links and rules stand. Beside it only `numbers` and `bodies` know a place or a size in it.
#![tactic(auto)]

pub mod rule;
pub mod sheet;
pub mod table;

ghost use Rattle.std.specs.Prelude.{◌≡◌, ℕ, ◌+◌, ◌*◌, ◌≤◌, ◌<◌, length};
ghost use Rattle.outline.specs.Tests.{part};
ghost use Rattle.outline.specs.Sheet.{companies_in, links_in, rules_in, table_numbers, company_start, fare_index, link_numbers, rule_numbers};
ghost use Rattle.outline.specs.SheetValid.{CompanyNumbers};

pub const COUNTS: usize = 3;

const LINK: usize = 4;

const RULE: usize = 32;

pub fn companies(sheet: &[u16]) -> u16
    requires { 3 ≤ length sheet.now }
    ensures { result ≡ companies_in sheet.now }
{
    sheet[0]
}

pub fn links(sheet: &[u16]) -> u16
    requires { 3 ≤ length sheet.now }
    ensures { result ≡ links_in sheet.now }
{
    sheet[1]
}

pub fn rules(sheet: &[u16]) -> u16
    requires { 3 ≤ length sheet.now }
    ensures { result ≡ rules_in sheet.now }
{
    sheet[2]
}

// How many numbers a company of n stations has.
pub fn table_numbers(n: u16) -> usize
    ensures { (result ≡ table_numbers n) × (result < 4294967296) }
{
    let m = usize::from(n);
    1 + m * m
}

// Where the numbers of company c begin.
#[tactic(auto, using(laws::proofs::Sheet::start_first, laws::proofs::Sheet::start_more))]
pub fn company_start(sheet: &[u16], c: u16) -> usize
    requires { (d : ℕ) → d < c → CompanyNumbers sheet.now d }
    ensures { result ≡ company_start sheet.now c }
{
    let mut at: usize = COUNTS;
    for d in 0..c {
        at += table_numbers(sheet[at]);
    }
    at
}

// Where the entry of row i, column j stands among the numbers of a company of n stations.
pub fn fare_index(n: u16, i: u16, j: u16) -> usize
    ensures { (result ≡ fare_index n i j) × (result < 8589934592) }
{
    1 + (usize::from(i) * usize::from(n) + usize::from(j))
}

// The numbers of so many links. It and that of the rules stay two: one for both would take the size, which is known here.
pub fn links_numbers(k: u16) -> usize
    ensures { (result ≡ link_numbers * k) × (result < 262144) }
{
    LINK * usize::from(k)
}

// The numbers of so many rules.
pub fn rules_numbers(k: u16) -> usize
    ensures { (result ≡ rule_numbers * k) × (result < 2097152) }
{
    RULE * usize::from(k)
}

// So many numbers from `from` on.
#[tactic(auto, using(laws::proofs::Reading::lent_part))]
fn numbers(sheet: &[u16], from: usize, n: usize) -> &[u16]
    requires { from + n ≤ length sheet.now }
    ensures { result.now ≡ part sheet.now from n }
{
    let end = from + n;
    &sheet[from..end]
}
