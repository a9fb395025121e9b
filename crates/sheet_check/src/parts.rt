// The parts of a sheet: whether its counts are within their limits, and whether all its numbers are there and none goes on.
ghost use Rattle.std.specs.Prelude.{◌≡◌, ℕ, ◌<◌};
ghost use Rattle.outline.specs.Refusals.{first_below};
ghost use Rattle.outline.specs.Sheet.{companies_in, company_start};
ghost use Rattle.outline.specs.SheetValid.{GoodCounts, CompanyNumbers};
ghost use Rattle.outline.specs.SheetJudging.{counts_check, numbers_check, remainder_check};

use outline::Refusal;
use source::limits;

#[tactic(auto, unfolding(outline::specs::SheetJudging::counts_check, outline::specs::Refusals::demand, outline::specs::Tests::both, outline::specs::Tests::within))]
pub fn judge_counts(sheet: &[u16]) -> Result<(), Refusal>
    ensures { result ≡ counts_check sheet.now }
{
    if sheet.len() < sheet_layout::COUNTS {
        return Err(Refusal::WrongLength);
    }
    let companies = sheet_layout::companies(sheet);
    let links = sheet_layout::links(sheet);
    let rules = sheet_layout::rules(sheet);
    if !limits::good_counts(companies, links, rules) {
        return Err(Refusal::OutsideLimits);
    }
    Ok(())
}

// What is wrong with the numbers of company c, which begin at `at`.
#[tactic(auto, unfolding(outline::specs::SheetJudging::numbers_check, outline::specs::Refusals::demand))]
fn judge_company(sheet: &[u16], c: u16, at: usize) -> Result<(), Refusal>
    requires { at ≡ company_start sheet.now c }
    ensures { result ≡ numbers_check sheet.now c }
{
    if sheet.len() <= at {
        return Err(Refusal::WrongLength);
    }
    let n = sheet[at];
    if !limits::good_stations(n) {
        return Err(Refusal::BadStations(usize::from(c)));
    }
    if sheet.len() - at < sheet_layout::table_numbers(n) {
        return Err(Refusal::WrongLength);
    }
    Ok(())
}

#[tactic(auto, unfolding(outline::specs::Refusals::first_below), using(laws::proofs::Firsts::first_more, laws::proofs::Firsts::first_ends))]
pub fn judge_companies(sheet: &[u16]) -> Result<(), Refusal>
    requires { GoodCounts sheet.now }
    ensures { result ≡ first_below (numbers_check sheet.now) (companies_in sheet.now) }
{
    let mut at = sheet_layout::COUNTS;
    for c in 0..sheet_layout::companies(sheet) {
        judge_company(sheet, c, at)?;
        at += sheet_layout::table_numbers(sheet[at]);
    }
    Ok(())
}

// Whether the sheet ends where its rules do.
#[tactic(auto, unfolding(outline::specs::SheetJudging::remainder_check, outline::specs::Refusals::demand))]
pub fn judge_end(sheet: &[u16]) -> Result<(), Refusal>
    requires good_counts { GoodCounts sheet.now }
    requires by_index { (c : ℕ) → c < companies_in sheet.now → CompanyNumbers sheet.now c }
    ensures { result ≡ remainder_check sheet.now }
{
    let changes = sheet_layout::company_start(sheet, sheet_layout::companies(sheet));
    let discounts = sheet_layout::links_numbers(sheet_layout::links(sheet));
    let rest = sheet_layout::rules_numbers(sheet_layout::rules(sheet));
    if sheet.len() - changes != discounts + rest {
        return Err(Refusal::WrongLength);
    }
    Ok(())
}
