// A sheet judged: its counts, its companies' numbers and its end, and then its entries, links and rules.
#![tactic(auto)]

pub mod parts;

ghost use Rattle.std.specs.Prelude.{◌≡◌};
ghost use Rattle.outline.specs.SheetJudging.{sheet_check};

use outline::Refusal;
use sheet_layout::sheet::Sheet;

// Whether a sheet is good, and if not, what is refused.
pub fn judge(numbers: &[u16]) -> Result<(), Refusal>
    ensures { result ≡ sheet_check numbers.now }
{
    parts::judge_counts(numbers)?;
    parts::judge_companies(numbers)?;
    parts::judge_end(numbers)?;
    let sheet = Sheet::new(numbers);
    tables::judge(sheet)?;
    links::judge(sheet)?;
    rules::judge(sheet)
}
