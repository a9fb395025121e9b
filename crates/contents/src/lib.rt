// The header and the contents: whether each body lies where it should and is as long as it should be.
#![tactic(auto)]

pub mod headed;

ghost use Rattle.std.specs.Prelude.{◌≡◌};
ghost use Rattle.outline.specs.Judging.{header_check};

use outline::Refusal;
use source::limits;

#[tactic(auto, unfolding(outline::specs::Judging::header_check, outline::specs::Refusals::demand, outline::specs::Tests::both, outline::specs::Tests::within))]
pub fn judge_header(book: &[u8]) -> Result<(), Refusal>
    ensures { result ≡ header_check book.now }
{
    if book.len() < layout::HEADER {
        return Err(Refusal::WrongLength);
    }
    if book[0] != layout::LAYOUT {
        return Err(Refusal::UnknownLayout);
    }
    let companies = layout::companies(book);
    let links = layout::links(book);
    let rules = layout::rules(book);
    if !limits::good_counts(u16::from(companies), u16::from(links), u16::from(rules)) {
        return Err(Refusal::OutsideLimits);
    }
    if book.len() < layout::first_body(companies) {
        return Err(Refusal::WrongLength);
    }
    Ok(())
}
