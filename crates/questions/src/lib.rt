// A question judged: whether its stations are in the book and differ, and its limit is right.
#![tactic(auto)]

ghost use Rattle.std.specs.Prelude.{◌≡◌};
ghost use Rattle.outline.specs.Book.{network};
ghost use Rattle.outline.specs.Questions.{known, question_check};

use lookup::book::Book;
use outline::{Question, Refusal, Station};

const MOST_RIDES: u8 = 4;

#[tactic(auto, unfolding(outline::specs::Questions::known, outline::specs::Tests::both))]
fn is_known(book: Book, x: Station) -> bool
    ensures { result ≡ known (network book.entry.bytes.now) x }
{
    x.company < book.companies() && x.number < book.stations(x.company)
}

#[tactic(auto, unfolding(outline::specs::Questions::question_check, outline::specs::Refusals::demand, outline::specs::Network::same_station, outline::specs::Tests::both, outline::specs::Tests::within))]
pub fn judge(book: Book, question: Question) -> Result<(), Refusal>
    ensures { result ≡ question_check (network book.entry.bytes.now) question }
{
    if !is_known(book, question.from) {
        return Err(Refusal::UnknownStation(0));
    }
    if !is_known(book, question.to) {
        return Err(Refusal::UnknownStation(1));
    }
    if question.from == question.to {
        return Err(Refusal::SameStation);
    }
    if !(1..=MOST_RIDES).contains(&question.limit) {
        return Err(Refusal::BadLimit);
    }
    Ok(())
}
