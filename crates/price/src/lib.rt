// A given route judged and priced.
#![tactic(auto)]

pub mod answers;

ghost use Rattle.std.specs.Prelude.{◌≡◌};
ghost use Rattle.outline.specs.Book.{network};
ghost use Rattle.outline.specs.Routes.{route_of, route_check};
ghost use Rattle.outline.specs.Price.{answer_of, answer_to, price_of};

use book::good::GoodBook;
use lookup::book::Book;
use outline::{Answer, Refusal};
use routes::given;

// The price of a given route of a good book, or what is refused of it.
pub fn price_on(good: GoodBook, route: &[u8]) -> Answer
    ensures { result ≡ answer_to (route_check (network good.entry.book.bytes.now) route.now) (answer_of (network good.entry.book.bytes.now) (route_of route.now)) }
{
    match given::judge(good.book, route) {
        Ok(held) => answers::answer(good, held),
        Err(x) => answers::refused(x),
    }
}

// The price of a given route, or what is refused.
pub fn price(book: &[u8], route: &[u8]) -> Answer
    ensures { result ≡ price_of book.now route.now }
{
    match book::judge(book) {
        Ok(()) => {
            let book = Book { bytes: book };
            price_on(GoodBook { book }, route)
        }
        Err(x) => answers::refused(x),
    }
}
