// A given route, judged.
ghost use Rattle.std.specs.Prelude.{◌≡◌, ◌+◌, ◌*◌, ◌<◌, length};
ghost use Rattle.outline.specs.Book.{network};
ghost use Rattle.outline.specs.Routes.{given_ride, good_length};
ghost use Rattle.routes.specs.Held.{Read};

use crate::Route;
use lookup::book::Book;
use outline::{Leg, Refusal};

#[tactic(auto, unfolding(outline::specs::Routes::good_length, outline::specs::Tests::either))]
fn good_length(n: usize) -> bool
    ensures { result ≡ good_length n }
{
    n == 3 || n == 6 || n == 9 || n == 12
}

// Ride i of a given route.
fn ride(bytes: &[u8], i: usize) -> Leg
    requires { 3 * i + 2 < length bytes.now }
    ensures { result ≡ given_ride bytes.now i }
{
    Leg {
        company: bytes[3 * i],
        boarding: bytes[3 * i + 1],
        alighting: bytes[3 * i + 2],
    }
}

// A given route with its rides, where it is admissible, and if not, its first bad ride.
pub fn judge(book: Book, bytes: &[u8]) -> Result<Route, Refusal>
    ensures { Read (network book.entry.bytes.now) bytes.now result }
{
    if !good_length(bytes.len()) {
        return Err(Refusal::BadRide(0));
    }
    let n = bytes.len() / 3;
    let mut route = Route::empty();
    for i in 0..n {
        let longer = route.then(book, ride(bytes, i));
        route = longer.ok_or(Refusal::BadRide(i))?;
    }
    Ok(route)
}
