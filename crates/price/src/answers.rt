// The answer to a route: its fare, and how each ride is paid for.
ghost use Rattle.std.specs.Prelude.{◌≡◌, ◌≤◌};
ghost use Rattle.outline.specs.Tests.{choose};
ghost use Rattle.outline.specs.Book.{network};
ghost use Rattle.outline.specs.Price.{fare_of, belongs, paid_by, unused, place_at, answer_of, refused_answer};
ghost use Rattle.routes.specs.Held.{rides_of, Sized, Held};
ghost use Rattle.selection.specs.Chosen.{runs_in};

use book::good::GoodBook;
use outline::{Answer, Paid, Refusal, Ride, Run};
use routes::Route;
use selection::Selection;

// How ride i is paid for: by this run, or as the others say.
fn paid_in(run: Run, i: usize, others: Paid) -> Paid
    ensures { result ≡ choose (belongs i run) (Paid.ByRule run.rule) others }
{
    if i < run.first {
        return others;
    }
    if i - run.first < run.rides {
        return Paid::ByRule(run.rule);
    }
    others
}

fn paid_by(s: Selection, i: usize) -> Paid
    requires { s.count ≤ 2 }
    ensures { result ≡ paid_by (runs_in s) i }
{
    let one = s.one;
    let two = s.two;
    if s.count == 0 {
        return Paid::Full;
    }
    if s.count == 1 {
        return paid_in(one, i, Paid::Full);
    }
    paid_in(one, i, paid_in(two, i, Paid::Full))
}

fn no_ride() -> Ride
    ensures { result ≡ unused }
{
    Ride {
        company: 255,
        boarding: 255,
        alighting: 255,
        paid: Paid::Full,
    }
}

// Place i of the answer.
fn place(route: Route, runs: Selection, i: usize) -> Ride
    requires { Sized route × (runs.count ≤ 2) }
    ensures { result ≡ place_at (rides_of route) (runs_in runs) i }
{
    let n = route.count;
    if n <= i {
        return no_ride();
    }
    let l = route.legs[i];
    Ride {
        company: l.company,
        boarding: l.boarding,
        alighting: l.alighting,
        paid: paid_by(runs, i),
    }
}

// A route's fare: the sum of entries less what the selection that counts earns.
pub fn fare(good: GoodBook, route: Route) -> u16
    requires { Held (network good.book.bytes.now) route }
    ensures { result ≡ fare_of (network good.entry.book.bytes.now) (rides_of route) }
{
    let sum = matching::sum(route, 0, route.count);
    let runs = selection::best(good.book, route);
    (sum - runs.total) as u16
}

// A route's price.
pub fn answer(good: GoodBook, route: Route) -> Answer
    requires { Held (network good.book.bytes.now) route }
    ensures { result ≡ answer_of (network good.entry.book.bytes.now) (rides_of route) }
{
    let n = route.count;
    let runs = selection::best(good.book, route);
    Answer {
        judged: Ok(()),
        fare: fare(good, route),
        rides: n as u8,
        places: [
            place(route, runs, 0),
            place(route, runs, 1),
            place(route, runs, 2),
            place(route, runs, 3),
        ],
    }
}

// What a refused price or question carries.
pub fn refused(x: Refusal) -> Answer
    ensures { result ≡ refused_answer x }
{
    let none = no_ride();
    Answer {
        judged: Err(x),
        fare: 0,
        rides: 0,
        places: [none, none, none, none],
    }
}
