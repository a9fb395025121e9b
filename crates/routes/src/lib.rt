// Routes as they are held, and the ride that may come next.
#![tactic(auto)]

pub mod given;

ghost use Rattle.std.specs.Prelude.{◌≡◌, ◌<◌, [], Some};
ghost use Rattle.outline.specs.Book.{network};
ghost use Rattle.outline.specs.Network.{Network};
ghost use Rattle.outline.specs.Routes.{boarded_at, alighted_at, met, meets, repeats};
ghost use Rattle.routes.specs.Held.{rides_of, Sized, Held, pushed, sold_for, Reached, Extended};

use lookup::book::Book;
use outline::{Leg, Station};

// How many rides a route has at most.
pub const MOST_RIDES: usize = 4;

// Up to four rides, what each costs, and the link by which each but the first is reached. Memory is fixed, so there are four places and a count.
// The three lists stand apart so that rides are compared (`best::order`) and matched with a rule's companies as one slice of legs.
// That the count is at most four (`Sized`) stands in contracts: `pushed` makes a route of any, and a ghost field would ask it for a proof.
// So does that a route is held of a book (`Held`): a type with the book in it would have to be shown at each call to hold the same book.
#[derive(Clone, Copy)]
pub struct Route {
    pub legs: [Leg; 4],
    pub fares: [u16; 4],
    pub links: [u8; 4],
    pub count: usize,
}

pub fn boarded(l: Leg) -> Station
    ensures { result ≡ boarded_at l }
{
    Station {
        company: l.company,
        number: l.boarding,
    }
}

pub fn alighted(l: Leg) -> Station
    ensures { result ≡ alighted_at l }
{
    Station {
        company: l.company,
        number: l.alighting,
    }
}

// What a ride costs in yen, where it exists.
pub fn sold(book: Book, l: Leg) -> Option<u16>
    ensures { result ≡ sold_for (network book.entry.bytes.now) l }
{
    if book.companies() <= l.company {
        return None;
    }
    let n = book.stations(l.company);
    if n <= l.boarding || n <= l.alighting || l.boarding == l.alighting {
        return None;
    }
    book.entry(l.company, l.boarding, l.alighting)
}

#[tactic(auto, unfolding(outline::specs::Routes::met, outline::specs::Network::same_station, outline::specs::Tests::either, outline::specs::Tests::both))]
fn met_at(earlier: Leg, x: Station) -> bool
    ensures { result ≡ met earlier x }
{
    boarded(earlier) == x || alighted(earlier) == x
}

// Whether two rides have a station in common.
#[tactic(auto, unfolding(outline::specs::Routes::meets, outline::specs::Tests::either))]
fn share(earlier: Leg, l: Leg) -> bool
    ensures { result ≡ meets earlier l }
{
    met_at(earlier, boarded(l)) || met_at(earlier, alighted(l))
}

impl Route {
    pub fn empty() -> Route
        ensures { ((N : Network) → Held N result) × (rides_of result ≡ []) }
    {
        let none = Leg {
            company: 255,
            boarding: 255,
            alighting: 255,
        };
        Route {
            legs: [none; 4],
            fares: [0; 4],
            links: [0; 4],
            count: 0,
        }
    }

    // This route with one more ride, what it costs and the link by which it is reached.
    pub fn push(mut self, l: Leg, fare: u16, link: u8) -> Route
        requires { Sized self × (self.count < 4) }
        ensures { result ≡ pushed self l fare link }
    {
        let n = self.count;
        self.legs[n] = l;
        self.fares[n] = fare;
        self.links[n] = link;
        self.count = n + 1;
        self
    }

    // Whether a ride brings a station already met.
    pub fn repeats(self, l: Leg) -> bool
        requires { Sized self }
        ensures { result ≡ repeats (rides_of self) l }
    {
        self.legs[..self.count]
            .iter()
            .any(|earlier| share(*earlier, l))
    }

    // The link from the last ride to a ride, where there is one; the first ride needs no link.
    #[tactic(auto, using(crate::proofs::Rides::reach_from_none))]
    fn reach(self, book: Book, l: Leg) -> Option<u8>
        requires { Sized self }
        ensures { Reached (network book.entry.bytes.now) (rides_of self) l result }
    {
        let n = self.count;
        if n == 0 {
            return Some(0);
        }
        let last = self.legs[n - 1];
        book.link_between(alighted(last), boarded(l))
    }

    // This route with one more ride, reached by this link, where that ride is good.
    pub fn by_link(self, book: Book, l: Leg, link: u8) -> Option<Route>
        requires held { Held (network book.bytes.now) self × (self.count < 4) }
        requires reached { Reached (network book.bytes.now) (rides_of self) l (Some link) }
        ensures { Extended (network book.entry.bytes.now) self l result }
    {
        let fare = sold(book, l)?;
        if self.repeats(l) {
            return None;
        }
        Some(self.push(l, fare, link))
    }

    // This route with one more ride, where that ride is good.
    pub fn then(self, book: Book, l: Leg) -> Option<Route>
        requires { Held (network book.bytes.now) self × (self.count < 4) }
        ensures { Extended (network book.entry.bytes.now) self l result }
    {
        let link = self.reach(book, l)?;
        self.by_link(book, l, link)
    }
}
