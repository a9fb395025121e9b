// The best route so far.
#![tactic(auto)]

pub mod order;

ghost use Rattle.std.specs.Prelude.{◌≡◌, None};
ghost use Rattle.outline.specs.Book.{network};
ghost use Rattle.routes.specs.Held.{rides_of, Held};
ghost use Rattle.laws.specs.Rides.{AllGood};
ghost use Rattle.best.specs.Kept.{Sound, Improves};

use book::good::GoodBook;
use price::answers;
use routes::Route;

// A route and its fare.
#[derive(Clone, Copy)]
pub struct Fared {
    pub fare: u16,
    pub route: Route,
}

// The best route so far, once one is found.
#[derive(Clone, Copy)]
pub struct Best {
    pub found: Option<Fared>,
}

impl Best {
    pub fn none() -> Best
        ensures { result.found ≡ None }
    {
        Best { found: None }
    }

    // What is held, or a route that comes earlier.
    #[tactic(auto, using(crate::proofs::Improving::stays_cheaper))]
    pub fn better(self, good: GoodBook, route: Route) -> Best
        requires sound { Sound (network good.book.bytes.now) self }
        requires held { Held (network good.book.bytes.now) route × AllGood (network good.book.bytes.now) (rides_of route) }
        ensures { Improves (network good.entry.book.bytes.now) self result (λ R. rides_of route ≡ R) }
    {
        let fare = answers::fare(good, route);
        if let Some(held) = self.found {
            if fare > held.fare {
                return self;
            }
            if held.fare == fare && order::no_longer(held.route, route) {
                return self;
            }
        }
        Best {
            found: Some(Fared { fare, route }),
        }
    }
}
