// Parts of a route, and what a rule earns on them as runs.
#![tactic(auto)]

mod part;

ghost use Rattle.std.specs.Prelude.{◌≡◌, ◌+◌, ◌*◌, ◌≤◌};
ghost use Rattle.outline.specs.Network.{Network};
ghost use Rattle.outline.specs.Matching.{sum_of};
ghost use Rattle.routes.specs.Held.{Sized, Held};
ghost use Rattle.matching.specs.Runs.{run_in};

pub use part::Part;
use routes::Route;

// What some rides of a route in a row cost, from ride `first` on.
pub fn sum(route: Route, first: usize, rides: usize) -> usize
    requires { Sized route × (first + rides ≤ route.count) }
    ensures { ((N : Network) → Held N route → result ≡ sum_of N (run_in route first rides)) × (result ≤ 65535 * rides) }
{
    let mut sum: usize = 0;
    for fare in &route.fares[first..first + rides] {
        sum += usize::from(*fare);
    }
    sum
}
