// The order of routes that cost the same.
ghost use Rattle.std.specs.Prelude.{◌≡◌, true, false};
ghost use Rattle.routes.specs.Held.{rides_of, Sized};
ghost use Rattle.best.specs.Kept.{NoLonger};

use routes::Route;
use std::cmp::Ordering;

// Whether a route has fewer rides than another, or as many and no greater bytes.
pub fn no_longer(x: Route, y: Route) -> bool
    requires { Sized x × Sized y }
    ensures yes { result ≡ true → NoLonger (rides_of x) (rides_of y) }
    ensures no { result ≡ false → NoLonger (rides_of y) (rides_of x) }
{
    match x.count.cmp(&y.count) {
        Ordering::Less => true,
        Ordering::Equal => x.legs[..x.count] <= y.legs[..y.count],
        Ordering::Greater => false,
    }
}
