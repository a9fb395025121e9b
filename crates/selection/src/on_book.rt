// A route held of a book, and the selection for its last rides: of two, of three and of four.
ghost use Rattle.std.specs.Prelude.{◌≡◌, ◌+◌, ◌≤◌};
ghost use Rattle.outline.specs.Book.{network};
ghost use Rattle.outline.specs.Choosing.{or_run, best_from};
ghost use Rattle.routes.specs.Held.{Held};
ghost use Rattle.matching.specs.Runs.{Inside};
ghost use Rattle.selection.specs.Chosen.{earn_in, runs_in, Sound, Chosen};

use crate::{Selection, best_rule};
use lookup::book::Book;
use matching::Part;
use outline::Run;
use routes::Route;

#[derive(Clone, Copy)]
pub struct OnBook<'a> {
    pub book: Book<'a>,
    pub route: Route,
    pub ghost held: { Held (network book.bytes.now) route },
}

impl<'a> OnBook<'a> {
    // The run of so many rides from `at` on, by its best rule, with the rest after it, rather than what is held.
    fn or_run(self, at: usize, rides: usize, rest: Selection, held: Selection) -> Selection
        requires { Inside self.route at rides × Sound (earn_in self.book.bytes.now self.route) 1 rest × Sound (earn_in self.book.bytes.now self.route) 2 held }
        ensures { Chosen (earn_in self.entry.book.bytes.now self.entry.route) (held.count + rest.count + 1) (or_run (earn_in self.entry.book.bytes.now self.entry.route) (network self.entry.book.bytes.now).rules at rides (runs_in rest) (runs_in held)) result }
    {
        let part = Part {
            book: self.book,
            route: self.route,
            first: at,
            rides,
            sum: matching::sum(self.route, at, rides),
        };
        let Some(payer) = best_rule(part) else {
            return held;
        };
        let run = Run {
            first: at,
            rides,
            rule: payer.rule,
        };
        rest.after(run, usize::from(payer.yen)).rather_than(held)
    }

    pub(crate) fn best_of_two(self, at: usize) -> Selection
        requires { at + 2 ≤ self.route.count }
        ensures { Chosen (earn_in self.entry.book.bytes.now self.entry.route) 1 (best_from (earn_in self.entry.book.bytes.now self.entry.route) (network self.entry.book.bytes.now).rules 2 at) result }
    {
        let none = Selection::none();
        self.or_run(at, 2, none, none)
    }

    // Of three rides, where the selection for the last two is given.
    pub(crate) fn best_of_three(self, at: usize, alone: Selection) -> Selection
        requires three { at + 3 ≤ self.route.count }
        requires chosen { Chosen (earn_in self.book.bytes.now self.route) 1 (best_from (earn_in self.book.bytes.now self.route) (network self.book.bytes.now).rules 2 (at + 1)) alone }
        ensures { Chosen (earn_in self.entry.book.bytes.now self.entry.route) 2 (best_from (earn_in self.entry.book.bytes.now self.entry.route) (network self.entry.book.bytes.now).rules 3 at) result }
    {
        let none = Selection::none();
        let three = self.or_run(at, 3, none, alone);
        self.or_run(at, 2, none, three)
    }

    pub(crate) fn best_of_four(self) -> Selection
        requires { 4 ≤ self.route.count }
        ensures { Chosen (earn_in self.entry.book.bytes.now self.entry.route) 2 (best_from (earn_in self.entry.book.bytes.now self.entry.route) (network self.entry.book.bytes.now).rules 4 0) result }
    {
        let none = Selection::none();
        let pair = self.best_of_two(2);
        let alone = self.best_of_three(1, pair);
        let four = self.or_run(0, 4, none, alone);
        let three = self.or_run(0, 3, none, four);
        self.or_run(0, 2, pair, three)
    }
}
