// The selection of discounted runs that counts.
#![tactic(auto)]

mod on_book;

ghost use Rattle.std.specs.Prelude.{◌≡◌, ◌+◌, ◌≤◌, ◌<◌, []};
ghost use Rattle.outline.specs.Book.{network};
ghost use Rattle.outline.specs.Selections.{Earn};
ghost use Rattle.outline.specs.Choosing.{or_rule, best_rule};
ghost use Rattle.outline.specs.Price.{runs_of};
ghost use Rattle.routes.specs.Held.{rides_of, Held};
ghost use Rattle.selection.specs.Chosen.{earn_in, rather_than, Chosen};

use lookup::book::Book;
use matching::Part;
use on_book::OnBook;
use outline::{Payer, Run};
use routes::Route;

// At most two runs, from left to right, and what they earn. Memory is fixed, so there are two places and a count.
#[derive(Clone, Copy)]
pub struct Selection {
    pub one: Run,
    pub two: Run,
    pub count: usize,
    pub total: usize,
}

// Of a rule and a later one, number k: the greater saving, then the lower number.
#[tactic(auto, unfolding(outline::specs::Choosing::or_rule, outline::specs::Tests::choose))]
fn or_rule(held: Option<Payer>, k: u8, saving: Option<u16>) -> Option<Payer>
    ensures { result ≡ or_rule held k saving }
{
    let Some(yen) = saving else {
        return held;
    };
    match held {
        Some(payer) if yen <= payer.yen => held,
        _ => Some(Payer { rule: k, yen }),
    }
}

// The rule that earns most on a run.
fn best_rule(part: Part) -> Option<Payer>
    ensures { result ≡ best_rule (earn_in part.entry.book.bytes.now part.entry.route part.entry.first part.entry.rides) (network part.entry.book.bytes.now).rules }
{
    let mut best = None;
    for k in 0..part.book.rules() {
        let saving = part.earns(k);
        best = or_rule(best, k, saving);
    }
    best
}

impl Selection {
    fn none() -> Selection
        ensures { (earn : Earn) → Chosen earn 0 [] result }
    {
        let run = Run {
            first: 0,
            rides: 0,
            rule: 0,
        };
        Selection {
            one: run,
            two: run,
            count: 0,
            total: 0,
        }
    }

    // This one, with a run before its first.
    fn after(self, run: Run, yen: usize) -> Selection
        requires { (self.count ≤ 1) × (self.total ≤ 65535) × (yen ≤ 65535) }
        ensures { result ≡ record { one = run; two = self.one; count = self.count + 1; total = yen + self.total } }
    {
        let one = self.one;
        Selection {
            one: run,
            two: one,
            count: self.count + 1,
            total: yen + self.total,
        }
    }

    // This one, unless it earns less than what is held, or as much with more runs.
    #[tactic(auto, unfolding(crate::specs::Chosen::rather_than, outline::specs::Tests::choose))]
    fn rather_than(self, held: Selection) -> Selection
        ensures { result ≡ rather_than self held }
    {
        if self.total < held.total {
            return held;
        }
        if held.total < self.total {
            return self;
        }
        if self.count <= held.count {
            return self;
        }
        held
    }
}

// The selection that counts.
pub fn best(book: Book, route: Route) -> Selection
    requires { Held (network book.bytes.now) route }
    ensures { Chosen (earn_in book.entry.bytes.now route) 2 (runs_of (network book.entry.bytes.now) (rides_of route)) result }
{
    let on_book = OnBook { book, route };
    match route.count {
        0 | 1 => Selection::none(),
        2 => on_book.best_of_two(0),
        3 => on_book.best_of_three(0, on_book.best_of_two(1)),
        _ => on_book.best_of_four(),
    }
}
