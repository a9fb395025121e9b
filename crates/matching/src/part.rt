// A part of a route, as a run that the rules of a book are tried on.
ghost use Rattle.std.specs.Prelude.{◌≡◌, ◌<◌};
ghost use Rattle.outline.specs.Book.{network};
ghost use Rattle.outline.specs.Matching.{sum_of, same_companies, permitted, reason_of, earns};
ghost use Rattle.routes.specs.Held.{Held};
ghost use Rattle.matching.specs.Runs.{run_in, Inside, cost_reason, ends_reason};

use lookup::book::Book;
use outline::Reason;
use routes::Route;

// Some rides of a route in a row: the first of them, how many they are, and what they cost.
#[derive(Clone, Copy)]
pub struct Part<'a> {
    pub book: Book<'a>,
    pub route: Route,
    pub first: usize,
    pub rides: usize,
    pub sum: usize,
    pub ghost held: { Held (network book.bytes.now) route },
    pub ghost inside: { Inside route first rides },
    pub ghost paid: { sum ≡ sum_of (network book.bytes.now) (run_in route first rides) },
}

impl<'a> Part<'a> {
    ghost use Rattle.matching.specs.Parts.{rides_in};

    // Whether the companies of a run are those of rule k, in their order.
    fn same_companies(self, k: u8) -> bool
        requires { k < (network self.book.bytes.now).rules }
        ensures { result ≡ same_companies ((network self.entry.book.bytes.now).rule k) (rides_in self.entry) }
    {
        let run = &self.route.legs[self.first..self.first + self.rides];
        let companies = self.book.rule_companies(k);
        run.iter()
            .zip(companies)
            .all(|(l, company)| l.company == *company)
    }

    // Whether every change in a run uses a link that rule k permits.
    fn permits_all(self, k: u8) -> bool
        requires { k < (network self.book.bytes.now).rules }
        ensures { result ≡ permitted (network self.entry.book.bytes.now) ((network self.entry.book.bytes.now).rule k) (rides_in self.entry) }
    {
        let map = self.book.rule_permitted(k);
        for i in 1..self.rides {
            if !lookup::in_map(map, self.route.links[self.first + i]) {
                return false;
            }
        }
        true
    }

    // The last tests of rule k: the changes, and the sum of the run's fares.
    fn judge_cost(self, k: u8) -> Result<u16, Reason>
        requires { k < (network self.book.bytes.now).rules }
        ensures { result ≡ cost_reason (network self.entry.book.bytes.now) ((network self.entry.book.bytes.now).rule k) (rides_in self.entry) }
    {
        if !self.permits_all(k) {
            return Err(Reason::NotPermitted);
        }
        let amount = self.book.rule_amount(k);
        if self.sum <= usize::from(amount) {
            return Err(Reason::NotDearer);
        }
        Ok(amount)
    }

    // The tests of rule k from the two ends of the run on.
    fn judge_ends(self, k: u8) -> Result<u16, Reason>
        requires { k < (network self.book.bytes.now).rules }
        ensures { result ≡ ends_reason (network self.entry.book.bytes.now) ((network self.entry.book.bytes.now).rule k) (rides_in self.entry) }
    {
        let start = self.route.legs[self.first];
        if !lookup::in_map(self.book.rule_boarding(k), start.boarding) {
            return Err(Reason::NotBoarded);
        }
        let end = self.route.legs[self.first + self.rides - 1];
        if !lookup::in_map(self.book.rule_alighting(k), end.alighting) {
            return Err(Reason::NotAlighted);
        }
        self.judge_cost(k)
    }

    // What rule k earns on the run, or why it does not match.
    pub fn judge(self, k: u8) -> Result<u16, Reason>
        requires { k < (network self.book.bytes.now).rules }
        ensures { result ≡ reason_of (network self.entry.book.bytes.now) ((network self.entry.book.bytes.now).rule k) (rides_in self.entry) }
    {
        if usize::from(self.book.rule_rides(k)) != self.rides {
            return Err(Reason::WrongRides);
        }
        if !self.same_companies(k) {
            return Err(Reason::WrongCompanies);
        }
        self.judge_ends(k)
    }

    // What rule k earns on the run.
    pub fn earns(self, k: u8) -> Option<u16>
        requires { k < (network self.book.bytes.now).rules }
        ensures { result ≡ earns (network self.entry.book.bytes.now) (rides_in self.entry) k }
    {
        self.judge(k).ok()
    }
}
