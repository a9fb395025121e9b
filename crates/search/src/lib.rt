// The cheapest route, by a search that goes from ride to change and from change to ride.
#![tactic(auto)]

ghost use Rattle.std.specs.Prelude.{◌≡◌, ◌+◌, ◌-◌, ◌≤◌, ◌<◌, length, get_or, ltb};
ghost use Rattle.outline.specs.Book.{network};
ghost use Rattle.outline.specs.Judging.{book_check};
ghost use Rattle.outline.specs.Refusals.{◌and_then◌};
ghost use Rattle.outline.specs.Questions.{question_check, Answered, Asked};
ghost use Rattle.routes.specs.Held.{rides_of, Sized, Held};
ghost use Rattle.cheapest.specs.Onward.{From, Direct, near_end, far_end};
ghost use Rattle.best.specs.Kept.{Improves};
ghost use Rattle.search.specs.Steps.{Ready, Arrived, Toward, Alighted, beyond, touches, Skips, leads_on, FirstOn};
ghost use Rattle.outline.specs.Tests.{choose};

use best::Best;
use book::good::GoodBook;
use lookup::book::Book;
use outline::{Answer, Leg, Link, Question, Refusal, Station};
use price::answers;
use routes::Route;

#[tactic(auto, unfolding(cheapest::specs::Onward::near_end, outline::specs::Tests::choose))]
fn near_end(l: Link, company: u8) -> Station
    ensures { result ≡ near_end l company }
{
    if l.one.company == company {
        return l.one;
    }
    l.other
}

#[tactic(auto, unfolding(cheapest::specs::Onward::far_end, outline::specs::Tests::choose))]
fn far_end(l: Link, company: u8) -> Station
    ensures { result ≡ far_end l company }
{
    if l.one.company == company {
        return l.other;
    }
    l.one
}

// The ride from a station that `path` has come to by this link, to another of its company.
fn ride(book: Book, path: Route, at: Station, link: u8, to: Station) -> Option<Route>
    requires { Held (network book.bytes.now) path × (path.count < 4) × Arrived (network book.bytes.now) (rides_of path) at link }
    ensures { Toward (network book.entry.bytes.now) path at to result }
{
    if at.company != to.company {
        return None;
    }
    path.by_link(
        book,
        Leg {
            company: at.company,
            boarding: at.number,
            alighting: to.number,
        },
        link,
    )
}

// The ride to the end of link k that is a station of the company.
fn to_link(book: Book, path: Route, at: Station, link: u8, k: u8) -> Option<Route>
    requires arrived { Held (network book.bytes.now) path × (path.count < 4) × Arrived (network book.bytes.now) (rides_of path) at link }
    requires k_bound { k < (network book.bytes.now).links }
    ensures { Toward (network book.entry.bytes.now) path at (near_end ((network book.entry.bytes.now).link k) at.company) result }
{
    let near = near_end(book.link(k), at.company);
    ride(book, path, at, link, near)
}

// Whether a link has an end in the company and, where only one ride may follow it, the other end in the goal's company.
#[tactic(auto, unfolding(crate::specs::Steps::leads_on, outline::specs::Tests::both, outline::specs::Tests::either))]
fn leads_on(l: Link, company: u8, goal: Station, left: usize) -> bool
    ensures { result ≡ leads_on l company goal left }
{
    let near = near_end(l, company);
    let far = far_end(l, company);
    near.company == company && (2 < left || far.company == goal.company)
}

// Link k where it has an end in the company, or else the link `next`.
#[tactic(auto, unfolding(crate::specs::Steps::touches, outline::specs::Tests::either, outline::specs::Tests::choose))]
fn this_or(l: Link, company: u8, k: u8, next: u8) -> u8
    ensures { result ≡ choose (touches l company) k next }
{
    if l.one.company == company || l.other.company == company {
        return k;
    }
    next
}

// Puts for each link, and for the number of links, the next link that has an end in the company: the last ride of a route is reached by one.
fn put_skips(book: Book, company: u8, skips: &mut [u8])
    requires { 128 < length skips.old }
    ensures { Skips (network book.entry.bytes.now) company skips.new }
{
    let n = book.links();
    let body = book.links_body();
    let mut next = n;
    skips[usize::from(n)] = n;
    for k in (0..n).rev() {
        next = this_or(layout::link(body, k), company, k, next);
        skips[usize::from(k)] = next;
    }
}

// The link from which to look on: where one ride may follow it, the next with an end in the goal's company.
#[tactic(auto, unfolding(outline::specs::Tests::choose))]
fn skipped(skips: &[u8], left: usize, k: u8) -> u8
    requires { k < length skips.now }
    ensures { result ≡ choose (ltb 2 left) k (get_or skips.now k 0) }
{
    if 2 < left {
        return k;
    }
    skips[usize::from(k)]
}

// The station at the other end of link k.
fn over(book: Book, path: Route, k: u8) -> Station
    requires { Sized path × Alighted (network book.bytes.now) (rides_of path) k }
    ensures { result ≡ beyond (network book.entry.bytes.now) (rides_of path) k }
{
    let last = path.legs[path.count - 1];
    far_end(book.link(k), last.company)
}

// A search: its book, its goal, and from which link to look on for one with an end in the goal's company.
#[derive(Clone, Copy)]
struct Search<'a> {
    good: GoodBook<'a>,
    goal: Station,
    skips: &'a [u8],
    ghost skipping: { Skips (network good.book.bytes.now) goal.company skips.now },
}

impl<'a> Search<'a> {
    // The ride to the goal, where it ends a route that is better than what is held.
    fn arrive(&self, path: Route, at: Station, link: u8, best: Best) -> Best
        requires { Ready self.now.good.book.bytes.now path 1 best × Arrived (network self.now.good.book.bytes.now) (rides_of path) at link }
        ensures { Improves (network self.now.good.book.bytes.now) best result (Direct (network self.now.good.book.bytes.now) self.now.goal (rides_of path) at) }
    {
        match ride(self.good.book, path, at, link, self.goal) {
            Some(whole) => best.better(self.good, whole),
            None => best,
        }
    }

    // The first link from `from` on that leads on, where there is one. A `for` would look at the links that are skipped too.
    fn next_link(&self, company: u8, left: usize, from: u8) -> Option<u8>
        requires { from ≤ (network self.now.good.book.bytes.now).links }
        ensures { FirstOn (network self.now.good.book.bytes.now) company self.now.goal left from result }
    {
        let n = self.good.book.links();
        let body = self.good.book.links_body();
        let mut k = skipped(self.skips, left, from);
        while k < n {
            if leads_on(layout::link(body, k), company, self.goal, left) {
                return Some(k);
            }
            k = skipped(self.skips, left, k + 1);
        }
        None
    }

    // Goes on by a ride from the station that `path` has come to by this link, with so many rides left: to the goal, or to a link.
    #[cycle(by_links_by_rides)]
    fn by_rides(&self, path: Route, at: Station, link: u8, left: usize, best: Best) -> Best
        requires { Ready self.now.good.book.bytes.now path left best × Arrived (network self.now.good.book.bytes.now) (rides_of path) at link }
        ensures { Improves (network self.now.good.book.bytes.now) best result (From (network self.now.good.book.bytes.now) self.now.goal left (rides_of path) at) }
    {
        let mut kept = self.arrive(path, at, link, best);
        if left < 2 {
            return kept;
        }
        let mut next = self.next_link(at.company, left, 0);
        while let Some(k) = next {
            if let Some(longer) = to_link(self.good.book, path, at, link, k) {
                kept = self.by_links(longer, k, left - 1, kept);
            }
            next = self.next_link(at.company, left, k + 1);
        }
        kept
    }

    // Goes on by link k from the station where `path` has alighted, with so many rides left.
    #[cycle(by_links_by_rides)]
    fn by_links(&self, path: Route, k: u8, left: usize, best: Best) -> Best
        requires { Ready self.now.good.book.bytes.now path left best × Alighted (network self.now.good.book.bytes.now) (rides_of path) k }
        ensures { Improves (network self.now.good.book.bytes.now) best result (From (network self.now.good.book.bytes.now) self.now.goal left (rides_of path) (beyond (network self.now.good.book.bytes.now) (rides_of path) k)) }
    {
        self.by_rides(path, over(self.good.book, path, k), k, left, best)
    }
}

// The cheapest route of a question that is good, on a good book, with its price.
pub fn ask(good: GoodBook, question: Question) -> Answer
    requires { question_check (network good.book.bytes.now) question ≡ Ok tt }
    ensures { Answered (network good.entry.book.bytes.now) question result }
{
    let mut skips = [0; 129];
    put_skips(good.book, question.to.company, &mut skips);
    let search = Search {
        good,
        goal: question.to,
        skips: &skips,
    };
    let best = search.by_rides(
        Route::empty(),
        question.from,
        0,
        usize::from(question.limit),
        Best::none(),
    );
    match best.found {
        Some(cheapest) => answers::answer(good, cheapest.route),
        None => answers::refused(Refusal::NoRoute),
    }
}

// What is refused of the book or of the question.
fn judge(book: &[u8], question: Question) -> Result<(), Refusal>
    ensures { result ≡ (book_check book.now and_then question_check (network book.now) question) }
{
    book::judge(book)?;
    questions::judge(Book { bytes: book }, question)
}

// The cheapest route between two stations with its price, or what is refused.
pub fn cheapest(book: &[u8], question: Question) -> Answer
    ensures { Asked book.now question result }
{
    match judge(book, question) {
        Ok(()) => {
            let book = Book { bytes: book };
            ask(GoodBook { book }, question)
        }
        Err(x) => answers::refused(x),
    }
}
