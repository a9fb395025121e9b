// The types of the answers, in document 01's words. What they mean stands in specs/.
#![tactic(auto)]

// A station: a company of the book and a station of that company.
#[derive(Clone, Copy, PartialEq, Eq)]
pub struct Station {
    pub company: u8,
    pub number: u8,
}

// A link between two stations. It can be walked either way.
#[derive(Clone, Copy, PartialEq, Eq)]
pub struct Link {
    pub one: Station,
    pub other: Station,
}

// A rule as a book or a sheet has it: "m (2 to 4); four company bytes ..; the amount, two bytes; a map of boarding stations of the first
// company, five bytes; a map of alighting stations of the m-th company, five bytes; a map of permitted links, sixteen bytes".
#[derive(Clone, Copy)]
pub struct Rule {
    pub rides: u16,
    pub companies: [u16; 4],
    pub amount: u16,
    pub boarding: [u16; 5],
    pub alighting: [u16; 5],
    pub permitted: [u16; 16],
}

// A ride of a route: a company, the station boarded at and the station alighted at. Rides are compared in this order.
#[derive(Clone, Copy, PartialEq, Eq, PartialOrd, Ord)]
pub struct Leg {
    pub company: u8,
    pub boarding: u8,
    pub alighting: u8,
}

// A run that a rule pays: its first ride, how many rides it has, and the rule's number.
#[derive(Clone, Copy)]
pub struct Run {
    pub first: usize,
    pub rides: usize,
    pub rule: u8,
}

// Why a rule does not match a run: the first test that fails.
#[derive(Clone, Copy)]
pub enum Reason {
    WrongRides,
    WrongCompanies,
    NotBoarded,
    NotAlighted,
    NotPermitted,
    NotDearer,
}

// The rule that earns most on a run, and what it earns in yen.
#[derive(Clone, Copy)]
pub struct Payer {
    pub rule: u8,
    pub yen: u16,
}

// How a ride was paid for: full, or by a rule of this number. It is no Option: `Full` is the outline's word, and `None` would say that nothing was paid.
#[derive(Clone, Copy)]
pub enum Paid {
    Full,
    ByRule(u8),
}

#[derive(Clone, Copy)]
pub struct Ride {
    pub company: u8,
    pub boarding: u8,
    pub alighting: u8,
    pub paid: Paid,
}

// What is refused, with its place where that is not always 0.
#[derive(Clone, Copy)]
pub enum Refusal {
    WrongLength,
    UnknownLayout,
    OutsideLimits,
    BadContents(usize),
    BadStations(usize),
    BadEntry(usize),
    BadLink(usize),
    BadRule(usize),
    UnknownStation(usize),
    SameStation,
    BadLimit,
    NoRoute,
    NoRoom,
    BadRide(usize),
}

// A question: from which station, to which, and how many rides at most.
#[derive(Clone, Copy)]
pub struct Question {
    pub from: Station,
    pub to: Station,
    pub limit: u8,
}

// What a price or a question is answered with: the fare, the number of rides and four places for rides. What was judged stands beside them,
// since a refused answer carries them too: fare 0, no rides and unused places (`refused_answer`).
#[derive(Clone, Copy)]
pub struct Answer {
    pub judged: Result<(), Refusal>,
    pub fare: u16,
    pub rides: u8,
    pub places: [Ride; 4],
}
