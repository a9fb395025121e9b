// A refusal's number and place: the outline's table, which no derive gives.
ghost use Rattle.std.specs.Prelude.{◌≡◌};
ghost use Rattle.outline.specs.Refusals.{number_of, place_of};

use outline::Refusal;

pub fn number(x: Refusal) -> u8
    ensures { result ≡ number_of x }
{
    match x {
        Refusal::WrongLength => 1,
        Refusal::UnknownLayout => 2,
        Refusal::OutsideLimits => 3,
        Refusal::BadContents(_) => 4,
        Refusal::BadStations(_) => 5,
        Refusal::BadEntry(_) => 6,
        Refusal::BadLink(_) => 7,
        Refusal::BadRule(_) => 8,
        Refusal::UnknownStation(_) => 9,
        Refusal::SameStation => 10,
        Refusal::BadLimit => 11,
        Refusal::NoRoute => 12,
        Refusal::NoRoom => 13,
        Refusal::BadRide(_) => 14,
    }
}

pub fn place(x: Refusal) -> usize
    ensures { result ≡ place_of x }
{
    match x {
        Refusal::WrongLength => 0,
        Refusal::UnknownLayout => 0,
        Refusal::OutsideLimits => 0,
        Refusal::BadContents(entry) => entry,
        Refusal::BadStations(company) => company,
        Refusal::BadEntry(place) => place,
        Refusal::BadLink(link) => link,
        Refusal::BadRule(rule) => rule,
        Refusal::UnknownStation(end) => end,
        Refusal::SameStation => 0,
        Refusal::BadLimit => 0,
        Refusal::NoRoute => 0,
        Refusal::NoRoom => 0,
        Refusal::BadRide(ride) => ride,
    }
}
