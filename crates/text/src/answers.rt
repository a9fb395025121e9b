// The line of an answer.
ghost use Rattle.std.specs.Prelude.{◌≡◌, Some, flat_map, take};
ghost use Rattle.text.specs.Answers.{refused_text, ride_text, answer_text};

use book::refusal;
use outline::{Answer, Paid, Refusal, Ride};
use std::fmt;

// `refused`, the refusal's number and its place.
#[derive(Drop)]
pub struct Refused(pub Refusal);

impl fmt::Display for Refused {
    ghost output = { λ x. Some (refused_text x.0) };

    // Inlined, since a call costs as much as the text.
    #[inline(always)]
    fn fmt<W: fmt::Write>(&self, f: &mut fmt::Formatter<W>) -> fmt::Result {
        write!(
            f,
            "refused {} {}",
            refusal::number(self.0),
            refusal::place(self.0)
        )
    }
}

// A ride, and how it was paid for: `full`, or the rule's number.
#[derive(Drop)]
struct Ridden(Ride);

impl fmt::Display for Ridden {
    ghost output = { λ x. Some (ride_text x.0) };

    fn fmt<W: fmt::Write>(&self, f: &mut fmt::Formatter<W>) -> fmt::Result {
        let Ride {
            company,
            boarding,
            alighting,
            paid,
        } = self.0;
        match paid {
            Paid::Full => write!(f, " {company} {boarding} {alighting} full"),
            Paid::ByRule(rule) => write!(f, " {company} {boarding} {alighting} {rule}"),
        }
    }
}

// Rides, one after the other.
#[derive(Drop)]
struct Rides<'a>(&'a [Ride]);

impl fmt::Display for Rides<'_> {
    ghost output = { λ x. Some (flat_map ride_text x.0.now) };

    fn fmt<W: fmt::Write>(&self, f: &mut fmt::Formatter<W>) -> fmt::Result {
        for ride in self.0 {
            Ridden(*ride).fmt(f)?;
        }
        Ok(())
    }
}

// The rides of an answer: of its four places, those that are used.
fn used(answer: &Answer) -> &[Ride]
    ensures { result.now ≡ take answer.now.rides answer.now.places }
{
    let places = &answer.places[..];
    &places[..places.len().min(usize::from(answer.rides))]
}

// The line of an answer: the fare, the number of rides and each ride, or the refusal.
#[derive(Drop)]
pub struct Told(pub Answer);

impl fmt::Display for Told {
    ghost output = { λ x. Some (answer_text x.0) };

    fn fmt<W: fmt::Write>(&self, f: &mut fmt::Formatter<W>) -> fmt::Result {
        let answer = &self.0;
        match answer.judged {
            Ok(()) => {
                write!(f, "fare {} rides {}", answer.fare, answer.rides)?;
                Rides(used(answer)).fmt(f)?;
            }
            Err(x) => Refused(x).fmt(f)?,
        }
        f.write_str("\n")
    }
}
