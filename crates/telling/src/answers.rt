// An answer as the C face tells it: 18 numbers in a lent list.
ghost use Rattle.std.specs.Prelude.{◌≡◌, ◌≤◌, length};
ghost use Rattle.outline.specs.Lending.{answered, leaves, filled};
ghost use Rattle.telling.specs.Answers.{paid_number, place_numbers, places_numbers, answer_numbers};

use outline::{Answer, Paid, Refusal, Ride};

const NUMBERS: usize = 18;

const PLACE: usize = 4;

const FIRST: usize = 2;

fn paid_number(p: Paid) -> u16
    ensures { result ≡ paid_number p }
{
    match p {
        Paid::Full => 255,
        Paid::ByRule(rule) => u16::from(rule),
    }
}

// The four numbers of a place.
fn put_place(p: Ride, answer: &mut [u16])
    requires { 4 ≤ length answer.old }
    ensures { answer.new ≡ filled (place_numbers p) answer.old }
{
    answer[0] = u16::from(p.company);
    answer[1] = u16::from(p.boarding);
    answer[2] = u16::from(p.alighting);
    answer[3] = paid_number(p.paid);
}

// The numbers of the four places.
#[tactic(auto, using(crate::proofs::Putting::put_none, crate::proofs::Putting::put_more, crate::proofs::Putting::put_all))]
fn put_places(a: Answer, answer: &mut [u16])
    requires { (length a.places ≡ 4) × (16 ≤ length answer.old) }
    ensures { answer.new ≡ filled (places_numbers a.places) answer.old }
{
    for (i, place) in a.places.iter().enumerate() {
        let at = PLACE * i;
        put_place(*place, &mut answer[at..]);
    }
}

// All numbers of an answer.
fn put_numbers(a: Answer, answer: &mut [u16])
    requires { (length a.places ≡ 4) × (18 ≤ length answer.old) }
    ensures { answer.new ≡ filled (answer_numbers a) answer.old }
{
    answer[0] = a.fare;
    answer[1] = u16::from(a.rides);
    put_places(a, &mut answer[FIRST..]);
}

// An answer put into the lent list: refused, without room, or written.
pub fn put(a: Answer, answer: &mut [u16]) -> Result<usize, Refusal>
    requires { length a.places ≡ 4 }
    ensures value { result ≡ answered a.judged (answer_numbers a) answer.old }
    ensures answer_after { answer.new ≡ leaves (answered a.judged (answer_numbers a) answer.old) (answer_numbers a) answer.old }
{
    a.judged?;
    if answer.len() < NUMBERS {
        return Err(Refusal::NoRoom);
    }
    put_numbers(a, answer);
    Ok(NUMBERS)
}
