// The lines of what a book is judged, and of a reader's or a writer's answer.
ghost use Rattle.std.specs.Prelude.{◌≡◌, Some};
ghost use Rattle.stored.specs.Answers.{judged_text, written_text, back_text, done_text};

use outline::Refusal;
use std::fmt;
use text::answers::Refused;

// What a book is judged.
#[derive(Drop)]
pub struct Verdict(pub Result<(), Refusal>);

impl fmt::Display for Verdict {
    ghost output = { λ x. Some (judged_text x.0) };

    fn fmt<W: fmt::Write>(&self, f: &mut fmt::Formatter<W>) -> fmt::Result {
        match self.0 {
            Ok(()) => f.write_str("ok")?,
            Err(x) => Refused(x).fmt(f)?,
        }
        f.write_str("\n")
    }
}

// What a reader or a writer answers.
#[derive(Drop)]
struct Outcome(Result<usize, Refusal>);

impl fmt::Display for Outcome {
    ghost output = { λ x. Some (written_text x.0) };

    fn fmt<W: fmt::Write>(&self, f: &mut fmt::Formatter<W>) -> fmt::Result {
        match self.0 {
            Ok(n) => write!(f, "wrote {n}"),
            Err(x) => Refused(x).fmt(f),
        }
    }
}

// What a reader or a writer answers, the sum of the list that was lent to it, and whether what it was given comes back from a round trip.
#[derive(Drop)]
pub struct Done {
    pub written: Result<usize, Refusal>,
    pub sum: u64,
    pub back: bool,
}

fn word(back: bool) -> &'static str
    ensures { result.now ≡ back_text back }
{
    if back { "back" } else { "lost" }
}

impl fmt::Display for Done {
    ghost output = { λ x. Some (done_text x.written x.sum x.back) };

    fn fmt<W: fmt::Write>(&self, f: &mut fmt::Formatter<W>) -> fmt::Result {
        Outcome(self.written).fmt(f)?;
        writeln!(f, " {} {}", self.sum, word(self.back))
    }
}
