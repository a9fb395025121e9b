// Runs stored cases of every operation. A line of standard input is a letter and what is asked, and gets its answer on standard output:
// - `j` and a book: it is judged. `ok`, or `refused`, the refusal's number and its place.
// - `p`, a book, a space and a route: the route is priced. The fare, the number of rides and each ride with how it was paid for.
// - `q`, a book, a space and a question, five bytes: company and station of both ends, and the limit. The same of the cheapest route.
// - `l` and a book: its pairs are listed, as the pair lister lists them.
// - `r` and a book, or `w` and a sheet: it is read or written. Before the book or sheet stand how many numbers or bytes are lent, and a colon.
//   `wrote` and how many; then the Adler-32 sum of the whole lent list as it stands afterwards, numbers low byte first; then `back` if the
//   book or the sheet comes back from a round trip with room enough, and else `lost`.
// Bytes have two hex digits, numbers of a sheet four. `<D,L>` among the digits stands for L bytes like those that begin D bytes before. What
// is neither is passed over, so that `-` is the empty book. A line is answered by its first 65,536 bytes.
#![tactic(auto)]

mod answers;
mod asked;
mod lent;
mod line;
mod sum;

ghost use Rattle.std.specs.Prelude.{◌≡◌, ◌⊎◌, ◌≤◌, OnOk, OnErr};
ghost use Rattle.text.specs.Lines.{next_line};

use answers::Verdict;
use line::{Kind, Line};
use std::io;
use std::io::Write;
use text::answers::Told;
use text::lines::Lines;

// Runs a line, and puts its answer.
fn run<W: Write, const N: usize>(to: &mut W, lines: &mut Lines<N>, line: &Line) -> io::Result<()>
    ensures ok { OnOk result ((lines.new.end ≡ 0) ⊎ (next_line lines.old.end N ≤ lines.new.end)) }
    ensures err { OnErr result (lines.new.bytes ≡ lines.old.bytes) }
{
    match line.kind {
        Kind::Judge => lines.put(to, Verdict(book::judge(line.all()))),
        Kind::List => asked::list(to, lines, line.all()),
        Kind::Price => lines.put(to, Told(price::price(line.book(), line.rest()))),
        Kind::Cheapest => lines.put(to, Told(asked::cheapest(line.book(), line.rest()))),
        Kind::Read => lines.put(to, lent::read(line.all(), line.lent)),
        Kind::Write => lines.put(to, lent::write_numbers(line.all(), line.lent)),
    }
}

// Runs the lines that end in a block of the input, and leaves in `line` the one that goes on after it. An error is the writer's.
fn run_block<W: Write>(to: &mut W, block: &[u8], line: &mut Line) -> io::Result<()> {
    let mut lines = Lines::<4096>::new();
    for x in block {
        if *x == b'\n' {
            run(to, &mut lines, line)?;
            line.begin();
        } else {
            line.next(*x);
        }
    }
    lines.write(to)
}

// A proved loop has to end, and nothing says that the input does. So the loop counts its turns, up to a number that no run reaches.
fn main(rt: HostRuntime) -> io::Result<()> {
    let mut from = rt.stdin();
    let mut to = rt.stdout();
    let mut block = [0u8; 65536];
    let mut line = Line::new();
    for _ in 0..u64::MAX {
        let n = text::blocks::read_full(&mut from, &mut block)?;
        if n == 0 {
            break;
        }
        run_block(&mut to, &block[..n], &mut line)?;
    }
    Ok(())
}
