// The pair lister: reads a book on standard input, up to 65,536 bytes of it, and lists the cheapest fares of all pairs of its stations.
#![tactic(auto)]

ghost use Rattle.std.specs.Prelude.{IfSome, OnOk};
ghost use Rattle.std.specs.Io.KnownBytes.{Appends};
ghost use Rattle.outline.specs.Lister.{lister_output};

use std::io;
use std::io::{Read, Write};

// Reads the input and writes its list. An error is the reader's or the writer's, and ends it.
fn run<R: Read, W: Write>(from: &mut R, to: &mut W) -> io::Result<()>
    ensures { IfSome (R.remaining from.old) (λ input. OnOk result (Appends (W.contents to.old) (W.contents to.new) (lister_output input))) }
{
    let mut input = [0u8; 65536];
    let n = text::blocks::read_full(from, &mut input)?;
    lister::list(to, &input[..n])
}

fn main(rt: HostRuntime) -> io::Result<()> {
    run(&mut rt.stdin(), &mut rt.stdout())
}
