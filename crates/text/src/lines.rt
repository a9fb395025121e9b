// Lines of text, gathered in a buffer.
ghost use Rattle.std.specs.Prelude.{◌≡◌, ◌≤◌, IfOk, OnErr, OnOk, length, take};
ghost use Rattle.std.specs.Io.KnownBytes.{Appends};
ghost use Rattle.text.specs.Lines.{Wrote, WroteLine, next_line};

use crate::scratch::{ROOM, Scratch};
use std::fmt::{Display, InlineText};
use std::io::Write;
use std::{fmt, io};

// Writes the first n bytes of a buffer. An error is the writer's, and says nothing of what it took before.
pub fn write<W: Write>(to: &mut W, out: &[u8], n: usize) -> io::Result<()>
    ensures ok { n ≤ length out.now → OnOk result (Appends (W.contents to.old) (W.contents to.new) (take n out.now)) }
    ensures err { OnErr result (n ≤ length out.now) }
{
    if n <= out.len() {
        return to.write_all(&out[..n]);
    }
    Ok(())
}

// Where the next line goes. Where little room is left after the first n bytes of a buffer, these are written, and it goes to the start.
#[tactic(auto, unfolding(outline::specs::Tests::both, outline::specs::Tests::choose))]
pub fn room<W: Write>(to: &mut W, out: &[u8], n: usize) -> io::Result<usize>
    ensures ok { IfOk result (λ at. at ≡ next_line n (length out.now)) }
    ensures err { OnErr result (next_line n (length out.now) ≡ 0) }
{
    if out.len() <= n || out.len() - n < ROOM {
        write(to, out, n)?;
        return Ok(0);
    }
    Ok(n)
}

// Puts text at `at`, as far as there is room for it, and answers where it ends.
pub fn put_text(out: &mut [u8], at: usize, text: &[u8]) -> usize
    ensures text { Wrote out.old at text.now out.new result }
    ensures inside { at ≤ length out.old → result ≤ length out.old }
{
    if out.len() <= at {
        return at;
    }
    let n = text.len().min(out.len() - at);
    out[at..at + n].copy_from_slice(&text[..n]);
    at + n
}

// What was gathered, in the first `end` bytes.
#[derive(Drop)]
pub struct Lines<const N: usize> {
    bytes: [u8; N],
    end: usize,
    ghost within: { end ≤ N },
}

impl<const N: usize> Lines<N> {
    pub fn new() -> Lines<N>
        ensures { result.end ≡ 0 }
    {
        Lines {
            bytes: [0; N],
            end: 0,
        }
    }

    // Writes what was gathered, and begins anew. An error is the writer's, and says nothing of what it took before.
    pub fn write<W: Write>(&mut self, to: &mut W) -> io::Result<()>
        ensures ok { OnOk result (Appends (W.contents to.old) (W.contents to.new) (take self.old.end self.old.bytes)) }
        ensures empty { OnOk result (self.new.end ≡ 0) }
        ensures err { OnErr result (self.new.end ≡ self.old.end) }
        ensures same { self.new.bytes ≡ self.old.bytes }
    {
        write(to, &self.bytes, self.end)?;
        self.end = 0;
        Ok(())
    }

    // Makes room for a line: where little is left, what was gathered is written, and the line goes to the start.
    #[tactic(auto, unfolding(outline::specs::Tests::both, outline::specs::Tests::choose))]
    fn make_room<W: Write>(&mut self, to: &mut W) -> io::Result<()>
        ensures ok { OnOk result (self.new.end ≡ next_line self.old.end N) }
        ensures err { OnErr result (self.new.end ≡ self.old.end) }
        ensures full { OnErr result (next_line self.old.end N ≡ 0) }
        ensures same { self.new.bytes ≡ self.old.bytes }
    {
        self.end = room(to, &self.bytes, self.end)?;
        Ok(())
    }

    // Puts text after what was gathered, as far as there is room for it.
    pub fn put_text(&mut self, text: &[u8])
        ensures { Wrote self.old.bytes self.old.end text.now self.new.bytes self.new.end }
    {
        self.end = put_text(&mut self.bytes, self.end, text);
    }

    // Puts a line where `end` is. It stands in room of its own until all of it is there, since an error would leave a part of it.
    fn put_line<D: Display + Drop>(&mut self, line: D)
        ensures { WroteLine self.old.bytes self.old.end (D.output line) self.new.bytes self.new.end }
    {
        let mut scratch = Scratch::new();
        match fmt::Write::write(&mut scratch, &line) {
            Ok(()) => self.put_text(scratch.text()),
            Err(_) => self.put_cut(line),
        }
    }

    // Puts what fits of a line, and dots, where it is too long or its `fmt` fails. The line that fits doesn't pay for the room that this takes.
    #[cold]
    #[inline(never)]
    fn put_cut<D: Display + Drop>(&mut self, line: D)
        ensures { WroteLine self.old.bytes self.old.end (D.output line) self.new.bytes self.new.end }
    {
        self.put_text(InlineText::<ROOM>::of(line).as_str().as_bytes());
    }

    // Puts a line.
    pub fn put<W: Write, D: Display + Drop>(&mut self, to: &mut W, line: D) -> io::Result<()>
        ensures text { OnOk result (WroteLine self.old.bytes (next_line self.old.end N) (D.output line) self.new.bytes self.new.end) }
        ensures ok { OnOk result (next_line self.old.end N ≤ self.new.end) }
        ensures err { OnErr result (self.new ≡ self.old) }
        ensures full { OnErr result (next_line self.old.end N ≡ 0) }
    {
        self.make_room(to)?;
        self.put_line(line);
        Ok(())
    }
}
