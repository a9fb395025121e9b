// A line of the input, taken in byte by byte.
ghost use Rattle.std.specs.Prelude.{◌≡◌};

use text::digits;

// More than the longest list that is lent.
const MOST: usize = 65536;

// What is asked of a book or of a sheet.
#[derive(Clone, Copy)]
pub enum Kind {
    Judge,
    List,
    Price,
    Cheapest,
    Read,
    Write,
}

impl Kind {
    // What a letter asks; other bytes ask nothing.
    fn of_letter(letter: u8) -> Option<Kind> {
        match letter {
            b'j' => Some(Kind::Judge),
            b'l' => Some(Kind::List),
            b'p' => Some(Kind::Price),
            b'q' => Some(Kind::Cheapest),
            b'r' => Some(Kind::Read),
            b'w' => Some(Kind::Write),
            _ => None,
        }
    }
}

#[derive(Clone, Copy)]
pub struct Line {
    // A line without a letter is listed.
    pub kind: Kind,
    pub lent: usize,
    // How many digits there are, and how many before a space.
    digits: usize,
    first: usize,
    // A decimal number that is being read, as far as it goes.
    number: Option<usize>,
    back: usize,
    data: [u8; MOST],
}

// A number with a decimal digit more; what is no digit, and what would be too much, is passed over.
fn with_digit(number: usize, x: u8) -> usize {
    match digits::value(x) {
        Some(digit) if digit < 10 && number < MOST => 10 * number + usize::from(digit),
        _ => number,
    }
}

impl Line {
    pub fn new() -> Line
        ensures { result.digits ≡ 0 }
    {
        Line {
            kind: Kind::List,
            lent: 0,
            digits: 0,
            first: 0,
            number: None,
            back: 0,
            data: [0; MOST],
        }
    }

    // The next line begins.
    pub fn begin(&mut self)
        ensures { self.new.digits ≡ 0 }
    {
        self.kind = Kind::List;
        self.lent = 0;
        self.digits = 0;
        self.first = 0;
        self.number = None;
        self.back = 0;
    }

    // The bytes that its digits make.
    pub fn all(&self) -> &[u8] {
        digits::made(&self.data, self.digits)
    }

    // Those before the space.
    pub fn book(&self) -> &[u8] {
        digits::made(self.all(), self.first)
    }

    // Those after it.
    pub fn rest(&self) -> &[u8] {
        digits::after(self.all(), self.first)
    }

    // Takes the line's next byte in.
    pub fn next(&mut self, x: u8) {
        match x {
            b' ' => self.first = self.digits,
            b'<' => self.begin_number(),
            b':' => self.lent = self.end_number(),
            b',' => {
                self.back = self.number.unwrap_or(0);
                self.number = self.number.map(|_| 0);
            }
            b'>' => {
                let long = self.end_number();
                self.repeat(long);
            }
            _ => match Kind::of_letter(x) {
                Some(kind) => self.ask(kind),
                None => self.take(x),
            },
        }
    }

    fn begin_number(&mut self) {
        self.number = Some(self.number.unwrap_or(0));
    }

    fn end_number(&mut self) -> usize {
        self.number.take().unwrap_or(0)
    }

    // A letter. What is lent stands after it if the book is read or the sheet written.
    fn ask(&mut self, kind: Kind) {
        self.kind = kind;
        if matches!(kind, Kind::Read | Kind::Write) {
            self.begin_number();
        }
    }

    // A digit, of a number or of the data.
    fn take(&mut self, x: u8) {
        match self.number {
            Some(number) => self.number = Some(with_digit(number, x)),
            None => self.digits = digits::put(&mut self.data, self.digits, x),
        }
    }

    // Puts so many bytes after those that there are, like those that begin `back` bytes before.
    fn repeat(&mut self, long: usize) {
        let start = self.digits / 2;
        let end = start.saturating_add(long);
        for at in start..end {
            if at < self.back || MOST <= at {
                return;
            }
            self.data[at] = self.data[at - self.back];
        }
        if end <= MOST {
            self.digits = 2 * end;
        }
    }
}
