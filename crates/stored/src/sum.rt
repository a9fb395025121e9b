// The Adler-32 sum of a list of bytes or of numbers.
ghost use Rattle.std.specs.Prelude.{◌<◌};

const BASE: u64 = 65521;

#[derive(Clone, Copy)]
pub struct Sum {
    low: u64,
    high: u64,
}

impl Sum {
    fn new() -> Sum {
        Sum { low: 1, high: 0 }
    }

    fn with(self, x: u8) -> Sum {
        let low = (self.low % BASE + u64::from(x)) % BASE;
        Sum {
            low,
            high: (self.high % BASE + low) % BASE,
        }
    }

    fn value(self) -> u64
        ensures { result < 4294967296 }
    {
        65536 * (self.high % BASE) + self.low % BASE
    }
}

// What a list is summed of: bytes, or numbers, which count as two bytes, the low one first.
pub trait Summed: Copy {
    fn added_to(self, sum: Sum) -> Sum;
}

impl Summed for u8 {
    fn added_to(self, sum: Sum) -> Sum {
        sum.with(self)
    }
}

impl Summed for u16 {
    fn added_to(self, sum: Sum) -> Sum {
        let [low, high] = self.to_le_bytes();
        sum.with(low).with(high)
    }
}

pub fn of<T: Summed>(list: &[T]) -> u64
    ensures { result < 4294967296 }
{
    let mut sum = Sum::new();
    for x in list {
        sum = x.added_to(sum);
    }
    sum.value()
}
