// Bytes out of their hex digits.
ghost use Rattle.std.specs.Prelude.{◌≡◌, ◌+◌, ◌/◌, ◌≤◌, ◌<◌, take, drop, MatchOption};
ghost use Rattle.text.specs.Digits.{ValueOf};

// The value of a hex digit, and none of any other byte.
pub fn value(x: u8) -> Option<u8>
    ensures { MatchOption result (ValueOf x 16) (λ d. (d < 16) × ValueOf x d) }
{
    match x {
        b'0'..=b'9' => Some(x - b'0'),
        b'a'..=b'f' => Some(x - b'a' + 10),
        _ => None,
    }
}

// Puts the next digit into its place, the higher digit of a byte first, and answers how many digits there are with it.
pub fn put(bytes: &mut [u8], count: usize, x: u8) -> usize
    ensures { (count ≤ result) × (result ≤ count + 1) }
{
    let at = count / 2;
    if bytes.len() <= at {
        return count;
    }
    let Some(digit) = value(x) else {
        return count;
    };
    if count % 2 == 0 {
        bytes[at] = 16 * digit;
    } else {
        bytes[at] |= digit;
    }
    count + 1
}

// The bytes that so many digits make.
pub fn made(bytes: &[u8], count: usize) -> &[u8]
    ensures { result.now ≡ take (count / 2) bytes.now }
{
    &bytes[..bytes.len().min(count / 2)]
}

// The bytes after those that so many digits make.
pub fn after(bytes: &[u8], count: usize) -> &[u8]
    ensures { result.now ≡ drop (count / 2) bytes.now }
{
    &bytes[bytes.len().min(count / 2)..]
}
