// "numbers are plain decimals": numbers written in decimal, each with the byte behind it.
#![tactic(auto)]

ghost use Rattle.std.specs.Prelude.{◌≡◌, ◌+◌, ◌*◌, ◌/◌, ◌%◌, ◌≤◌, ◌<◌, length, get_or};
ghost use Rattle.basis.specs.Bytes.{number_of};
ghost use Rattle.meaning.specs.Text.{decimal};
ghost use Rattle.decimal_write.specs.Words.{powers, quarters, Paired, first_digits, eight_digits};
ghost use Rattle.decimal_write.specs.Digits.{Counted, Ends, Put, Placed, Fronted, field, pair};

// A field of twenty digits, and the seven bytes before it.
const FIELD_ROOM: usize = 28;

// The power of ten with so many zeros. In the place of the first stands 0, since 0 has a digit too.
fn power_of_ten(zeros: u32) -> u64
    requires { zeros < 20 }
    ensures { result ≡ get_or powers zeros 0 }
{
    match zeros {
        0 => 0,
        1 => 10,
        2 => 100,
        3 => 1000,
        4 => 10000,
        5 => 100000,
        6 => 1000000,
        7 => 10000000,
        8 => 100000000,
        9 => 1000000000,
        10 => 10000000000,
        11 => 100000000000,
        12 => 1000000000000,
        13 => 10000000000000,
        14 => 100000000000000,
        15 => 1000000000000000,
        16 => 10000000000000000,
        17 => 100000000000000000,
        18 => 1000000000000000000,
        _ => 10000000000000000000,
    }
}

// How many digits a number has. 1,233 / 4,096 is the logarithm of 2, near enough for 64 bits; one comparison puts the guess right.
pub fn digit_count(n: u64) -> usize
    ensures { Counted n result }
{
    let bits = 64 - u64::leading_zeros(n);
    let guess = bits * 1233 / 4096;
    let more = power_of_ten(guess) <= n;
    guess as usize + more as usize
}

// The hundreds of two numbers below 10,000, in the halves of a word. 10,486 / 1,048,576 is a hundredth, near enough for them.
fn hundreds(high: u64, low: u64) -> u64
    requires { (high < 10000) × (low < 10000) }
    ensures { result ≡ high / 100 + 4294967296 * (low / 100) }
{
    let both = (high + 4294967296 * low) * 10486 / 1048576;
    both % 128 + 4294967296 * (both / 4294967296)
}

// The pairs of digits of two numbers below 10,000, in the quarters of a word.
fn pairs(high: u64, low: u64) -> u64
    requires { (high < 10000) × (low < 10000) }
    ensures { result ≡ quarters (high / 100) (high % 100) (low / 100) (low % 100) }
{
    let first = hundreds(high, low);
    first + 65536 * (high + 4294967296 * low - 100 * first)
}

// The first digit of each pair. 103 / 1,024 is a tenth, near enough for two digits.
fn tens(pairs: u64) -> u64
    requires { Paired pairs }
    ensures { result ≡ first_digits pairs }
{
    let each = pairs * 103 / 1024;
    each % 16
        + 65536 * (each / 65536 % 16)
        + 4294967296 * (each / 4294967296 % 16)
        + 281474976710656 * (each / 281474976710656)
}

// Eight digits as the bytes of a word, the first lowest, each with 48 added. A first digit that is taken away 2,559 times is taken ten times from the
// byte of the second, and put once before it.
fn eight_digits(n: u64) -> u64
    requires { n < 100000000 }
    ensures { result ≡ number_of (eight_digits n) }
{
    let word = pairs(n / 10000, n % 10000);
    256 * word + 3472328296227680304 - 2559 * tens(word)
}

// The digits of a number up to a place, eight at a time with zeros before the first, so that the seven bytes before them may be lost. Answers where
// they begin. Most figures are 0, which is put alone.
fn put_digits(buf: &mut [u8], end: usize, n: u64) -> usize
    requires { Ends buf.old (decimal n) end }
    ensures { Put buf.old result (decimal n) buf.new end }
{
    if n < 10 {
        buf[end - 1] = (48 + n) as u8;
        return end - 1;
    }
    let mut p = end;
    let mut rest = n;
    while 100000000 <= rest {
        p -= 8;
        fields::put_number::<8>(buf, p, eight_digits(rest % 100000000));
        rest = rest / 100000000;
    }
    fields::put_number::<8>(buf, p - 8, eight_digits(rest));
    end - digit_count(n)
}

// A number and the byte behind it, a space or a line feed, up to a place.
fn put_field(buf: &mut [u8], end: usize, n: u64, after: u8) -> usize
    requires { Ends buf.old (field n after) end }
    ensures { Put buf.old result (field n after) buf.new end }
{
    buf[end - 1] = after;
    put_digits(buf, end - 1, n)
}

// Two numbers with a space between them.
pub fn put_pair(buf: &mut [u8], end: usize, one: u64, other: u64, after: u8) -> usize
    requires { Ends buf.old (pair one other after) end }
    ensures { Put buf.old result (pair one other after) buf.new end }
{
    let p = put_field(buf, end, other, after);
    put_field(buf, p, one, b' ')
}

// A number and the byte behind it, up to the end of a room of its own.
fn own_field(n: u64, after: u8, room: &mut [u8; FIELD_ROOM]) -> usize
    ensures { Put room.old result (field n after) room.new 28 }
{
    put_field(room, FIELD_ROOM, n, after)
}

// A number and the byte behind it, from a place on, before which no byte may be lost. Answers where they end.
pub fn put_field_at(buf: &mut [u8], at: usize, n: u64, after: u8) -> usize
    requires { at + (length (decimal n) + 1) ≤ length buf.old }
    ensures { Placed buf.old at (field n after) buf.new result }
{
    let mut room = [0u8; FIELD_ROOM];
    let from = own_field(n, after, &mut room);
    fields::put_bytes(buf, at, &room[from..]);
    at + (FIELD_ROOM - from)
}

// A number and the byte behind it, at the front of an array in which twenty digits fit. Answers how many bytes they are.
pub fn number_field(n: u64, after: u8, line: &mut [u8; 21]) -> usize
    ensures { Fronted line.old (field n after) line.new result }
{
    put_field_at(line, 0, n, after)
}
