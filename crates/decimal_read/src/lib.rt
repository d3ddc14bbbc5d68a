// A number in decimal, read from a word of plain digits.
#![tactic(auto)]

ghost use Rattle.std.specs.Prelude.{◌≡◌};
ghost use Rattle.decimal_read.specs.Numerals.{numeral_in};

// The largest number that a source can have, 2^32 - 1.
const LARGEST: u64 = 4294967295;

// A word of plain digits is a number, up to the largest that a source can have.
pub fn numeral_in(word: &[u8]) -> Option<u32>
    ensures { result ≡ numeral_in word.now }
{
    if word.is_empty() {
        return None;
    }
    let mut n: u64 = 0;
    for &byte in word {
        if byte < b'0' || b'9' < byte {
            return None;
        }
        n = n * 10 + u64::from(byte - b'0');
        let above = LARGEST < n;
        if above {
            return None;
        }
    }
    Some(n as u32)
}
