// Exact amounts in 64 bits, and a source's equivalent with its limit (document 01, "Rounding and equivalence").
#![tactic(auto)]

ghost use Rattle.std.specs.Prelude.{◌≡◌, false, ◌+◌, ◌*◌, ◌≤◌, ◌<◌, ltb, get_or};
ghost use Rattle.meaning.specs.Masses.{warming, gas_count, most_factors, most_factor, rounded};
ghost use Rattle.mass_exact.specs.Amounts.{word, gram, value, scale, Ranged, Room, Added, Subtracted};
ghost use Rattle.mass_exact.specs.Equivalents.{within_limit};

// The ten-billionths of a gram in a gram, and in half of one.
const GRAM: u64 = 10000000000;

const HALF: u64 = 5000000000;

// Amounts are in words of 32 bits: what a line adds is parted by shifts, and only what a source comes to is divided.
const WORD: u64 = 4294967296;

// 10^10 is FIVES, which is 5^10, times 2^10.
const FIVES: u64 = 9765625;

pub const GASES: usize = 3;

// The figures of a source: a mass for each gas, and the equivalent.
pub const FIGURES: usize = GASES + 1;

// "CO2 + 25 CH4 + 298 N2O"
const WARMING: [u64; GASES] = [1, 25, 298];

// "at most 10^15 g a source"
const LIMIT: u64 = 1000000000000000;

// Ten-billionths of a gram, in words.
#[derive(Clone, Copy)]
pub struct Amount {
    pub high: u64,
    pub low: u64,
}

// What one unit of a gas's exact sum is in ten-billionths of a gram.
fn scale_of(gas: usize) -> u64
    requires { gas < gas_count }
    ensures { result ≡ scale gas }
{
    match gas {
        0 => 1,
        1 => 1000,
        _ => 1000000,
    }
}

// A line's factor in ten-billionths of a gram, so that the amounts of all gases are on one scale. It is a word, so that its products are of words.
pub fn scaled(gas: usize, factor: u64) -> u32
    requires { (gas < gas_count) × (factor ≤ get_or most_factors gas 0) }
    ensures { (result ≡ factor * scale gas) × (result ≤ most_factor) }
{
    (factor * scale_of(gas)) as u32
}

// A product of numbers that are small enough for 64 bits, with a bound that its callers count on.
fn product(a: u64, b: u64) -> u64
    requires { (a ≤ 10000000000) × (b ≤ 100000000) }
    ensures { (result ≡ a * b) × (result ≤ 100000000 * a) }
{
    a * b
}

// The amount with what a line comes to. Q times its content is parted into words before it is multiplied on, so that no product leaves
// 64 bits.
pub fn add(a: Amount, q: u64, content: u64, factor: u32) -> Amount
    requires { Room 1 a × Ranged q content factor }
    ensures { Added a (q * content * factor) result }
{
    let p = product(q, content);
    let high = product(p / WORD, factor as u64);
    let low = product(p % WORD, factor as u64) + a.low;
    Amount {
        high: high + low / WORD + a.high,
        low: low % WORD,
    }
}

// Whether a is less than b, as where a source's sum is below zero.
pub fn below(a: Amount, b: Amount) -> bool
    requires { (a.low < word) × (b.low < word) }
    ensures { result ≡ ltb (value a) (value b) }
{
    if a.high == b.high {
        return a.low < b.low;
    }
    a.high < b.high
}

// What is left of a without b.
pub fn subtract(a: Amount, b: Amount) -> Amount
    requires { (a.low < word) × (b.low < word) × (ltb (value a) (value b) ≡ false) }
    ensures { Subtracted a b result }
{
    if a.low < b.low {
        return Amount {
            high: a.high - b.high - 1,
            low: a.low + WORD - b.low,
        };
    }
    Amount {
        high: a.high - b.high,
        low: a.low - b.low,
    }
}

// "nearest, an exact half upward". No source has all three gases, and nothing is divided for one that it lacks: a word of ten-billionths is less than
// half a gram.
pub fn round(a: Amount) -> u64
    requires { Room 0 a }
    ensures { result ≡ rounded (value a) gram }
{
    if a.high == 0 {
        return 0;
    }
    a.high / FIVES * 4194304 + (a.high % FIVES * WORD + a.low + HALF) / GRAM
}

fn warming_of(gas: usize) -> u64
    requires { gas < gas_count }
    ensures { (result ≡ get_or warming gas 0) × (0 < result) }
{
    WARMING[gas]
}

// Gas by gas: a mass is multiplied only where it is itself within the limit, so that three products are within 64 bits. None is above the limit. One
// limit for all gases is one number in a register.
pub fn equivalent(masses: [u64; GASES]) -> Option<u64>
    ensures { result ≡ within_limit masses }
{
    let mut sum = 0;
    for (gas, mass) in masses.iter().enumerate() {
        let above = LIMIT < *mass;
        if above {
            return None;
        }
        sum += warming_of(gas) * *mass;
    }
    (sum <= LIMIT).then_some(sum)
}
