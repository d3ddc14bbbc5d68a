// Hash table with linear probing: each number takes the first free slot from its home slot on, and one that meets itself there stands twice.
// For speed alone: the promise is that it tells whether a number stood in the table before, or leaves it open, so skip it on a first reading.
#![tactic(auto)]

ghost use Rattle.std.specs.Prelude.{cond, ◌≡◌, length, eqb};
ghost use Rattle.hash_repeats.specs.declared.Standing.TheVariants.{Twice, Open};
ghost use Rattle.hash_repeats.specs.Repeats.{slot_count, Home, Ended, Inserted};

// Whether a number stands once so far, or twice. It is left open where too many numbers want the same slots.
#[derive(Clone, Copy)]
pub enum Standing {
    Once,
    Twice,
    Open,
}

// A number stands at most so many slots behind its home slot. Without this limit, numbers that share a home slot would each be compared with every other.
const PROBES: usize = 64;

// 1,024 home slots, and PROBES more behind the last of them.
pub const SLOTS: usize = 1088;

// Two to the power of 32.
const WORD: u64 = 4294967296;

// The home slot of a number, by multiplicative hashing. The factor is WORD divided by the golden ratio, which spreads numbers that follow one another.
fn home_of(number: u32) -> usize
    ensures { Home number result }
{
    (number as u64 * 2654435769 % WORD / 4194304) as usize
}

// Of the slots that a number may take, the first that is free or holds that number, or else the last.
fn probe(slots: &[u32], number: u32) -> usize
    requires { length slots.now ≡ slot_count }
    ensures { Ended slots.now number result }
{
    let home = home_of(number);
    for at in home..home + PROBES {
        let found = slots[at];
        let ends = (found == 0) | (found == number);
        if ends {
            return at;
        }
    }
    home + PROBES
}

// What a number that ends at a taken slot tells: it stands there already, or every slot that it may take is taken by others.
fn repeat_or_full(found: u32, number: u32) -> Standing
    ensures { result ≡ cond (eqb found number) Twice Open }
{
    let repeated = found == number;
    if repeated {
        return Standing::Twice;
    }
    Standing::Open
}

// Inserts a number. A free slot holds 0, so 0 itself would be new each time.
pub fn insert(slots: &mut [u32], number: u32) -> Standing
    requires { length slots.old ≡ slot_count }
    ensures { Inserted slots.old number result slots.new }
{
    let at = probe(slots, number);
    let found = slots[at];
    let taken = found != 0;
    if taken {
        return repeat_or_full(found, number);
    }
    slots[at] = number;
    Standing::Once
}
