// Whether the numbers of a register differ, found without order as a rule.
ghost use Rattle.std.specs.Prelude.{◌≡◌};
ghost use Rattle.basis.specs.Answers.{passes};
ghost use Rattle.meaning.specs.Register.{sources_of, repeat_test};
ghost use Rattle.hash_repeats.specs.Repeats.{Nonzero, Empty};
ghost use Rattle.register_header.specs.Header.{Headed};
ghost use Rattle.register_accept.specs.Numbers.{numbers_of, Tells};

use hash_repeats::{SLOTS, Standing};
use register_header::{MOST_SOURCES, source_count};
use register_layout::source_number;
use register_order::test_numbers;

// Each number in turn is inserted into slots that are free, up to the first that tells.
fn standing_in(register: &[u8], slots: &mut [u32]) -> Standing
    requires { Headed register.now × Nonzero (numbers_of register.now) × Empty slots.old }
    ensures { Tells result (passes (repeat_test (sources_of register.now))) }
{
    let n = source_count(register);
    for i in 0..n {
        let number = source_number(register, i) as u32;
        match hash_repeats::insert(slots, number) {
            Standing::Once => {}
            Standing::Twice => return Standing::Twice,
            Standing::Open => return Standing::Open,
        }
    }
    Standing::Once
}

// Whether a number stands twice, as far as it is found without order.
fn standing(register: &[u8]) -> Standing
    requires { Headed register.now × Nonzero (numbers_of register.now) }
    ensures { Tells result (passes (repeat_test (sources_of register.now))) }
{
    let mut slots = [0u32; SLOTS];
    standing_in(register, &mut slots)
}

// The same by the keys in order, which always tell.
fn differ_sorted(register: &[u8]) -> bool
    requires { Headed register.now }
    ensures { result ≡ passes (repeat_test (sources_of register.now)) }
{
    let mut keys = [0u64; MOST_SOURCES];
    let mut spare = [0u64; MOST_SOURCES];
    test_numbers(register, &mut keys, &mut spare).is_ok()
}

// Whether test 4 passes, for whoever has no use for the order of the sources: keys are sorted only where it is open without them.
pub fn numbers_differ(register: &[u8]) -> bool
    requires { Headed register.now × Nonzero (numbers_of register.now) }
    ensures { result ≡ passes (repeat_test (sources_of register.now)) }
{
    match standing(register) {
        Standing::Once => true,
        Standing::Twice => false,
        Standing::Open => differ_sorted(register),
    }
}
