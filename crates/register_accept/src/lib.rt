// Whether tests 1 to 4 accept a register, for whoever has no use for the order of its sources.
#![tactic(auto)]

mod numbers;

ghost use Rattle.std.specs.Prelude.{◌≡◌, ◌≤◌};
ghost use Rattle.meaning.specs.Calls.{accepted};
ghost use Rattle.register_order.specs.Keys.{keys_for};

use numbers::numbers_differ;
use register_layout::test_layout;
use register_order::{keys_for, test_register};

// The room of small arrays, in keys: up to so many sources do with them.
const SMALL_ROOM: usize = 4;

fn accepts_few(register: &[u8]) -> bool
    requires { keys_for register.now ≤ 4 }
    ensures { result ≡ accepted register.now }
{
    let mut keys = [0u64; SMALL_ROOM];
    let mut spare = [0u64; SMALL_ROOM];
    test_register(register, &mut keys, &mut spare).is_ok()
}

fn accepts_many(register: &[u8]) -> bool
    ensures { result ≡ accepted register.now }
{
    test_layout(register).is_ok() && numbers_differ(register)
}

// Whether tests 1 to 4 accept a register. A few sources are sorted, and do not pay for clearing a hash table: among four, a lookup by the table takes
// 16 % more time.
pub fn accepts(register: &[u8]) -> bool
    ensures { result ≡ accepted register.now }
{
    let count = keys_for(register);
    if count <= SMALL_ROOM {
        return accepts_few(register);
    }
    accepts_many(register)
}
