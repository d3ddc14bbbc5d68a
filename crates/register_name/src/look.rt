// A number looked up in one register: whether tests 1 to 4 accept it, whether it holds the number, and where the name stands.
ghost use Rattle.std.specs.Prelude.{◌≡◌};
ghost use Rattle.meaning.specs.Calls.{name_at};
ghost use Rattle.register_header.specs.Header.{Headed, HasEntry};
ghost use Rattle.register_name.specs.Lookups.{named, sought};

use meaning::Part;
use register_accept::accepts;
use register_header::source_count;
use register_layout::{place_of_name, source_name_length, source_number};

// The empty part at the front of a register.
pub const NOWHERE: Part = Part {
    offset: 0,
    length: 0,
};

// The name of entry i, where it stands.
fn name_at(register: &[u8], i: usize) -> Part
    requires { HasEntry register.now i }
    ensures { result ≡ name_at register.now i }
{
    let offset = place_of_name(register, i) as u64;
    let length = source_name_length(register, i) as u64;
    Part { offset, length }
}

// The name of the source that has a number, if one has it.
fn name_in(register: &[u8], number: u32) -> Option<Part>
    requires { Headed register.now }
    ensures { result ≡ named register.now number }
{
    for i in 0..source_count(register) {
        if source_number(register, i) == number as u64 {
            return Some(name_at(register, i));
        }
    }
    None
}

// A number looked up in any register: nothing where it is refused, and else the name, if it holds the number.
pub fn look_up(register: &[u8], number: u32) -> Option<Option<Part>>
    ensures { result ≡ sought register.now number }
{
    if accepts(register) {
        return Some(name_in(register, number));
    }
    None
}
