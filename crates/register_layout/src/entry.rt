// The fields of a source's entry.
ghost use Rattle.std.specs.Prelude.{◌+◌, ◌≤◌};
ghost use Rattle.fields.specs.Fields.{Field};
ghost use Rattle.meaning.specs.Register.{source_length, source_entry};
ghost use Rattle.register_header.specs.Header.{HasEntry};

use register_header::{SOURCE_LENGTH, SOURCES_AT};

// The number of N bytes at a place in entry i.
fn number_in<const N: usize>(register: &[u8], i: usize, at: usize) -> u64
    requires { HasEntry register.now i × (N ≤ 8) × (at + N ≤ source_length) }
    ensures { Field N (source_entry register.now i) at result }
{
    fields::number_at::<N>(register, SOURCES_AT + SOURCE_LENGTH * i + at)
}

// "number (4, not zero), method and parameter (1 each, ..)"
pub fn source_number(register: &[u8], i: usize) -> u64
    requires { HasEntry register.now i }
    ensures { Field 4 (source_entry register.now i) 0 result }
{
    number_in::<4>(register, i, 0)
}

pub fn source_method(register: &[u8], i: usize) -> u64
    requires { HasEntry register.now i }
    ensures { Field 1 (source_entry register.now i) 4 result }
{
    number_in::<1>(register, i, 4)
}

pub fn source_parameter(register: &[u8], i: usize) -> u64
    requires { HasEntry register.now i }
    ensures { Field 1 (source_entry register.now i) 5 result }
{
    number_in::<1>(register, i, 5)
}

// "line count (2, at least 1), first line (2)"
pub fn source_line_count(register: &[u8], i: usize) -> usize
    requires { HasEntry register.now i }
    ensures { Field 2 (source_entry register.now i) 6 result }
{
    number_in::<2>(register, i, 6) as usize
}

pub fn source_first_line(register: &[u8], i: usize) -> usize
    requires { HasEntry register.now i }
    ensures { Field 2 (source_entry register.now i) 8 result }
{
    number_in::<2>(register, i, 8) as usize
}

// "name length (2, 1 to 64), name offset in the names (4)"
pub fn source_name_length(register: &[u8], i: usize) -> usize
    requires { HasEntry register.now i }
    ensures { Field 2 (source_entry register.now i) 10 result }
{
    number_in::<2>(register, i, 10) as usize
}

pub fn source_name_offset(register: &[u8], i: usize) -> usize
    requires { HasEntry register.now i }
    ensures { Field 4 (source_entry register.now i) 12 result }
{
    number_in::<4>(register, i, 12) as usize
}
