// The source entries of a register: test 3 over all of them, and their names.
ghost use Rattle.std.specs.Prelude.{◌||◌, [], ◌∷◌, ◌≡◌, ◌+◌, ◌≤◌, length};
ghost use Rattle.basis.specs.Lists.{any};
ghost use Rattle.basis.specs.Answers.{first_refusal};
ghost use Rattle.meaning.specs.Methods.{listed};
ghost use Rattle.meaning.specs.Register.{name_place, source_at, line_start, name_start, misplaced, bad_name_byte, unsound, wrong_source, source_test, rest_test};
ghost use Rattle.meaning.specs.Parts.{IsPart};
ghost use Rattle.register_header.specs.Header.{Headed, HasEntry};
ghost use Rattle.register_layout.specs.Layout.{HasName, StartsAt, all_names};

use crate::entry::{
    source_first_line, source_line_count, source_method, source_name_length, source_name_offset,
    source_number, source_parameter,
};
use answer::refuse_if;
use basis::Refusal;
use register_header::{line_count, name_byte_count, names_at, source_count};

// Where the lines of entry i end, and those of the next begin.
fn lines_end(register: &[u8], i: usize) -> usize
    requires { HasEntry register.now i }
    ensures { result ≡ line_start register.now (i + 1) }
{
    source_first_line(register, i) + source_line_count(register, i)
}

// Where its name ends, and that of the next begins.
fn name_end(register: &[u8], i: usize) -> usize
    requires { HasEntry register.now i }
    ensures { result ≡ name_start register.now (i + 1) }
{
    source_name_offset(register, i) + source_name_length(register, i)
}

// Whether its lines or its name begin elsewhere than at this line and name byte, or run past m or t.
fn is_misplaced(register: &[u8], i: usize, line: usize, byte: usize) -> bool
    requires has_entry { HasEntry register.now i }
    requires starts_at { StartsAt register.now i line byte }
    ensures { result ≡ misplaced register.now i }
{
    let m = line_count(register);
    let t = name_byte_count(register);
    let first_line = source_first_line(register, i);
    let offset = source_name_offset(register, i);
    let lines = lines_end(register, i);
    let bytes = name_end(register, i);
    (first_line != line) | (offset != byte) | (m < lines) | (t < bytes)
}

// "a pair listed under the methods"
fn is_listed(method: u64, parameter: u64) -> bool
    ensures { result ≡ listed method parameter }
{
    ((method == 1) | (method == 2) | (method == 3) | (method == 5)) & (parameter == 0)
        | ((method == 4) | (method == 6)) & ((1 <= parameter) & (parameter <= 6))
}

// Whether a source is unsound by what its entry states, without its name's bytes.
fn is_misstated(register: &[u8], i: usize) -> bool
    requires { HasName register.now i }
    ensures { (result || any bad_name_byte (source_at register.now i).name) ≡ unsound (source_at register.now i) }
{
    let number = source_number(register, i);
    let listed = is_listed(source_method(register, i), source_parameter(register, i));
    let lines = source_line_count(register, i);
    let length = source_name_length(register, i);
    (number == 0) | !listed | (lines == 0) | !((1 <= length) & (length <= 64))
}

// "A name byte is none below 32 and not 127". The loop goes to the end, so that it may take many bytes at a time.
fn has_bad_byte(name: &[u8]) -> bool
    ensures { result ≡ any bad_name_byte name.now }
{
    let mut bad = false;
    for &byte in name {
        bad |= (byte < 32) | (byte == 127);
    }
    bad
}

// Where the name of entry i begins.
pub fn place_of_name(register: &[u8], i: usize) -> usize
    requires { HasEntry register.now i }
    ensures { result ≡ name_place register.now i }
{
    names_at(register) + source_name_offset(register, i)
}

// The part of bytes lent that begins at an offset, where it stands.
pub fn part(bytes: &[u8], offset: usize, size: usize) -> &[u8]
    requires { offset + size ≤ length bytes.now }
    ensures { IsPart bytes.entry offset size result }
{
    let end = offset + size;
    &bytes[offset..end]
}

fn has_bad_name(register: &[u8], i: usize) -> bool
    requires { HasName register.now i }
    ensures { result ≡ any bad_name_byte (source_at register.now i).name }
{
    let start = place_of_name(register, i);
    let size = source_name_length(register, i);
    has_bad_byte(part(register, start, size))
}

// Whether any name byte of the register is bad. Mostly none is, and then no name is read by itself.
fn has_bad_names(register: &[u8]) -> bool
    requires { Headed register.now }
    ensures { result ≡ any bad_name_byte (all_names register.now) }
{
    let start = names_at(register);
    has_bad_byte(part(register, start, register.len() - start))
}

// Whether entry i is wrong. Its name is read only once it is known to stand within the names.
fn is_wrong(register: &[u8], i: usize, line: usize, byte: usize, spoiled: bool) -> bool
    requires has_entry { HasEntry register.now i }
    requires starts_at { StartsAt register.now i line byte }
    requires spoiled_value { spoiled ≡ any bad_name_byte (all_names register.now) }
    ensures { result ≡ wrong_source register.now i }
{
    let misplaced = is_misplaced(register, i, line, byte);
    if misplaced {
        return true;
    }
    let misstated = is_misstated(register, i);
    if misstated {
        return true;
    }
    if spoiled {
        return has_bad_name(register, i);
    }
    false
}

// Test 3 over all sources, and then that no line and no name byte is left over.
pub fn test_sources(register: &[u8]) -> Result<(), Refusal>
    requires { Headed register.now }
    ensures { result ≡ first_refusal (source_test register.now ∷ rest_test register.now ∷ []) }
{
    let n = source_count(register);
    let m = line_count(register);
    let t = name_byte_count(register);
    let spoiled = has_bad_names(register);
    let mut line: usize = 0;
    let mut byte: usize = 0;
    for i in 0..n {
        refuse_if(is_wrong(register, i, line, byte, spoiled), 3, i as u64)?;
        line = lines_end(register, i);
        byte = name_end(register, i);
    }
    refuse_if((line != m) | (byte != t), 3, n as u64)
}
