// The name of a source, looked up by its number in a register, or in either of two, that tests 1 to 4 accept.
#![tactic(auto)]

mod look;

ghost use Rattle.std.specs.Prelude.{◌≡◌};
ghost use Rattle.meaning.specs.Calls.{in_register, found, found_of_two};
ghost use Rattle.meaning.specs.Parts.{IsName, IsNameOfEither};

use look::{NOWHERE, look_up};
use meaning::{Found, Part};
use register_layout::part;

fn in_register(which: u32, name: Part) -> Found
    ensures { result ≡ in_register which name }
{
    Found {
        which,
        offset: name.offset,
        length: name.length,
    }
}

// Where a source's name stands, by its number; 0 and 0 where there is none.
pub fn name_place(register: &[u8], number: u32) -> Part
    ensures { result ≡ found register.now number }
{
    look_up(register, number).flatten().unwrap_or(NOWHERE)
}

// Where it stands in whichever of two registers holds the number; 1, 0 and 0 where there is none.
pub fn name_place_of_two(plant: &[u8], contractor: &[u8], number: u32) -> Found
    ensures { result ≡ found_of_two plant.now contractor.now number }
{
    let here = look_up(plant, number);
    let there = look_up(contractor, number);
    let both = here.is_some() & there.is_some();
    if !both {
        return in_register(1, NOWHERE);
    }
    let one = here.flatten();
    let other = there.flatten();
    match (one, other) {
        (Some(name), None) => in_register(1, name),
        (None, Some(name)) => in_register(2, name),
        _ => in_register(1, NOWHERE),
    }
}

// "the part of the lent register where it stands, not a copy"
pub fn name_of(register: &[u8], number: u32) -> &[u8]
    ensures { IsName register.entry number result }
{
    let name = name_place(register, number);
    part(register, name.offset as usize, name.length as usize)
}

// "the name is a part of whichever register holds the number"
pub fn name_of_either<'a>(plant: &'a [u8], contractor: &'a [u8], number: u32) -> &'a [u8]
    ensures { IsNameOfEither plant.entry contractor.entry number result }
{
    let name = name_place_of_two(plant, contractor, number);
    let in_plant = name.which == 1;
    if in_plant {
        return part(plant, name.offset as usize, name.length as usize);
    }
    part(contractor, name.offset as usize, name.length as usize)
}
