// The exported calls and the returned names once more, each with what the first two demands say of it. A promise is the meaning of its call, the
// demands are theorems about that meaning, and here the two meet: what a lent slice holds is bytes, which is all that the theorems ask for.
#![tactic(auto)]

ghost use Rattle.demands.specs.Calls.{Calculates, Combines, Removes, Checks, Prints, WorksOut, Finds, FindsOfTwo, HandsBack, HandsBackEither};

use basis::Answer;
use meaning::{Found, Part};

pub fn calculate(register: &[u8], report: &mut [u8]) -> Answer
    ensures { Calculates register.now report.old (record { answer = result; left = report.new }) }
{
    kopristen::kopristen_calculate(register, report)
}

pub fn combine(first: &[u8], second: &[u8], report: &mut [u8]) -> Answer
    ensures { Combines first.now second.now report.old (record { answer = result; left = report.new }) }
{
    kopristen::kopristen_combine(first, second, report)
}

pub fn remove(report: &[u8], number: u32, res: &mut [u8]) -> Answer
    ensures { Removes report.now number res.old (record { answer = result; left = res.new }) }
{
    kopristen::kopristen_remove(report, number, res)
}

pub fn check(report: &[u8]) -> Answer
    ensures { Checks report.now result }
{
    kopristen::kopristen_check(report)
}

pub fn text(report: &[u8], buffer: &mut [u8]) -> Answer
    ensures { Prints report.now buffer.old (record { answer = result; left = buffer.new }) }
{
    kopristen::kopristen_text(report, buffer)
}

pub fn amounts(cards: &[u8], buffer: &mut [u8]) -> Answer
    ensures { WorksOut cards.now buffer.old (record { answer = result; left = buffer.new }) }
{
    kopristen::kopristen_amounts(cards, buffer)
}

pub fn name(register: &[u8], number: u32) -> Part
    ensures { Finds register.now number result }
{
    kopristen::kopristen_name(register, number)
}

pub fn name_of_two(plant: &[u8], contractor: &[u8], number: u32) -> Found
    ensures { FindsOfTwo plant.now contractor.now number result }
{
    kopristen::kopristen_name_of_two(plant, contractor, number)
}

// The bytes of the part that is returned, and its place in the bytes lent.
pub fn name_of(register: &[u8], number: u32) -> &[u8]
    ensures { HandsBack register.now register.entry.ref_ptr number result.now result.ref_ptr }
{
    register_name::name_of(register, number)
}

pub fn name_of_either<'a>(plant: &'a [u8], contractor: &'a [u8], number: u32) -> &'a [u8]
    ensures { HandsBackEither plant.now plant.entry.ref_ptr contractor.now contractor.entry.ref_ptr number result.now result.ref_ptr }
{
    register_name::name_of_either(plant, contractor, number)
}
