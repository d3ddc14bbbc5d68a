// The calls of `kopristen` for C and Rust: each export makes the call of its own name, under the same promise.
#![tactic(auto)]

ghost use Rattle.std.specs.Prelude.{◌≡◌};
ghost use Rattle.basis.specs.Answers.{Gives};
ghost use Rattle.meaning.specs.Calls.{calculated, combined, removed, checked, text, amounts, found, found_of_two};

use basis::Answer;
use meaning::{Found, Part};

#[unsafe(no_mangle)]
pub extern "C" fn kopristen_calculate(register: &[u8], report: &mut [u8]) -> Answer
    ensures { Gives (calculated register.now report.old) result report.new }
{
    kopristen::kopristen_calculate(register, report)
}

#[unsafe(no_mangle)]
pub extern "C" fn kopristen_combine(first: &[u8], second: &[u8], report: &mut [u8]) -> Answer
    ensures { Gives (combined first.now second.now report.old) result report.new }
{
    kopristen::kopristen_combine(first, second, report)
}

#[unsafe(no_mangle)]
pub extern "C" fn kopristen_remove(report: &[u8], number: u32, res: &mut [u8]) -> Answer
    ensures { Gives (removed report.now number res.old) result res.new }
{
    kopristen::kopristen_remove(report, number, res)
}

#[unsafe(no_mangle)]
pub extern "C" fn kopristen_check(report: &[u8]) -> Answer
    ensures { result ≡ checked report.now }
{
    kopristen::kopristen_check(report)
}

#[unsafe(no_mangle)]
pub extern "C" fn kopristen_text(report: &[u8], buffer: &mut [u8]) -> Answer
    ensures { Gives (text report.now buffer.old) result buffer.new }
{
    kopristen::kopristen_text(report, buffer)
}

#[unsafe(no_mangle)]
pub extern "C" fn kopristen_amounts(cards: &[u8], buffer: &mut [u8]) -> Answer
    ensures { Gives (amounts cards.now buffer.old) result buffer.new }
{
    kopristen::kopristen_amounts(cards, buffer)
}

#[unsafe(no_mangle)]
pub extern "C" fn kopristen_name(register: &[u8], number: u32) -> Part
    ensures { result ≡ found register.now number }
{
    kopristen::kopristen_name(register, number)
}

#[unsafe(no_mangle)]
pub extern "C" fn kopristen_name_of_two(plant: &[u8], contractor: &[u8], number: u32) -> Found
    ensures { result ≡ found_of_two plant.now contractor.now number }
{
    kopristen::kopristen_name_of_two(plant, contractor, number)
}
