// Every call of documents 01 and 02. Each takes any bytes, and its promise is the meaning of the call. `kopristen_c` exports them to C.
#![tactic(auto)]

ghost use Rattle.std.specs.Prelude.{◌≡◌};
ghost use Rattle.basis.specs.Answers.{Gives};
ghost use Rattle.meaning.specs.Calls.{calculated, combined, removed, checked, text, amounts, found, found_of_two};

use basis::Answer;
use meaning::{Found, Part};

// "Calculation tests 1, 2 by field, 3 over all sources, 4 over all, 5 over all lines, then 6 and 7 .., then 8"
pub fn kopristen_calculate(register: &[u8], report: &mut [u8]) -> Answer
    ensures { Gives (calculated register.now report.old) result report.new }
{
    calculation::calculate(register, report)
}

// "Combining writes the well-formed report of all entries of both"
pub fn kopristen_combine(first: &[u8], second: &[u8], report: &mut [u8]) -> Answer
    ensures { Gives (combined first.now second.now report.old) result report.new }
{
    report_combine::combine(first, second, report)
}

// "Removal writes the report without that entry"
pub fn kopristen_remove(report: &[u8], number: u32, res: &mut [u8]) -> Answer
    ensures { Gives (removed report.now number res.old) result res.new }
{
    report_remove::remove(report, number, res)
}

// "The report check has only 9, place 1"
pub fn kopristen_check(report: &[u8]) -> Answer
    ensures { result ≡ checked report.now }
{
    report_check::check(report)
}

// The text of a report, as the report program writes it: 9 with place 1, then 8.
pub fn kopristen_text(report: &[u8], buffer: &mut [u8]) -> Answer
    ensures { Gives (text report.now buffer.old) result buffer.new }
{
    report_text::text(report, buffer)
}

// "received less dispatched, plus opening, less closing stock", of stock cards: 14, 15, then 8.
pub fn kopristen_amounts(cards: &[u8], buffer: &mut [u8]) -> Answer
    ensures { Gives (amounts cards.now buffer.old) result buffer.new }
{
    input_stock_cards::amounts(cards, buffer)
}

// "The name found for a number is the part of the lent register where it stands"; 0 and 0 where there is none.
pub fn kopristen_name(register: &[u8], number: u32) -> Part
    ensures { result ≡ found register.now number }
{
    register_name::name_place(register, number)
}

// "the name is a part of whichever register holds the number"; 1, 0 and 0 where there is none.
pub fn kopristen_name_of_two(plant: &[u8], contractor: &[u8], number: u32) -> Found
    ensures { result ≡ found_of_two plant.now contractor.now number }
{
    register_name::name_place_of_two(plant, contractor, number)
}
