// Combination of two reports: it tests its input, and writes only where every test has passed.
#![tactic(auto)]

ghost use Rattle.std.specs.Prelude.{◌≡◌};
ghost use Rattle.basis.specs.Answers.{Passes, first_refusal, Gives, answered};
ghost use Rattle.meaning.specs.Calls.{combination_tests, combined};
ghost use Rattle.report_read.specs.Readable.{Readable};
ghost use Rattle.report_merge.specs.Merge.{Combinable};
ghost use Rattle.report_combine.specs.Tests.{form_tests, entry_tests};

use answer::{answer_of, refuse_if};
use basis::{Answer, Refusal};
use report_check::test_form;
use report_merge::{put_both, shared_number};
use report_read::{MOST_ENTRIES, entry_count, length_of, year_of};

// "9 for the first, 9 for the second"
fn test_forms(first: &[u8], second: &[u8]) -> Result<(), Refusal>
    ensures { result ≡ first_refusal (form_tests first.now second.now) }
{
    test_form(first, 1)?;
    test_form(second, 2)
}

// "10, 11, 12", of two well-formed reports. Each test is one call, and the calls are in the order of the tests.
fn test_entries(first: &[u8], second: &[u8]) -> Result<(), Refusal>
    requires { Readable first.now × Readable second.now }
    ensures { result ≡ first_refusal (entry_tests first.now second.now) }
{
    refuse_if(year_of(first) != year_of(second), 10, 0)?;
    let shared = shared_number(first, second);
    let stands = shared.is_some();
    let place = shared.unwrap_or(0);
    let n = entry_count(first) + entry_count(second);
    refuse_if(stands, 11, place)?;
    refuse_if(MOST_ENTRIES < n, 12, n as u64)
}

// "Combining: 9 for the first, 9 for the second, 10, 11, 12"
fn test_combination(first: &[u8], second: &[u8]) -> Result<(), Refusal>
    ensures { result ≡ first_refusal (combination_tests first.now second.now) }
{
    test_forms(first, second)?;
    test_entries(first, second)
}

// "8", then the report. The two have passed the other tests.
fn combine_entries(first: &[u8], second: &[u8], report: &mut [u8]) -> Result<u64, Refusal>
    requires { Combinable first.now second.now × (first_refusal (combination_tests first.now second.now) ≡ Passes) }
    ensures { Gives (combined first.now second.now report.old) (answered result) report.new }
{
    let needed = length_of(entry_count(first) + entry_count(second));
    answer::test_room(report.len(), needed)?;
    put_both(first, second, report);
    Ok(needed as u64)
}

fn combine_or_refuse(first: &[u8], second: &[u8], report: &mut [u8]) -> Result<u64, Refusal>
    ensures { Gives (combined first.now second.now report.old) (answered result) report.new }
{
    test_combination(first, second)?;
    combine_entries(first, second, report)
}

// "Combining writes the well-formed report of all entries of both"
pub fn combine(first: &[u8], second: &[u8], report: &mut [u8]) -> Answer
    ensures { Gives (combined first.now second.now report.old) result report.new }
{
    answer_of(combine_or_refuse(first, second, report))
}
