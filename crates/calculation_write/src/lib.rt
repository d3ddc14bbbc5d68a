// Document 01, "The report": the report of a register whose tests 1 to 7 have passed, or 8 where it has no room.
#![tactic(auto)]

ghost use Rattle.std.specs.Prelude.{map, ◌≡◌, ◌+◌, ◌≤◌, ◌<◌, length, get_or};
ghost use Rattle.basis.specs.Answers.{Passes, first_refusal, answered, Gives};
ghost use Rattle.basis.specs.Bytes.{Written};
ghost use Rattle.basis.specs.Lists.{joined};
ghost use Rattle.meaning.specs.Register.{source_count, sources_of};
ghost use Rattle.meaning.specs.Report.{entries_at, report_length, entry_bytes};
ghost use Rattle.meaning.specs.Calls.{entries_for, calculation_tests, calculated_report, calculated};
ghost use Rattle.calculation_write.specs.Ready.{Ready, Summable, totals_of, entry_of_key};

use basis::Refusal;
use mass_exact::FIGURES;
use register_header::{register_year, source_count};
use register_layout::source_method;
use register_order::KEY_STEP;
use report_read::{ENTRIES_AT, ENTRY_LENGTH, length_of};

// The figures of source i added to the totals of those before it.
fn add_source(totals: &mut [u64], figures: &[u64], i: usize)
    requires { Summable figures.now (i + 1) × (totals.old ≡ totals_of figures.now i) }
    ensures { totals.new ≡ totals_of figures.now (i + 1) }
{
    for (k, total) in totals.iter_mut().enumerate() {
        *total += figures[FIGURES * i + k];
    }
}

// "the totals of CO2, CH4, N2O and CO2-equivalent": they do not go by the order of the sources.
fn totals_of(figures: &[u64], n: usize) -> [u64; FIGURES]
    requires { Summable figures.now n }
    ensures { result ≡ totals_of figures.now n }
{
    let mut totals = [0u64; FIGURES];
    for i in 0..n {
        add_source(&mut totals, figures, i);
    }
    totals
}

// Entry k of the report: that of the source whose key stands at k. A key is a source's number times KEY_STEP, and its index; its figures stand where the
// table has the source.
fn put_source(register: &[u8], keys: &[u64], k: usize, figures: &[u64], report: &mut [u8])
    requires { Ready register.now keys.now figures.now × (k < source_count register.now) × (report_length (k + 1) ≤ length report.old) }
    ensures { Written report.old (report_length k) (entry_bytes (entry_of_key register.now (get_or keys.now k 0))) report.new }
{
    let key = keys[k];
    let index = (key % KEY_STEP) as usize;
    let method = source_method(register, index);
    let start = FIGURES * index;
    let end = start + FIGURES;
    report_write::put_entry(
        report,
        ENTRIES_AT + ENTRY_LENGTH * k,
        key / KEY_STEP,
        method,
        &figures[start..end],
    );
}

// "Entries are 40 bytes, ascending by source number", as the keys are.
fn put_sources(register: &[u8], keys: &[u64], figures: &[u64], report: &mut [u8])
    requires { Ready register.now keys.now figures.now × (report_length (source_count register.now) ≤ length report.old) }
    ensures { Written report.old entries_at (joined (map entry_bytes (entries_for (sources_of register.now)))) report.new }
{
    for k in 0..source_count(register) {
        put_source(register, keys, k, figures, report);
    }
}

// The report of a register whose sources have been judged: its header with the totals, and its entries, ascending by number.
fn write_report(register: &[u8], keys: &[u64], figures: &[u64], report: &mut [u8])
    requires { Ready register.now keys.now figures.now × (report_length (source_count register.now) ≤ length report.old) }
    ensures { Written report.old 0 (calculated_report register.now) report.new }
{
    let year = register_year(register);
    let n = source_count(register);
    let totals = totals_of(figures, n);
    report_write::put_header(report, year, n, &totals);
    put_sources(register, keys, figures, report);
}

// "then 8", and the report of a register that has passed the tests before.
pub fn write_calculated(
    register: &[u8],
    keys: &[u64],
    figures: &[u64],
    report: &mut [u8],
) -> Result<u64, Refusal>
    requires { Ready register.now keys.now figures.now × (first_refusal (calculation_tests register.now) ≡ Passes) }
    ensures { Gives (calculated register.now report.old) (answered result) report.new }
{
    let n = source_count(register);
    let needed = length_of(n);
    match answer::test_room(report.len(), needed) {
        Ok(()) => {
            write_report(register, keys, figures, report);
            Ok(needed as u64)
        }
        Err(refusal) => Err(refusal),
    }
}
