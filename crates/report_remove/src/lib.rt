// Removal of an entry from a report: it tests its input, and writes only where every test has passed.
#![tactic(auto)]

ghost use Rattle.std.specs.Prelude.{◌≡◌, ◌+◌, ◌*◌, ◌-◌, ◌≤◌, ◌<◌, length};
ghost use Rattle.basis.specs.Answers.{answered, Gives};
ghost use Rattle.basis.specs.Bytes.{Written};
ghost use Rattle.meaning.specs.Report.{report_header, report_bytes, report_year, report_length, entries_at, entry_length, entry_count};
ghost use Rattle.meaning.specs.Report;
ghost use Rattle.meaning.specs.Calls.{removed};
ghost use Rattle.report_read.specs.Readable.{Readable};
ghost use Rattle.report_read.specs.Entries.{entries_from, rows};
ghost use Rattle.report_remove.specs.Others.{other_entries};

use answer::answer_of;
use basis::{Answer, Refusal};
use mass_exact::FIGURES;
use report_read::{
    ENTRIES_AT, ENTRY_LENGTH, FIGURES_AT, TOTALS_AT, entry_count, length_of, year_of,
};

// k entries from the i-th on, carried to another report as one stretch of bytes.
fn carry_entries(from: &[u8], i: usize, k: usize, to: &mut [u8], at: usize)
    requires { Readable from.now × (i + k ≤ entry_count from.now) × (at + entry_length * k ≤ length to.old) }
    ensures { Written to.old at (rows (entries_from from.now i k)) to.new }
{
    let start = ENTRIES_AT + ENTRY_LENGTH * i;
    let end = start + ENTRY_LENGTH * k;
    fields::put_bytes(to, at, &from[start..end]);
}

// The entries before entry i, and those behind it.
fn put_other_entries(report: &[u8], i: usize, res: &mut [u8])
    requires { Readable report.now × (i < entry_count report.now) × (report_length (entry_count report.now - 1) ≤ length res.old) }
    ensures { Written res.old entries_at (rows (other_entries report.now i)) res.new }
{
    let behind = entry_count(report) - (i + 1);
    carry_entries(report, 0, i, res, ENTRIES_AT);
    carry_entries(report, i + 1, behind, res, ENTRIES_AT + ENTRY_LENGTH * i);
}

// The header's totals less the figures of entry i.
fn other_totals(report: &[u8], i: usize) -> [u64; FIGURES]
    requires { Readable report.now × (i < entry_count report.now) }
    ensures { result ≡ Report.totals (other_entries report.now i) }
{
    let mut totals = [0u64; FIGURES];
    report_read::read_figures(report, TOTALS_AT, &mut totals);
    let at = ENTRIES_AT + ENTRY_LENGTH * i + FIGURES_AT;
    report_read::take_figures(report, at, &mut totals);
    totals
}

fn put_other_header(report: &[u8], i: usize, res: &mut [u8])
    requires { Readable report.now × (i < entry_count report.now) × (entries_at ≤ length res.old) }
    ensures { Written res.old 0 (report_header (report_year report.now) (other_entries report.now i)) res.new }
{
    let totals = other_totals(report, i);
    let year = year_of(report);
    let n = entry_count(report) - 1;
    report_write::put_header(res, year, n, &totals);
}

// "Removal writes the report without that entry"
fn put_others(report: &[u8], i: usize, res: &mut [u8])
    requires { Readable report.now × (i < entry_count report.now) × (report_length (entry_count report.now - 1) ≤ length res.old) }
    ensures { Written res.old 0 (report_bytes (report_year report.now) (other_entries report.now i)) res.new }
{
    put_other_header(report, i, res);
    put_other_entries(report, i, res);
}

// "13, 8", then the report. The one lent is well-formed.
fn remove_entry(report: &[u8], number: u32, res: &mut [u8]) -> Result<u64, Refusal>
    requires { Readable report.now }
    ensures { Gives (removed report.now number res.old) (answered result) res.new }
{
    let n = entry_count(report);
    let i = report_read::entry_index_of(report, number as u64).ok_or(Refusal {
        number: 13,
        place: number as u64,
    })?;
    let needed = length_of(n - 1);
    answer::test_room(res.len(), needed)?;
    put_others(report, i, res);
    Ok(needed as u64)
}

fn remove_or_refuse(report: &[u8], number: u32, res: &mut [u8]) -> Result<u64, Refusal>
    ensures { Gives (removed report.now number res.old) (answered result) res.new }
{
    report_check::test_form(report, 1)?;
    remove_entry(report, number, res)
}

// "Removal: 9, 13, 8"
pub fn remove(report: &[u8], number: u32, res: &mut [u8]) -> Answer
    ensures { Gives (removed report.now number res.old) result res.new }
{
    answer_of(remove_or_refuse(report, number, res))
}
