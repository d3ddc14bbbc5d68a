// The text of a report: "year, count and the four totals, then one line an entry".
#![tactic(auto)]

ghost use Rattle.std.specs.Prelude.{◌≡◌, ◌+◌, ◌*◌, ◌≤◌, ◌<◌, length};
ghost use Rattle.basis.specs.Answers.{answered, Gives};
ghost use Rattle.basis.specs.Bytes.{Written};
ghost use Rattle.meaning.specs.Text.{text_line};
ghost use Rattle.meaning.specs.Report.{figure_count, entry_count, entry_at, entry_in};
ghost use Rattle.meaning.specs.Calls;
ghost use Rattle.decimal_write.specs.Digits.{Ends, Put};
ghost use Rattle.report_read.specs.Figures.{figure_length, figures_at};
ghost use Rattle.report_read.specs.Readable.{Readable};
ghost use Rattle.report_text.specs.Rows.{Measured, head_numbers, entry_numbers, front_fields, entry_line, entry_lines, text_of};

use answer::answer_of;
use basis::{Answer, Refusal};
use decimal_write::{digit_count, put_field_at, put_pair};
use mass_exact::FIGURES;
use report_read::{
    ENTRIES_AT, ENTRY_LENGTH, FIGURE_LENGTH, FIGURES_AT, METHOD_AT, TOTALS_AT, entry_count,
    entry_number, year_of,
};

// Room for the text of any report: none has more than 38,994 bytes (`longest` in `demands`).
pub const TEXT_ROOM: usize = 40960;

// The bytes of the figures that stand from a place on, each with the byte behind it.
fn measure_figures(report: &[u8], at: usize) -> usize
    requires { at + figure_length * figure_count ≤ length report.now }
    ensures { Measured (figures_at figure_count report.now at) result }
{
    let mut total = 0;
    for k in 0..FIGURES {
        let digits = digit_count(fields::number_at::<8>(report, at + FIGURE_LENGTH * k));
        total += digits + 1;
    }
    total
}

// The figures that stand from a place on, as the end of a line: "One space parts fields, a line feed ends each line".
fn put_figure_fields(report: &[u8], at: usize, buf: &mut [u8], end: usize) -> usize
    requires { (at + figure_length * figure_count ≤ length report.now) × Ends buf.old (text_line (figures_at figure_count report.now at)) end }
    ensures { Put buf.old result (text_line (figures_at figure_count report.now at)) buf.new end }
{
    let co2 = fields::number_at::<8>(report, at);
    let ch4 = fields::number_at::<8>(report, at + FIGURE_LENGTH);
    let n2o = fields::number_at::<8>(report, at + 2 * FIGURE_LENGTH);
    let equivalent = fields::number_at::<8>(report, at + 3 * FIGURE_LENGTH);
    let p = put_pair(buf, end, n2o, equivalent, b'\n');
    put_pair(buf, p, co2, ch4, b' ')
}

// "year, count and the four totals"
fn measure_head(report: &[u8]) -> usize
    requires { Readable report.now }
    ensures { Measured (head_numbers report.now) result }
{
    let year = digit_count(year_of(report));
    let n = digit_count(entry_count(report) as u64);
    let totals = measure_figures(report, TOTALS_AT);
    year + n + 2 + totals
}

// "one line an entry: number, method, CO2, CH4, N2O, equivalent". A method has one digit.
fn measure_entry(report: &[u8], i: usize) -> usize
    requires { Readable report.now × (i < entry_count report.now) }
    ensures { Measured (entry_numbers (entry_in (entry_at report.now i))) result }
{
    let number = digit_count(entry_number(report, i));
    let figures = measure_figures(report, ENTRIES_AT + ENTRY_LENGTH * i + FIGURES_AT);
    number + 3 + figures
}

// The length of a report's text, reckoned before anything is written.
fn measure_text(report: &[u8]) -> usize
    requires { Readable report.now }
    ensures { result ≡ length (text_of report.now) }
{
    let mut total = measure_head(report);
    for i in 0..entry_count(report) {
        total += measure_entry(report, i);
    }
    total
}

fn put_entry_line(report: &[u8], i: usize, buf: &mut [u8], end: usize) -> usize
    requires { Readable report.now × (i < entry_count report.now) × Ends buf.old (entry_line report.now i) end }
    ensures { Put buf.old result (entry_line report.now i) buf.new end }
{
    let at = ENTRIES_AT + ENTRY_LENGTH * i;
    let number = entry_number(report, i);
    let method = fields::number_at::<1>(report, at + METHOD_AT);
    let p = put_figure_fields(report, at + FIGURES_AT, buf, end);
    put_pair(buf, p, number, method, b' ')
}

// "then one line an entry", from the last to the first.
fn put_lines(report: &[u8], buf: &mut [u8], end: usize) -> usize
    requires { Readable report.now × Ends buf.old (entry_lines report.now) end }
    ensures { Put buf.old result (entry_lines report.now) buf.new end }
{
    let mut p = end;
    for i in (0..entry_count(report)).rev() {
        p = put_entry_line(report, i, buf, p);
    }
    p
}

// "year, count", at the front.
fn put_front(report: &[u8], buf: &mut [u8])
    requires { Readable report.now × (length (front_fields report.now) ≤ length buf.old) }
    ensures { Written buf.old 0 (front_fields report.now) buf.new }
{
    let year = year_of(report);
    let n = entry_count(report) as u64;
    let at = put_field_at(buf, 0, year, b' ');
    put_field_at(buf, at, n, b' ');
}

// The whole text, from the last line to the first. Only what stands at the front has no bytes before it.
fn put_text(report: &[u8], buf: &mut [u8], end: usize)
    requires { Readable report.now × (end ≡ length (text_of report.now)) × (end ≤ length buf.old) }
    ensures { Written buf.old 0 (text_of report.now) buf.new }
{
    let p = put_lines(report, buf, end);
    put_figure_fields(report, TOTALS_AT, buf, p);
    put_front(report, buf);
}

// "8", then the text. The report is well-formed.
fn write_text(report: &[u8], buffer: &mut [u8]) -> Result<u64, Refusal>
    requires { Readable report.now }
    ensures { Gives (Calls.text report.now buffer.old) (answered result) buffer.new }
{
    let needed = measure_text(report);
    answer::test_room(buffer.len(), needed)?;
    put_text(report, buffer, needed);
    Ok(needed as u64)
}

fn text_or_refusal(report: &[u8], buffer: &mut [u8]) -> Result<u64, Refusal>
    ensures { Gives (Calls.text report.now buffer.old) (answered result) buffer.new }
{
    report_check::test_form(report, 1)?;
    write_text(report, buffer)
}

// The text of a report at the front of a buffer: 9 with place 1, then 8 with the length needed.
pub fn text(report: &[u8], buffer: &mut [u8]) -> Answer
    ensures { Gives (Calls.text report.now buffer.old) result buffer.new }
{
    answer_of(text_or_refusal(report, buffer))
}
