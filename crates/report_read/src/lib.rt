// Document 01, "The report": how it is laid out, and what is read from it. The code has the places and lengths of a report from here alone.
#![tactic(auto)]

ghost use Rattle.std.specs.Prelude.{◌≡◌, ◌+◌, ◌*◌, ◌≤◌, ◌<◌, length};
ghost use Rattle.meaning.specs.Report.{report_length, report_year, entry_count};
ghost use Rattle.report_read.specs.Readable.{Readable};
ghost use Rattle.report_read.specs.Entries.{entry_number, index_numbered};
ghost use Rattle.report_read.specs.Figures.{figure_length, figures_at, added_at, Addable, taken_at, Takeable};

use mass_exact::FIGURES;

// "layout 1"
pub const LAYOUT: u64 = 1;

// The places of the header's fields, behind the four bytes of its tag.
pub const LAYOUT_AT: usize = 4;

pub const YEAR_AT: usize = 6;

pub const COUNT_AT: usize = 8;

pub const FIRST_ZERO_AT: usize = 10;

pub const OFFSET_AT: usize = 12;

pub const LENGTH_AT: usize = 16;

pub const SECOND_ZERO_AT: usize = 20;

pub const TOTALS_AT: usize = 24;

// "(8 each)": a figure is a mass or an equivalent.
pub const FIGURE_LENGTH: usize = 8;

// The entries stand behind the totals.
pub const ENTRIES_AT: usize = TOTALS_AT + FIGURE_LENGTH * FIGURES;

// The places of an entry's fields, behind its number.
pub const METHOD_AT: usize = 4;

pub const FIGURES_AT: usize = 8;

pub const ENTRY_LENGTH: usize = FIGURES_AT + FIGURE_LENGTH * FIGURES;

// "at most 512", as many entries as a register has sources.
pub const MOST_ENTRIES: usize = 512;

pub const LONGEST_REPORT: usize = ENTRIES_AT + ENTRY_LENGTH * MOST_ENTRIES;

// "whole length 56 + 40n", which is also where entry n begins.
pub fn length_of(n: usize) -> usize
    requires { n < 65536 }
    ensures { result ≡ report_length n }
{
    ENTRIES_AT + ENTRY_LENGTH * n
}

pub fn year_of(report: &[u8]) -> u64
    requires { Readable report.now }
    ensures { result ≡ report_year report.now }
{
    fields::number_at::<2>(report, YEAR_AT)
}

pub fn entry_count(report: &[u8]) -> usize
    requires { Readable report.now }
    ensures { result ≡ entry_count report.now }
{
    fields::number_at::<2>(report, COUNT_AT) as usize
}

pub fn entry_number(report: &[u8], i: usize) -> u64
    requires { Readable report.now × (i < entry_count report.now) }
    ensures { result ≡ entry_number report.now i }
{
    fields::number_at::<4>(report, ENTRIES_AT + ENTRY_LENGTH * i)
}

// The entry that has a number. For speed alone it is a binary search: the promise is the first index with that number.
pub fn entry_index_of(report: &[u8], number: u64) -> Option<usize>
    requires { Readable report.now }
    ensures { result ≡ index_numbered report.now number }
{
    let (entries, _) = report[ENTRIES_AT..].as_chunks::<ENTRY_LENGTH>();
    entries
        .binary_search_by_key(&number, |entry| fields::number_at::<4>(entry, 0))
        .ok()
}

// Figures from a place on, as many as there is room for.
pub fn read_figures(s: &[u8], at: usize, to: &mut [u64])
    requires { at + figure_length * length to.old ≤ length s.now }
    ensures { to.new ≡ figures_at (length to.old) s.now at }
{
    for (k, figure) in to.iter_mut().enumerate() {
        *figure = fields::number_at::<8>(s, at + FIGURE_LENGTH * k);
    }
}

// The figures from a place on, each added to its own sum.
pub fn add_figures(s: &[u8], at: usize, sums: &mut [u64])
    requires { Addable s.now at sums.old }
    ensures { sums.new ≡ added_at s.now at sums.old }
{
    for (k, sum) in sums.iter_mut().enumerate() {
        *sum += fields::number_at::<8>(s, at + FIGURE_LENGTH * k);
    }
}

// The figures from a place on, each taken from its own sum. Two loops of one line say less than one that is told which way to reckon: what is asked of the
// sums differs.
pub fn take_figures(s: &[u8], at: usize, sums: &mut [u64])
    requires { Takeable s.now at sums.old }
    ensures { sums.new ≡ taken_at s.now at sums.old }
{
    for (k, sum) in sums.iter_mut().enumerate() {
        *sum -= fields::number_at::<8>(s, at + FIGURE_LENGTH * k);
    }
}
