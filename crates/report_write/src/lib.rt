// Document 01, "The report": the parts of a report written, its header, its entries, an entry carried over.
#![tactic(auto)]

ghost use Rattle.std.specs.Prelude.{[], ◌∷◌, ◌++◌, ◌≡◌, ◌+◌, ◌*◌, ◌≤◌, ◌<◌, length};
ghost use Rattle.basis.specs.Bytes.{Written, packed};
ghost use Rattle.meaning.specs.Register.{most_sources};
ghost use Rattle.meaning.specs.Report.{figure_count, report_tag, report_layout, entries_at, entry_length, report_length, entry_bytes, entry_count, entry_at, entry_in};
ghost use Rattle.report_read.specs.Figures.{figure_length};
ghost use Rattle.report_read.specs.Readable.{Readable};
ghost use Rattle.report_write.specs.Parts.{figure_bytes, stated_entry, stated_front, stated_header};

use report_read::{
    COUNT_AT, ENTRIES_AT, ENTRY_LENGTH, FIGURE_LENGTH, FIGURES_AT, FIRST_ZERO_AT, LAYOUT,
    LAYOUT_AT, LENGTH_AT, METHOD_AT, OFFSET_AT, SECOND_ZERO_AT, TOTALS_AT, YEAR_AT, length_of,
};

// Figures over what stands from a place on.
fn put_figures(buf: &mut [u8], at: usize, figures: &[u64])
    requires { at + figure_length * length figures.now ≤ length buf.old }
    ensures { Written buf.old at (figure_bytes figures.now) buf.new }
{
    for (k, figure) in figures.iter().enumerate() {
        fields::put_number::<8>(buf, at + FIGURE_LENGTH * k, *figure);
    }
}

// The method with its three zeros is a number of four bytes, so that the front is two words.
fn put_entry_front(buf: &mut [u8], at: usize, number: u64, method: u64)
    requires { (at + 8 ≤ length buf.old) × (method < 256) }
    ensures { Written buf.old at (packed (4 ∷ 1 ∷ 3 ∷ []) (number ∷ method ∷ 0 ∷ [])) buf.new }
{
    fields::put_number::<4>(buf, at, number);
    fields::put_number::<4>(buf, at + METHOD_AT, method);
}

// The entry of a number, a method and figures.
pub fn put_entry(buf: &mut [u8], at: usize, number: u64, method: u64, figures: &[u64])
    requires { (at + entry_length ≤ length buf.old) × (method < 256) × (length figures.now ≡ figure_count) }
    ensures { Written buf.old at (stated_entry number method figures.now) buf.new }
{
    put_entry_front(buf, at, number, method);
    put_figures(buf, at + FIGURES_AT, figures);
}

// "Every report starts with the four bytes GREP. Then: layout 1 (2), year (2)"
fn put_tag_and_year(buf: &mut [u8], year: u64)
    requires { entries_at ≤ length buf.old }
    ensures { Written buf.old 0 (report_tag ++ packed (2 ∷ 2 ∷ []) (report_layout ∷ year ∷ [])) buf.new }
{
    fields::put_bytes(buf, 0, b"GREP");
    fields::put_number::<2>(buf, LAYOUT_AT, LAYOUT);
    fields::put_number::<2>(buf, YEAR_AT, year);
}

// "count n (2), zero (2), offset of entries 56 (4)"
fn put_count(buf: &mut [u8], n: u64)
    requires { entries_at ≤ length buf.old }
    ensures { Written buf.old 8 (packed (2 ∷ 2 ∷ 4 ∷ []) (n ∷ 0 ∷ entries_at ∷ [])) buf.new }
{
    fields::put_number::<2>(buf, COUNT_AT, n);
    fields::put_zeros(buf, FIRST_ZERO_AT, 2);
    fields::put_number::<4>(buf, OFFSET_AT, ENTRIES_AT as u64);
}

// "whole length 56 + 40n (4), zero (4)"
fn put_length(buf: &mut [u8], n: usize)
    requires { (entries_at ≤ length buf.old) × (n ≤ most_sources) }
    ensures { Written buf.old 16 (packed (4 ∷ 4 ∷ []) (report_length n ∷ 0 ∷ [])) buf.new }
{
    fields::put_number::<4>(buf, LENGTH_AT, length_of(n) as u64);
    fields::put_zeros(buf, SECOND_ZERO_AT, 4);
}

fn put_header_front(buf: &mut [u8], year: u64, n: usize)
    requires { (entries_at ≤ length buf.old) × (n ≤ most_sources) }
    ensures { Written buf.old 0 (stated_front year n) buf.new }
{
    put_tag_and_year(buf, year);
    put_count(buf, n as u64);
    put_length(buf, n);
}

// The header of a year, a count and totals.
pub fn put_header(buf: &mut [u8], year: u64, n: usize, totals: &[u64])
    requires { (entries_at ≤ length buf.old) × (n ≤ most_sources) × (length totals.now ≡ figure_count) }
    ensures { Written buf.old 0 (stated_header year n totals.now) buf.new }
{
    put_header_front(buf, year, n);
    put_figures(buf, TOTALS_AT, totals);
}

// An entry as it stands, carried to its place in another report by way of a spare array.
pub fn carry_entry(from: &[u8], i: usize, to: &mut [u8], at: usize)
    requires { Readable from.now × (i < entry_count from.now) × (at + entry_length ≤ length to.old) }
    ensures { Written to.old at (entry_bytes (entry_in (entry_at from.now i))) to.new }
{
    let mut spare = [0u8; ENTRY_LENGTH];
    let start = ENTRIES_AT + ENTRY_LENGTH * i;
    let end = start + ENTRY_LENGTH;
    fields::put_bytes(&mut spare, 0, &from[start..end]);
    fields::put_bytes(to, at, &spare);
}
