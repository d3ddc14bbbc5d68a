// Document 01, "The report": whether a report is well-formed.
#![tactic(auto)]

ghost use Rattle.std.specs.Prelude.{◌&&◌, not, ◌≡◌, ◌+◌, ◌*◌, ◌≤◌, length, drop};
ghost use Rattle.basis.specs.Lists.{any, count_up};
ghost use Rattle.meaning.specs.Register.{most_sources};
ghost use Rattle.meaning.specs.Report.{figure_count, entries_at, entry_length, report_length, entry_count, entries_of, entry_in, number_before, header_right, wrong_entry, wrong_total, well_formed};
ghost use Rattle.meaning.specs.Report;
ghost use Rattle.meaning.specs.Calls.{form_test, checked};
ghost use Rattle.fields.specs.Fields.{Field};
ghost use Rattle.report_check.specs.Rules.{front_right, wrong_equivalent};

use basis::{Answer, Refusal};
use mass_exact::{FIGURES, GASES};
use report_read::{
    COUNT_AT, ENTRIES_AT, ENTRY_LENGTH, FIGURE_LENGTH, FIGURES_AT, FIRST_ZERO_AT, LAYOUT,
    LAYOUT_AT, LENGTH_AT, METHOD_AT, MOST_ENTRIES, OFFSET_AT, SECOND_ZERO_AT, TOTALS_AT, YEAR_AT,
    add_figures, length_of, read_figures,
};

// The masses of the entry at a place.
fn masses_at(report: &[u8], at: usize) -> [u64; GASES]
    requires { at + entry_length ≤ length report.now }
    ensures { result ≡ (entry_in (drop at report.now)).masses }
{
    let mut masses = [0u64; GASES];
    read_figures(report, at + FIGURES_AT, &mut masses);
    masses
}

// "each equivalent right and at most 10^15": masses of a foreign report are any numbers, and nothing wraps on the way to saying no.
fn is_equivalent_wrong(report: &[u8], at: usize) -> bool
    requires { at + entry_length ≤ length report.now }
    ensures { result ≡ wrong_equivalent (drop at report.now) }
{
    let masses = masses_at(report, at);
    let stated = fields::number_at::<8>(report, at + FIGURES_AT + FIGURE_LENGTH * GASES);
    match mass_exact::equivalent(masses) {
        Some(right) => stated != right,
        None => true,
    }
}

// Whether entry i breaks a rule, where its number and the one before it are known. The method and the zeros behind it are one number, which is
// a method only where they are zeros.
fn is_entry_wrong(report: &[u8], i: usize, number: u64, before: u64) -> bool
    requires { (report_length (i + 1) ≤ length report.now) × (before ≡ number_before report.now i) × Field 4 report.now (entries_at + entry_length * i) number }
    ensures { result ≡ wrong_entry report.now i }
{
    let at = ENTRIES_AT + ENTRY_LENGTH * i;
    let method_and_zeros = fields::number_at::<4>(report, at + METHOD_AT);
    let wrong = (number <= before) | !((1 <= method_and_zeros) & (method_and_zeros <= 6));
    if !wrong {
        return is_equivalent_wrong(report, at);
    }
    true
}

// "totals that are the sums"
fn are_totals_right(report: &[u8], totals: &[u64; FIGURES]) -> bool
    requires { (entries_at ≤ length report.now) × (totals.now ≡ Report.totals (entries_of report.now)) }
    ensures { result ≡ not (any (wrong_total report.now) (count_up 0 figure_count)) }
{
    for figure in 0..FIGURES {
        let wrong = fields::number_at::<8>(report, TOTALS_AT + FIGURE_LENGTH * figure)
            != totals[figure];
        if wrong {
            return false;
        }
    }
    true
}

// One pass over n entries, which tests each and adds its figures to the totals.
fn are_entries_right(report: &[u8], n: usize) -> bool
    requires { (length report.now ≡ report_length n) × (n ≤ most_sources) × (n ≡ entry_count report.now) }
    ensures { result ≡ not (any (wrong_entry report.now) (count_up 0 n)) && not (any (wrong_total report.now) (count_up 0 figure_count)) }
{
    let mut totals = [0u64; FIGURES];
    let mut before = 0;
    for i in 0..n {
        let at = ENTRIES_AT + ENTRY_LENGTH * i;
        let number = fields::number_at::<4>(report, at);
        let wrong = is_entry_wrong(report, i, number, before);
        if wrong {
            return false;
        }
        add_figures(report, at + FIGURES_AT, &mut totals);
        before = number;
    }
    are_totals_right(report, &totals)
}

// The header up to the count, of a report that has n entries and so a whole length.
fn is_front_right(report: &[u8], n: usize, whole: usize) -> bool
    requires { (entries_at ≤ length report.now) × (n ≡ entry_count report.now) × (whole ≡ report_length n) }
    ensures { result ≡ front_right report.now }
{
    let tagged = fields::starts_with(report, b"GREP");
    let layout = fields::number_at::<2>(report, LAYOUT_AT);
    let year = fields::number_at::<2>(report, YEAR_AT);
    (report.len() == whole)
        & tagged
        & (layout == LAYOUT)
        & ((1990 <= year) & (year <= 2100))
        & (n <= MOST_ENTRIES)
}

// "its tag, layout, zeros, offset and length as laid out above .., has a year in range, n at most 512"
fn is_header_right(report: &[u8]) -> bool
    requires { entries_at ≤ length report.now }
    ensures { result ≡ header_right report.now }
{
    let n = fields::number_at::<2>(report, COUNT_AT) as usize;
    let whole = length_of(n);
    let front = is_front_right(report, n, whole);
    let zeros = fields::number_at::<2>(report, FIRST_ZERO_AT);
    let offset = fields::number_at::<4>(report, OFFSET_AT);
    let size = fields::number_at::<4>(report, LENGTH_AT);
    let zeros_after = fields::number_at::<4>(report, SECOND_ZERO_AT);
    front
        & (zeros == 0)
        & (offset == ENTRIES_AT as u64)
        & (size == whole as u64)
        & (zeros_after == 0)
}

fn is_well_formed(report: &[u8]) -> bool
    ensures { result ≡ well_formed report.now }
{
    if report.len() < ENTRIES_AT {
        return false;
    }
    let right = is_header_right(report);
    if right {
        let n = fields::number_at::<2>(report, COUNT_AT) as usize;
        return are_entries_right(report, n);
    }
    false
}

// "9 | a report is not well-formed | 1 or 2, which one; 1 if only one is lent"
pub fn test_form(report: &[u8], which: u64) -> Result<(), Refusal>
    ensures { result ≡ form_test report.now which }
{
    let right = is_well_formed(report);
    answer::refuse_if(!right, 9, which)
}

// "The report check has only 9, place 1"
pub fn check(report: &[u8]) -> Answer
    ensures { result ≡ checked report.now }
{
    answer::answer_of(test_form(report, 1).and(Ok(report.len() as u64)))
}
