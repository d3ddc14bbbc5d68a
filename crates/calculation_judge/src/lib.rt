// Tests 5 to 7 over the sources of a register that 1 to 4 have passed, and what each source comes to.
#![tactic(auto)]

ghost use Rattle.std.specs.Prelude.{◌≡◌, ◌+◌, ◌*◌, ◌≤◌, ◌<◌, length};
ghost use Rattle.basis.specs.Bytes.{Written};
ghost use Rattle.meaning.specs.Register.{source_count};
ghost use Rattle.meaning.specs.Report.{figure_count};
ghost use Rattle.mass_source.specs.Source.{fault_in};
ghost use Rattle.calculation_judge.specs.Sources.{Judgeable, LinesSpan, ComesAt, waited, AllJudged};

use basis::Refusal;
use mass_exact::FIGURES;
use mass_source::Judged;
use register_header::{lines_at, source_count};
use register_layout::{source_line_count, source_method, source_parameter};

// Entry i, whose lines go from first up to end.
fn judge_entry(
    register: &[u8],
    base: usize,
    i: usize,
    first: usize,
    end: usize,
) -> Result<Judged, Refusal>
    requires { Judgeable register.now × (i < source_count register.now) × LinesSpan register.now base i first end }
    ensures { ComesAt register.now i result }
{
    let method = source_method(register, i);
    let parameter = source_parameter(register, i);
    mass_source::judge_source(register, method, parameter, base, first, end)
}

// Figures kept from a place on among those of the other sources.
fn keep_figures(kept: &mut [u64], at: usize, figures: &[u64])
    requires { at + length figures.now ≤ length kept.old }
    ensures { Written kept.old at figures.now kept.new }
{
    kept[at..at + figures.len()].copy_from_slice(figures);
}

// The first 6 or 7 waits while the lines of the later sources are tested for 5.
fn waits(waiting: Result<(), Refusal>, judged: Judged, i: usize) -> Result<(), Refusal>
    ensures { result ≡ waited waiting (fault_in judged) i }
{
    waiting?;
    match judged {
        Ok(_) => Ok(()),
        Err(fault) => Err(Refusal {
            number: fault.number(),
            place: i as u64,
        }),
    }
}

// "5 over all lines, then 6 and 7 source by source in table order", in one pass that keeps each source's figures up to the first bad line. The lines
// of a source begin where those of the source before it ended.
pub fn judge_sources(register: &[u8], kept: &mut [u64]) -> Result<(), Refusal>
    requires { Judgeable register.now × (figure_count * source_count register.now ≤ length kept.old) }
    ensures { AllJudged register.now kept.old result kept.new }
{
    let base = lines_at(register);
    let mut first: usize = 0;
    let mut waiting = Ok(());
    for i in 0..source_count(register) {
        let end = first + source_line_count(register, i);
        let judged = judge_entry(register, base, i, first, end)?;
        let figures = judged.unwrap_or([0u64; FIGURES]);
        keep_figures(kept, FIGURES * i, &figures);
        waiting = waits(waiting, judged, i);
        first = end;
    }
    waiting
}
