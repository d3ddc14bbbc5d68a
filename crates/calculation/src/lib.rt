// Document 01: calculation, from the bytes of a register to those of its report.
#![tactic(auto)]

ghost use Rattle.std.specs.Prelude.{◌*◌, ◌≤◌, length};
ghost use Rattle.basis.specs.Answers.{answered, Gives};
ghost use Rattle.meaning.specs.Register.{most_sources};
ghost use Rattle.meaning.specs.Report.{figure_count};
ghost use Rattle.meaning.specs.Calls.{calculated};
ghost use Rattle.register_order.specs.Keys.{keys_for};
ghost use Rattle.calculation.specs.Keyed.{Keyed};

use answer::answer_of;
use basis::{Answer, Refusal};
use calculation_judge::judge_sources;
use calculation_write::write_calculated;
use mass_exact::FIGURES;
use register_header::MOST_SOURCES;

// Rooms for one source, for so few and for so many, so that no call clears much more room than it wants. In the next larger room one source takes
// 7 % more time on aarch64 and 2 % on x86-64, nine sources 26 % and 22 %.
const FEW_SOURCES: usize = 8;

const SOME_SOURCES: usize = 64;

// The room for the figures of as many sources. An array's length cannot be reckoned from a parameter.
const FEW_FIGURES: usize = FIGURES * FEW_SOURCES;

const SOME_FIGURES: usize = FIGURES * SOME_SOURCES;

const MOST_FIGURES: usize = FIGURES * MOST_SOURCES;

// "5 over all lines, then 6 and 7 source by source in table order, then 8"
fn judge_and_write(
    register: &[u8],
    keys: &[u64],
    kept: &mut [u64],
    report: &mut [u8],
) -> Result<u64, Refusal>
    requires { Keyed register.now keys.now kept.old }
    ensures { Gives (calculated register.now report.old) (answered result) report.new }
{
    judge_sources(register, kept)?;
    write_calculated(register, keys, kept, report)
}

// A calculation in the room given for the keys and for the figures, which also serves to sort the keys.
fn calculate_in(
    register: &[u8],
    keys: &mut [u64],
    kept: &mut [u64],
    report: &mut [u8],
) -> Result<u64, Refusal>
    requires { (keys_for register.now ≤ length keys.old) × (figure_count * keys_for register.now ≤ length kept.old) }
    ensures { Gives (calculated register.now report.old) (answered result) report.new }
{
    register_order::test_register(register, keys, kept)?;
    judge_and_write(register, keys, kept, report)
}

// A calculation with room for so many sources and figures.
fn calculate_within<const SOURCES: usize, const KEPT: usize>(
    register: &[u8],
    report: &mut [u8],
) -> Result<u64, Refusal>
    requires enough { (keys_for register.now ≤ SOURCES) × (figure_count * keys_for register.now ≤ KEPT) }
    requires at_most { (SOURCES ≤ most_sources) × (KEPT ≤ figure_count * most_sources) }
    ensures { Gives (calculated register.now report.old) (answered result) report.new }
{
    let mut keys = [0u64; SOURCES];
    let mut kept = [0u64; KEPT];
    calculate_in(register, &mut keys, &mut kept, report)
}

// A calculation in the room that the count of sources wants.
fn calculate_by_count(register: &[u8], report: &mut [u8]) -> Result<u64, Refusal>
    ensures { Gives (calculated register.now report.old) (answered result) report.new }
{
    let count = register_order::keys_for(register);
    if count <= 1 {
        return calculate_within::<1, FIGURES>(register, report);
    }
    if count <= FEW_SOURCES {
        return calculate_within::<FEW_SOURCES, FEW_FIGURES>(register, report);
    }
    if count <= SOME_SOURCES {
        return calculate_within::<SOME_SOURCES, SOME_FIGURES>(register, report);
    }
    calculate_within::<MOST_SOURCES, MOST_FIGURES>(register, report)
}

// "Calculation tests 1, 2 by field, 3 over all sources, 4 over all", and what is behind these.
pub fn calculate(register: &[u8], report: &mut [u8]) -> Answer
    ensures { Gives (calculated register.now report.old) result report.new }
{
    answer_of(calculate_by_count(register, report))
}
