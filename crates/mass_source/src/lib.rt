// Document 01, "Rounding and equivalence": the masses and the equivalent of a source from the sums of its lines, or what it is refused for.
#![tactic(auto)]

ghost use Rattle.std.specs.Prelude.{[], ◌∷◌, ◌++◌, ◌≡◌, length};
ghost use Rattle.meaning.specs.Masses.{gas_count};
ghost use Rattle.mass_sums.specs.Sums.{Roomy};
ghost use Rattle.mass_sums.specs.Lines.{LinesStand};
ghost use Rattle.mass_source.specs.Source.{AllRoomy, grams_of, number_of, WeighedBy, JudgedBy, Comes};

use basis::Refusal;
use mass_exact::{Amount, FIGURES, GASES};
use mass_sums::Sums;

// What a source whose lines pass is refused for: "6 | a source's exact CO2 sum is below zero", "7 | a source's equivalent is above 10^15 g".
#[derive(Clone, Copy)]
pub enum Fault {
    BelowZero,
    AboveLimit,
}

impl Fault {
    pub fn number(self) -> u32
        ensures { result ≡ number_of self }
    {
        match self {
            Fault::BelowZero => 6,
            Fault::AboveLimit => 7,
        }
    }
}

// What a source's sums come to: the masses and the equivalent, or the fault.
pub type Judged = Result<[u64; FIGURES], Fault>;

// What each gas comes to, in whole grams.
fn grams(amounts: [Amount; GASES]) -> [u64; GASES]
    requires { AllRoomy amounts }
    ensures { result ≡ grams_of amounts }
{
    amounts.map(mass_exact::round)
}

// "CO2, CH4, N2O, CO2-equivalent": the masses, and the equivalent behind them.
fn figures_of(masses: [u64; GASES], equivalent: u64) -> [u64; FIGURES]
    requires { length masses ≡ gas_count }
    ensures { result ≡ masses ++ (equivalent ∷ []) }
{
    let mut figures = [equivalent; FIGURES];
    figures[..GASES].copy_from_slice(&masses);
    figures
}

// 7 where the equivalent of the masses is above the limit.
fn weigh(masses: [u64; GASES]) -> Judged
    requires { length masses ≡ gas_count }
    ensures { WeighedBy masses result }
{
    let equivalent = mass_exact::equivalent(masses).ok_or(Fault::AboveLimit)?;
    Ok(figures_of(masses, equivalent))
}

// "An exact CO2 sum below zero is refused; zero is accepted": 6 before 7.
fn judge_sums(sums: Sums) -> Judged
    requires { Roomy 0 sums }
    ensures { JudgedBy sums result }
{
    let mut added = sums.added;
    let taken = sums.taken;
    let co2 = added[0];
    if mass_exact::below(co2, taken) {
        return Err(Fault::BelowZero);
    }
    added[0] = mass_exact::subtract(co2, taken);
    weigh(grams(added))
}

// The lines of a source from first up to end, read, summed and judged, or refused.
pub fn judge_source(
    register: &[u8],
    method: u64,
    parameter: u64,
    base: usize,
    first: usize,
    end: usize,
) -> Result<Judged, Refusal>
    requires { LinesStand register.now method parameter base first end }
    ensures { Comes register.now method parameter first end result }
{
    match mass_sums::read_lines(register, method, parameter, base, first, end) {
        Ok(sums) => Ok(judge_sums(sums)),
        Err(bad) => Err(bad.refusal),
    }
}
