// Document 01, "Rounding and equivalence": the lines of a source, read one behind another up to the first that is bad, and their exact sums by gas.
#![tactic(auto)]

ghost use Rattle.std.specs.Prelude.{◌≡◌, ◌+◌, ◌≤◌, length, drop};
ghost use Rattle.meaning.specs.Register.{line_length, line_of};
ghost use Rattle.meaning.specs.Methods.{most_quantity};
ghost use Rattle.line_kind.specs.Ranges.{KindFits};
ghost use Rattle.mass_sums.specs.Sums.{Roomy, Counts};
ghost use Rattle.mass_sums.specs.Lines.{LinesStand, Reads};

use basis::Refusal;
use mass_exact::{Amount, GASES};
use meaning::{Line, RawLine};
use register_header::LINE_LENGTH;

// What the lines read so far come to: what they add, by gas, and what they take from CO2.
#[derive(Clone, Copy)]
pub struct Sums {
    pub added: [Amount; GASES],
    pub taken: Amount,
}

// The refusal of a line, and what the lines before it come to.
#[derive(Clone, Copy)]
pub struct BadLine {
    pub refusal: Refusal,
    pub before: Sums,
}

const NOTHING: Amount = Amount { high: 0, low: 0 };

// A line of 20 bytes at a place: "kind (1), unit (1), code (2), A (4), B (4), quantity Q (8)"
fn line_at(register: &[u8], at: usize) -> RawLine
    requires { at + line_length ≤ length register.now }
    ensures { result ≡ line_of (drop at register.now) }
{
    let kind = fields::number_at::<1>(register, at);
    let unit = fields::number_at::<1>(register, at + 1);
    let code = fields::number_at::<2>(register, at + 2);
    let a = fields::number_at::<4>(register, at + 4);
    let b = fields::number_at::<4>(register, at + 8);
    let q = fields::number_at::<8>(register, at + 12);
    RawLine {
        kind,
        unit,
        code,
        a,
        b,
        q,
    }
}

// The sums with one line more.
fn with_line(sums: Sums, line: Line) -> Sums
    requires { Roomy 1 sums × (line.quantity ≤ most_quantity) × KindFits line.kind }
    ensures { Counts sums line result }
{
    let quantity = line.quantity;
    let kind = line.kind;
    let term = line_term::term_of(kind);
    let gas = term.gas;
    let content = term.content;
    let factor = mass_exact::scaled(gas, term.factor);
    let mut added = sums.added;
    let taken = sums.taken;
    if term.takes {
        let more = mass_exact::add(taken, quantity, content, factor);
        return Sums { added, taken: more };
    }
    // Each place is a literal, so that the sums stay in registers.
    match gas {
        0 => added[0] = mass_exact::add(added[0], quantity, content, factor),
        1 => added[1] = mass_exact::add(added[1], quantity, content, factor),
        _ => added[2] = mass_exact::add(added[2], quantity, content, factor),
    }
    Sums { added, taken }
}

// "A line that is not one of its method's kinds is refused": the lines of a source from first up to end, read and summed, or refusal 5 at the first bad one.
pub fn read_lines(
    register: &[u8],
    method: u64,
    parameter: u64,
    base: usize,
    first: usize,
    end: usize,
) -> Result<Sums, BadLine>
    requires { LinesStand register.now method parameter base first end }
    ensures { Reads register.now method parameter first end result }
{
    let mut sums = Sums {
        added: [NOTHING; GASES],
        taken: NOTHING,
    };
    for at in first..end {
        let raw = line_at(register, base + LINE_LENGTH * at);
        let Some(line) = line_kind::decode(method, parameter, raw) else {
            return Err(BadLine {
                refusal: Refusal {
                    number: 5,
                    place: at as u64,
                },
                before: sums,
            });
        };
        sums = with_line(sums, line);
    }
    Ok(sums)
}
