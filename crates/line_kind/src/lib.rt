// Document 01, "Methods and their lines": a line read to its kind.
#![tactic(auto)]

ghost use Rattle.std.specs.Prelude.{true, ◌≡◌, None};
ghost use Rattle.meaning.specs.Methods.{listed, carbonates, acids, balanced, most_content, in_range, given, fuel, flare, metals, petrochemical, cement, nitric_acid, by_method, decoded};
ghost use Rattle.line_kind.specs.Ranges.{TableEntry, InRanges, KindFits, DecodedFits, carbon_factor, most_acid};

use meaning::{Kind, Line, RawLine};

// The whole of a share, in ten-thousandths.
pub const WHOLE: u64 = 10000;

// The carbonates' factors by code, and the acids' by parameter. No carbonate has code 0 and no plant parameter 0.
const CARBONATES: [u64; 5] = [0, 440, 522, 477, 380];

const ACIDS: [u64; 7] = [0, 20000, 25000, 50000, 75000, 90000, 5];

fn carbonate_factor(code: u64) -> u64
    ensures { TableEntry carbonates 0 carbon_factor code result }
{
    if code < 5 {
        return CARBONATES[code as usize];
    }
    0
}

fn acid_factor(parameter: u64) -> u64
    ensures { TableEntry acids 0 most_acid parameter result }
{
    if parameter < 7 {
        return ACIDS[parameter as usize];
    }
    0
}

// A line of the kind where the test holds, and else a bad one.
fn line_if(line: RawLine, holds: bool, kind: Kind) -> Option<Line>
    requires { InRanges line × KindFits kind }
    ensures { (result ≡ given holds line kind None) × DecodedFits result }
{
    holds.then_some(Line {
        quantity: line.q,
        kind,
    })
}

fn decode_fuel(line: RawLine) -> Option<Line>
    requires { InRanges line }
    ensures { (result ≡ fuel line) × DecodedFits result }
{
    let any_unit = (1 <= line.unit) & (line.unit <= 4);
    let burned = (line.code == 3) | (1 <= line.code) & (line.code <= 2) & (line.b == WHOLE);
    line_if(
        line,
        (line.kind == 1) & any_unit & burned,
        Kind::Fuel {
            carbon: line.a,
            oxidised: line.b,
        },
    )
}

fn decode_flare(line: RawLine) -> Option<Line>
    requires { InRanges line }
    ensures { (result ≡ flare line) × DecodedFits result }
{
    let kind = line.kind;
    let content = line.a;
    let unburned = line.b;
    let fits = (1 <= line.unit) & (line.unit <= 2) & (line.code == 0);
    let carbon = Kind::FlareCarbon {
        carbon: content,
        unburned,
    };
    let methane = Kind::FlareMethane {
        methane: content,
        unburned,
    };
    match kind {
        1 => line_if(line, fits, carbon),
        2 => line_if(line, fits, methane),
        _ => None,
    }
}

// What the carbon balances of methods 3 and 4 ask of each line: any unit, code 0, B whole.
fn is_balanced(line: RawLine) -> bool
    ensures { result ≡ balanced line }
{
    (1 <= line.unit) & (line.unit <= 4) & (line.code == 0) & (line.b == WHOLE)
}

fn decode_metals(line: RawLine) -> Option<Line>
    requires { InRanges line }
    ensures { (result ≡ metals line) × DecodedFits result }
{
    let kind = line.kind;
    let carbon = line.a;
    let fits = is_balanced(line);
    match kind {
        10 => line_if(line, fits, Kind::MetalIn { carbon }),
        11 => line_if(line, fits, Kind::MetalOut { carbon }),
        12 => line_if(line, fits, Kind::OpeningStock { carbon }),
        13 => line_if(line, fits, Kind::ClosingStock { carbon }),
        _ => None,
    }
}

fn decode_petrochemical(parameter: u64, line: RawLine) -> Option<Line>
    requires { InRanges line }
    ensures { (result ≡ petrochemical parameter line) × DecodedFits result }
{
    let kind = line.kind;
    let carbon = line.a;
    let fits = is_balanced(line);
    let by_product = fits & ((parameter == 2) | (parameter == 5));
    match kind {
        10 => line_if(line, fits, Kind::Feed { carbon }),
        11 => line_if(line, fits, Kind::Product { carbon }),
        14 => line_if(line, by_product, Kind::ByProduct { carbon }),
        _ => None,
    }
}

fn decode_cement(line: RawLine) -> Option<Line>
    requires { InRanges line }
    ensures { (result ≡ cement line) × DecodedFits result }
{
    let kind = line.kind;
    let share = line.a;
    let calcined = line.b;
    let listed = (1 <= line.code) & (line.code <= 4);
    match kind {
        20 => {
            let factor = carbonate_factor(line.code);
            let charged = Kind::CarbonateCharged {
                share,
                factor,
                calcined,
            };
            line_if(line, (line.unit == 1) & listed, charged)
        }
        21 => {
            let factor = carbonate_factor(line.code);
            let dust = Kind::KilnDust {
                share,
                factor,
                calcined,
            };
            line_if(line, (line.unit == 1) & listed, dust)
        }
        22 => {
            let fits = (line.unit == 1) & (line.code == 0) & (line.b == WHOLE);
            line_if(line, fits, Kind::OtherCarbon { carbon: line.a })
        }
        _ => None,
    }
}

fn decode_nitric_acid(parameter: u64, line: RawLine) -> Option<Line>
    requires { InRanges line }
    ensures { (result ≡ nitric_acid parameter line) × DecodedFits result }
{
    let made = (line.kind == 30)
        & (line.unit == 1)
        & (line.code == 0)
        & (line.a == 0)
        & (line.b == 0);
    let factor = acid_factor(parameter);
    line_if(line, made, Kind::NitricAcid { factor })
}

fn decode_by_method(method: u64, parameter: u64, line: RawLine) -> Option<Line>
    requires { InRanges line }
    ensures { (result ≡ by_method method parameter line) × DecodedFits result }
{
    match method {
        1 => decode_fuel(line),
        2 => decode_flare(line),
        3 => decode_metals(line),
        4 => decode_petrochemical(parameter, line),
        5 => decode_cement(line),
        6 => decode_nitric_acid(parameter, line),
        _ => None,
    }
}

// The largest A of a unit.
fn most_content(unit: u64) -> u64
    ensures { result ≡ most_content unit }
{
    if unit == 1 {
        return 1000000;
    }
    99999999
}

fn is_in_range(line: RawLine) -> bool
    ensures { result ≡ in_range line }
{
    let most = most_content(line.unit);
    (line.q <= 10000000000) & (line.a <= most) & (line.b <= WHOLE)
}

// A raw line of a method and parameter that are listed, read to its kind, or bad.
pub fn decode(method: u64, parameter: u64, line: RawLine) -> Option<Line>
    requires { listed method parameter ≡ true }
    ensures { (result ≡ decoded method parameter line) × DecodedFits result }
{
    if is_in_range(line) {
        return decode_by_method(method, parameter, line);
    }
    None
}
