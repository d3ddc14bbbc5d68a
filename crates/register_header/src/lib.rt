// Document 01, "The register": where its parts and its header's fields stand, what the header states, and test 2, which asks it field by field.
#![tactic(auto)]

ghost use Rattle.std.specs.Prelude.{◌≡◌, ◌≤◌, length, drop};
ghost use Rattle.basis.specs.Answers.{refuse_if, first_refusal};
ghost use Rattle.basis.specs.Bytes.{starts_with};
ghost use Rattle.meaning.specs.Register.{register_tag, sources_at, year_of, source_count, line_count, name_bytes, lines_at, names_at, header_tests};
ghost use Rattle.register_header.specs.Header.{CountsRead, Headed};

use answer::refuse_if;
use basis::Refusal;

// "layout | 1"
const LAYOUT: u64 = 1;

// Where the sources begin, and the lengths of a source entry and of a line.
pub const SOURCES_AT: usize = 32;

pub const SOURCE_LENGTH: usize = 16;

pub const LINE_LENGTH: usize = 20;

// As many sources, lines and name bytes as a register may have.
pub const MOST_SOURCES: usize = 512;

const MOST_LINES: usize = 1024;

const MOST_NAME_BYTES: usize = 16384;

pub const LONGEST_REGISTER: usize = SOURCES_AT
    + SOURCE_LENGTH * MOST_SOURCES
    + LINE_LENGTH * MOST_LINES
    + MOST_NAME_BYTES;

// Where the fields of the header stand.
const TAG_AT: usize = 0;

const LAYOUT_AT: usize = 4;

const YEAR_AT: usize = 6;

const SOURCE_COUNT_AT: usize = 8;

const LINE_COUNT_AT: usize = 10;

const NAME_BYTE_COUNT_AT: usize = 12;

const SOURCES_OFFSET_AT: usize = 16;

const LINES_OFFSET_AT: usize = 20;

const NAMES_OFFSET_AT: usize = 24;

const WHOLE_LENGTH_AT: usize = 28;

// What the header states: the year, and how many sources, lines and name bytes there are.
pub fn register_year(register: &[u8]) -> u64
    requires { sources_at ≤ length register.now }
    ensures { result ≡ year_of register.now }
{
    fields::number_at::<2>(register, YEAR_AT)
}

pub fn source_count(register: &[u8]) -> usize
    requires { sources_at ≤ length register.now }
    ensures { result ≡ source_count register.now }
{
    fields::number_at::<2>(register, SOURCE_COUNT_AT) as usize
}

pub fn line_count(register: &[u8]) -> usize
    requires { sources_at ≤ length register.now }
    ensures { result ≡ line_count register.now }
{
    fields::number_at::<2>(register, LINE_COUNT_AT) as usize
}

pub fn name_byte_count(register: &[u8]) -> usize
    requires { sources_at ≤ length register.now }
    ensures { result ≡ name_bytes register.now }
{
    fields::number_at::<4>(register, NAME_BYTE_COUNT_AT) as usize
}

// Where the lines begin, behind the sources, and the names, behind the lines.
pub fn lines_at(register: &[u8]) -> usize
    requires { Headed register.now }
    ensures { result ≡ lines_at (source_count register.now) }
{
    SOURCES_AT + SOURCE_LENGTH * source_count(register)
}

pub fn names_at(register: &[u8]) -> usize
    requires { Headed register.now }
    ensures { result ≡ names_at (source_count register.now) (line_count register.now) }
{
    lines_at(register) + LINE_LENGTH * line_count(register)
}

// "0-3 | tag | "GREG""
pub fn is_tagged(bytes: &[u8]) -> bool
    requires { 4 ≤ length bytes.now }
    ensures { result ≡ starts_with register_tag bytes.now }
{
    fields::starts_with(bytes, b"GREG")
}

// "2 | a header field is wrong | its first byte"
fn test_field(wrong: bool, place: usize) -> Result<(), Refusal>
    ensures { result ≡ refuse_if wrong 2 place }
{
    refuse_if(wrong, 2, place as u64)
}

// The offsets and the whole length, which go by n sources, m lines and t name bytes. Each field is read once those before it are right.
fn test_offsets(register: &[u8], n: usize, m: usize, t: usize) -> Result<(), Refusal>
    requires { CountsRead register.now n m t }
    ensures { result ≡ first_refusal (drop 6 (header_tests register.now)) }
{
    let lines = SOURCES_AT + SOURCE_LENGTH * n;
    let names = lines + LINE_LENGTH * m;
    let whole = names + t;
    let sources_stated = fields::number_at::<4>(register, SOURCES_OFFSET_AT) as usize;
    test_field(sources_stated != SOURCES_AT, SOURCES_OFFSET_AT)?;
    let lines_stated = fields::number_at::<4>(register, LINES_OFFSET_AT) as usize;
    test_field(lines_stated != lines, LINES_OFFSET_AT)?;
    let names_stated = fields::number_at::<4>(register, NAMES_OFFSET_AT) as usize;
    test_field(names_stated != names, NAMES_OFFSET_AT)?;
    let stated = fields::number_at::<4>(register, WHOLE_LENGTH_AT) as usize;
    test_field(
        (stated != whole) | (register.len() != whole),
        WHOLE_LENGTH_AT,
    )
}

fn test_counts(register: &[u8]) -> Result<(), Refusal>
    requires { sources_at ≤ length register.now }
    ensures { result ≡ first_refusal (drop 3 (header_tests register.now)) }
{
    let n = source_count(register);
    test_field(MOST_SOURCES < n, SOURCE_COUNT_AT)?;
    let m = line_count(register);
    test_field(MOST_LINES < m, LINE_COUNT_AT)?;
    let t = name_byte_count(register);
    test_field(MOST_NAME_BYTES < t, NAME_BYTE_COUNT_AT)?;
    test_offsets(register, n, m, t)
}

// "2 by field"
pub fn test_header(register: &[u8]) -> Result<(), Refusal>
    requires { sources_at ≤ length register.now }
    ensures { result ≡ first_refusal (header_tests register.now) }
{
    test_field(!is_tagged(register), TAG_AT)?;
    let layout = fields::number_at::<2>(register, LAYOUT_AT);
    test_field(layout != LAYOUT, LAYOUT_AT)?;
    let year = register_year(register);
    test_field(!((1990 <= year) & (year <= 2100)), YEAR_AT)?;
    test_counts(register)
}
