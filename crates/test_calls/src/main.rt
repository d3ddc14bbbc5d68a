// Answers the calls of a file, one after another, and writes of each its answer and what its buffer then holds. What it has to write was
// written by the reference (`host/reference`), whose `cases::file` has the layout of a record and of the output.
#![tactic(auto)]

use basis::Answer;
use meaning::{Found, Part};
use register_header::LONGEST_REGISTER;
use std::fs::File;
use std::io::{ErrorKind, Read};
use std::{fmt, io, str};

// A record is a header, then the first input of its call, then the second.
const RECORD_HEADER: usize = 64;

const NAME_AT: usize = 20;

// One byte more than the longest register: as long as an input or a buffer may be.
const INPUT_ROOM: usize = LONGEST_REGISTER + 1;

const BYTES_A_LINE: usize = 8;

// The numbers of an answer, two or three, and how many bytes at the front of the buffer are text.
#[derive(Clone, Copy)]
struct Reply {
    first: u64,
    second: u64,
    third: Option<u64>,
    text: usize,
}

impl fmt::Display for Reply {
    fn fmt<W: fmt::Write>(&self, f: &mut fmt::Formatter<W>) -> fmt::Result {
        write!(f, "{} {}", self.first, self.second)?;
        match self.third {
            Some(third) => write!(f, " {third}"),
            None => Ok(()),
        }
    }
}

// The last hexadecimal digit of a number.
fn digit(n: u8) -> u8 {
    let last = n % 16;
    if last < 10 {
        b'0' + last
    } else {
        b'a' - 10 + last
    }
}

// Bytes in lines of eight, two hexadecimal digits each. A line is handed on whole: with a number formatted for each byte the program took twice the time.
#[derive(Clone, Copy)]
struct Lines<'a>(&'a [u8]);

impl<'a> fmt::Display for Lines<'a> {
    fn fmt<W: fmt::Write>(&self, f: &mut fmt::Formatter<W>) -> fmt::Result {
        for bytes in self.0.chunks(BYTES_A_LINE) {
            let mut line = [b'\n'; 2 * BYTES_A_LINE + 1];
            for (pair, byte) in line.chunks_exact_mut(2).zip(bytes) {
                pair[0] = digit(*byte / 16);
                pair[1] = digit(*byte);
            }
            let (digits, _) = line.split_at(2 * bytes.len().min(BYTES_A_LINE) + 1);
            f.write_str(str::from_utf8(digits).unwrap_or(""))?;
        }
        Ok(())
    }
}

impl From<Answer> for Reply {
    fn from(answer: Answer) -> Reply {
        Reply {
            first: answer.number as u64,
            second: answer.place,
            third: Some(answer.length),
            text: 0,
        }
    }
}

impl From<Part> for Reply {
    fn from(name: Part) -> Reply {
        Reply {
            first: name.offset,
            second: name.length,
            third: None,
            text: 0,
        }
    }
}

impl From<Found> for Reply {
    fn from(name: Found) -> Reply {
        Reply {
            first: name.which as u64,
            second: name.offset,
            third: Some(name.length),
            text: 0,
        }
    }
}

// The answer of a call that writes text.
fn texted(answer: Answer) -> Reply {
    Reply {
        text: answer.length as usize,
        ..answer.into()
    }
}

// The call that a record's first byte names.
fn make_call(call: u64, first: &[u8], second: &[u8], number: u32, buffer: &mut [u8]) -> Reply {
    match call {
        1 => kopristen::kopristen_calculate(first, buffer).into(),
        2 => kopristen::kopristen_combine(first, second, buffer).into(),
        3 => kopristen::kopristen_remove(first, number, buffer).into(),
        4 => kopristen::kopristen_check(first).into(),
        5 => texted(kopristen::kopristen_text(first, buffer)),
        6 => kopristen::kopristen_name(first, number).into(),
        7 => kopristen::kopristen_name_of_two(first, second, number).into(),
        _ => kopristen::kopristen_amounts(first, buffer).into(),
    }
}

// A record that asks for more than there is, or a reply that cannot be right.
fn bad_call() -> io::Error {
    io::Error::from(ErrorKind::InvalidData)
}

// The name of a record and the numbers of its answer; then the buffer, as text where it was written as text, and else in lines of eight bytes. A length
// that is longer than the buffer would be a fault of the call, and nothing is written of it.
fn write_reply(rt: HostRuntime, name: &[u8], reply: Reply, buffer: &[u8]) -> io::Result<()> {
    let Some((text, bytes)) = buffer.split_at_checked(reply.text) else {
        return Err(bad_call());
    };
    rt.write_all(name)?;
    println!(rt; " {reply}")?;
    rt.write_all(text)?;
    print!(rt; "{}", Lines(bytes))
}

// Reads the inputs of a record, which fill what is lent for them, makes its call and writes what came of it.
fn answer_call(
    rt: HostRuntime,
    file: &mut File,
    header: &[u8; RECORD_HEADER],
    first: &mut [u8],
    second: &mut [u8],
    buffer: &mut [u8],
) -> io::Result<()> {
    file.read_exact(first)?;
    file.read_exact(second)?;
    buffer.fill(header[1]);
    let call = fields::number_at::<1>(header, 0);
    let number = fields::number_at::<4>(header, 4) as u32;
    let reply = make_call(call, first, second, number, buffer);
    write_reply(rt, &header[NAME_AT..], reply, buffer)
}

// Lends a record's call as much room as the record asks for.
fn answer_record(
    rt: HostRuntime,
    file: &mut File,
    header: &[u8; RECORD_HEADER],
    first: &mut [u8],
    second: &mut [u8],
    buffer: &mut [u8],
) -> io::Result<()> {
    let room = fields::number_at::<4>(header, 8) as usize;
    let one = fields::number_at::<4>(header, 12) as usize;
    let other = fields::number_at::<4>(header, 16) as usize;
    if first.len() < one || second.len() < other || buffer.len() < room {
        return Err(bad_call());
    }
    answer_call(
        rt,
        file,
        header,
        &mut first[..one],
        &mut second[..other],
        &mut buffer[..room],
    )
}

// The header of the next record, or that there is none: the file has ended or cannot be read on.
fn read_header(file: &mut File) -> io::Result<Option<[u8; RECORD_HEADER]>> {
    let mut header = [0u8; RECORD_HEADER];
    let n = file.read(&mut header).unwrap_or(0);
    if n == 0 {
        return Ok(None);
    }
    file.read_exact(&mut header[n..])?;
    Ok(Some(header))
}

// A proved loop has to end, and a file need not, so the loop has more turns than any file has records.
fn answer_all(rt: HostRuntime, file: &mut File) -> io::Result<()> {
    let mut first = [0u8; INPUT_ROOM];
    let mut second = [0u8; INPUT_ROOM];
    let mut buffer = [0u8; INPUT_ROOM];
    for _ in 0..u64::MAX {
        let Some(header) = read_header(file)? else {
            return Ok(());
        };
        answer_record(rt, file, &header, &mut first, &mut second, &mut buffer)?;
    }
    Ok(())
}

fn complain(rt: HostRuntime, line: &str) {
    let _ = eprintln!(rt; "{line}");
}

fn main(rt: HostRuntime) {
    let Ok(mut file) = File::open(&rt, "calls") else {
        complain(rt, "the file of calls cannot be opened");
        return;
    };
    if answer_all(rt, &mut file).is_err() {
        complain(rt, "a call cannot be read, or its reply cannot be written");
    }
}
