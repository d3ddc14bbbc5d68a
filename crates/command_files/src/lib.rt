// Whole files in, result files out, and the words of a command line: all that the programs have to do with the system.
#![tactic(auto)]

mod place;
mod result;

ghost use Rattle.std.specs.Prelude.{◌≡◌, ◌^◌, ◌<◌, IfOk, IfSome};
ghost use Rattle.std.specs.Result.{result_ok};
ghost use Rattle.decimal_read.specs.Numerals.{numeral_in};
ghost use Rattle.command_files.specs.Files.{Front, CameFrom};

use basis::Answer;
use command_answer::LINE_ROOM;
use decimal_read::numeral_in;
use input_stock_cards::LONGEST_CARDS;
use register_header::LONGEST_REGISTER;
use report_read::LONGEST_REPORT;
use std::env::FillError;
use std::fs::File;
use std::io::{Cursor, ErrorKind, Read, Write};
use std::rt::Env;
use std::{io, str};

// One byte more than the longest register: so much of a longer file is answered as the whole would be.
pub const REGISTER_ROOM: usize = LONGEST_REGISTER + 1;

// One byte more than the longest report, likewise.
pub const REPORT_ROOM: usize = LONGEST_REPORT + 1;

// One byte more than the longest file of stock cards, likewise.
pub const CARDS_ROOM: usize = LONGEST_CARDS + 1;

// The system's longest path and the 0 behind it. A word of the command line has as much room.
pub const PATH_ROOM: usize = 4096;

// The words of any error of the system, and its number behind them.
const ERROR_ROOM: usize = 128;

// Standard error is the last place where anything can be said, so that it cannot be written is said nowhere.
fn tell(rt: HostRuntime, words: &[u8]) {
    let _ = rt.stderr().write_all(words);
}

// One line on standard error, which begins with the program's name as every such line does.
pub fn complain(rt: HostRuntime, line: &[u8])
    ensures { line.now ≡ line.now }
{
    complain_of(rt, line, b"");
}

// What a line is about, as a file by its name, and what is wrong with it.
pub fn complain_of(rt: HostRuntime, what: &[u8], why: &[u8])
    ensures what_value { what.now ≡ what.now }
    ensures why_value { why.now ≡ why.now }
{
    tell(rt, b"kopristen: ");
    tell(rt, what);
    tell(rt, why);
}

// The line of a call of the system that has failed.
pub fn fail(rt: HostRuntime, what: &[u8], error: io::Error)
    ensures { what.now ≡ what.now }
{
    complain_of(rt, what, b": ");
    tell_error(rt, error);
    tell(rt, b"\n");
}

// What a call of the system came to. Where it has failed, a line on standard error says so.
fn or_fail<T: Drop>(rt: HostRuntime, what: &[u8], outcome: io::Result<T>) -> Option<T>
    ensures { result ≡ result_ok outcome }
{
    match outcome {
        Ok(value) => Some(value),
        Err(error) => {
            fail(rt, what, error);
            None
        }
    }
}

// An error in the system's words alone, without the number that std puts behind them.
fn tell_error(rt: HostRuntime, error: io::Error) {
    let mut text = Cursor::new([0u8; ERROR_ROOM]);
    let _ = write!(text, "{error}");
    let end = (text.position() as usize).min(ERROR_ROOM);
    let room = text.into_inner();
    let words = str::from_utf8(&room[..end]).unwrap_or("");
    let alone = words
        .split_once(" (os error ")
        .map_or(words, |parts| parts.0);
    tell(rt, alone.as_bytes());
}

// All that a command has to say on standard output.
pub fn say(rt: HostRuntime, text: &[u8])
    ensures { text.now ≡ text.now }
{
    or_fail(rt, b"standard output", rt.write_all(text));
}

// Bytes and the line feed behind them, on standard output.
pub fn say_line(rt: HostRuntime, text: &[u8])
    ensures { text.now ≡ text.now }
{
    or_fail(rt, b"standard output", write_line(rt, text));
}

fn write_line(rt: HostRuntime, text: &[u8]) -> io::Result<()> {
    rt.write_all(text)?;
    rt.write_all(b"\n")
}

// Reads until the input ends or the room is full. A read brings as many bytes as it likes, so this counts no index.
fn fill_room<R: Read>(reader: &mut R, room: &mut [u8]) -> io::Result<usize>
    ensures front { IfOk result (λ n. Front n room.new) }
    ensures bytes { IfOk result (λ n. CameFrom (R.remaining reader.old) (R.remaining reader.new) n room.new) }
{
    let mut at: usize = 0;
    while at < room.len() {
        let n = reader.read(&mut room[at..])?;
        if n == 0 {
            return Ok(at);
        }
        at += n;
    }
    Ok(at)
}

// Reads what has a name until it ends or the room is full. Where that fails, a line on standard error says so.
pub fn read_all<R: Read>(
    rt: HostRuntime,
    what: &[u8],
    reader: &mut R,
    room: &mut [u8],
) -> Option<usize>
    ensures within { IfSome result (λ n. Front n room.new) }
    ensures bytes { IfSome result (λ n. CameFrom (R.remaining reader.old) (R.remaining reader.new) n room.new) }
{
    or_fail(rt, what, fill_room(reader, room))
}

fn is_word(rt: HostRuntime, i: usize) -> bool {
    !matches!(rt.arg(i, &mut []), Err(FillError::NotPresent))
}

// How many words the command line has, the program's name among them.
pub fn word_count(rt: HostRuntime) -> usize
    ensures { result < 2 ^ 64 }
{
    (0..usize::MAX).take_while(|i| is_word(rt, *i)).count()
}

// Word i of the command line, whole. Where it cannot be had, a line on standard error says so.
pub fn read_word(rt: HostRuntime, i: usize, room: &mut [u8]) -> Option<usize>
    ensures { IfSome result (λ n. Front n room.new) }
{
    match rt.arg(i, room) {
        Ok(n) => Some(n),
        Err(FillError::NotPresent) => {
            complain(rt, b"a word of the command: Invalid argument\n");
            None
        }
        Err(FillError::TooLong) => {
            complain(rt, b"a word of the command: File name too long\n");
            None
        }
    }
}

// A path as std takes it, which is text.
fn path_text(path: &[u8]) -> io::Result<&str> {
    str::from_utf8(path).map_err(|_| io::Error::from(ErrorKind::InvalidFilename))
}

fn open_to_read(rt: HostRuntime, path: &[u8]) -> io::Result<File> {
    File::open(&rt, path_text(path)?)
}

fn read_path(rt: HostRuntime, path: &[u8], room: &mut [u8]) -> Option<usize>
    ensures { IfSome result (λ n. Front n room.new) }
{
    let mut file = or_fail(rt, path, open_to_read(rt, path))?;
    read_all(rt, path, &mut file, room)
}

// Word i, which names a file. Where it cannot be had or is empty, a line on standard error says so.
fn read_file_name(rt: HostRuntime, i: usize, room: &mut [u8]) -> Option<usize>
    ensures { IfSome result (λ n. Front n room.new) }
{
    let n = read_word(rt, i, room)?;
    if n == 0 {
        complain(rt, b"a file name of the command is empty\n");
        return None;
    }
    Some(n)
}

// The file that word i names. Where it cannot be read, a line on standard error says so.
pub fn read_file(rt: HostRuntime, i: usize, room: &mut [u8]) -> Option<usize>
    ensures { IfSome result (λ n. Front n room.new) }
{
    let mut path = [0u8; PATH_ROOM];
    let n = read_file_name(rt, i, &mut path)?;
    read_path(rt, &path[..n], room)
}

// The number that a word says. Where it is none, a line on standard error says so.
pub fn number_said(rt: HostRuntime, word: &[u8]) -> Option<u32>
    ensures { result ≡ numeral_in word.now }
{
    let numeral = numeral_in(word);
    if numeral.is_none() {
        complain_of(rt, word, b": no number from 0 to 4294967295\n");
    }
    numeral
}

// The file that word i names is made. Where it cannot be, a line on standard error says so, and what stood there stays.
fn store_file(rt: HostRuntime, i: usize, bytes: &[u8]) -> Option<()> {
    let mut path = [0u8; PATH_ROOM];
    let n = read_file_name(rt, i, &mut path)?;
    let m = place::follow_links(rt, &mut path, n)?;
    let place = place::judge_place(rt, &path[..m])?;
    result::store(rt, &path[..m], place, bytes)
}

// Ends a command that makes a file, with what it says. An acceptance is said when the result, which word i names, is in its place.
pub fn deliver_saying(rt: HostRuntime, answer: Answer, made: &[u8], i: usize, text: &[u8])
    requires { Front answer.length made.now }
    ensures { made.now ≡ made.now }
{
    if answer.number == 0 {
        let n = answer.length as usize;
        if store_file(rt, i, &made[..n]).is_none() {
            return;
        }
    }
    say(rt, text);
}

// Ends a command that makes a report: it says the answer.
pub fn deliver(rt: HostRuntime, answer: Answer, report: &[u8], i: usize)
    requires { Front answer.length report.now }
    ensures { report.now ≡ report.now }
{
    let mut line = [0u8; LINE_ROOM];
    let n = command_answer::answer_line(answer, &mut line);
    deliver_saying(rt, answer, report, i, &line[..n]);
}
