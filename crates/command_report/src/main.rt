// Document 01: "The report program reads a register on standard input". What it writes is the text of the register's report, or the line
// of a refusal.
#![tactic(auto)]

ghost use Rattle.std.specs.Prelude.{◌≤◌, length};
ghost use Rattle.meaning.specs.Programs;
ghost use Rattle.decimal_write.specs.Digits.{Fronted};

use command_files::{REGISTER_ROOM, REPORT_ROOM};
use report_text::TEXT_ROOM;

// All that the program says of a register, put to the front of the output's room.
fn put_output(register: &[u8], output: &mut [u8]) -> usize
    requires { 50 ≤ length output.old }
    ensures { Fronted output.old (Programs.output register.now output.old) output.new result }
{
    let mut report = [0u8; REPORT_ROOM];
    let answer = calculation::calculate(register, &mut report);
    if answer.number == 0 {
        let n = answer.length as usize;
        command_answer::put_text_or_refusal(&report[..n], output)
    } else {
        command_answer::put_refusal(answer.number, answer.place, output)
    }
}

fn say_output(rt: HostRuntime, register: &[u8]) {
    let mut output = [0u8; TEXT_ROOM];
    let n = put_output(register, &mut output);
    command_files::say(rt, &output[..n]);
}

// What cannot be read has had its line on standard error, and ends the command.
fn run(rt: HostRuntime) -> Option<()> {
    let mut register = [0u8; REGISTER_ROOM];
    let n = command_files::read_all(rt, b"standard input", &mut rt.stdin(), &mut register)?;
    say_output(rt, &register[..n]);
    Some(())
}

fn main(rt: HostRuntime) {
    run(rt);
}
