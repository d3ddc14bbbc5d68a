// `calculate REGISTER REPORT`: the report of a register, made in a file.
#![tactic(auto)]

use command_files::{REGISTER_ROOM, REPORT_ROOM};

fn calculate(rt: HostRuntime, register: &[u8]) {
    let mut report = [0u8; REPORT_ROOM];
    let answer = calculation::calculate(register, &mut report);
    command_files::deliver(rt, answer, &report, 2);
}

// What cannot be read has had its line on standard error, and ends the command.
fn run(rt: HostRuntime) -> Option<()> {
    let mut register = [0u8; REGISTER_ROOM];
    let n = command_files::read_file(rt, 1, &mut register)?;
    calculate(rt, &register[..n]);
    Some(())
}

fn main(rt: HostRuntime) {
    if command_files::word_count(rt) != 3 {
        command_files::complain(rt, b"use: calculate REGISTER REPORT\n");
        return;
    }
    run(rt);
}
