// `remove REPORT NUMBER RESULT`: a report without the entry of a number, made in a file.
#![tactic(auto)]

use command_files::{PATH_ROOM, REPORT_ROOM};

fn remove(rt: HostRuntime, report: &[u8], number: u32) {
    let mut result = [0u8; REPORT_ROOM];
    let answer = report_remove::remove(report, number, &mut result);
    command_files::deliver(rt, answer, &result, 3);
}

// What cannot be read has had its line on standard error, and ends the command.
fn run(rt: HostRuntime) -> Option<()> {
    let mut word = [0u8; PATH_ROOM];
    let k = command_files::read_word(rt, 2, &mut word)?;
    let number = command_files::number_said(rt, &word[..k])?;
    let mut report = [0u8; REPORT_ROOM];
    let n = command_files::read_file(rt, 1, &mut report)?;
    remove(rt, &report[..n], number);
    Some(())
}

fn main(rt: HostRuntime) {
    if command_files::word_count(rt) != 4 {
        command_files::complain(rt, b"use: remove REPORT NUMBER RESULT\n");
        return;
    }
    run(rt);
}
