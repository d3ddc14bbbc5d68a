// `combine FIRST SECOND REPORT`: the report of all entries of two reports, made in a file.
#![tactic(auto)]

use command_files::REPORT_ROOM;

fn combine(rt: HostRuntime, first: &[u8], second: &[u8]) {
    let mut report = [0u8; REPORT_ROOM];
    let answer = report_combine::combine(first, second, &mut report);
    command_files::deliver(rt, answer, &report, 3);
}

// What cannot be read has had its line on standard error, and ends the command.
fn run(rt: HostRuntime) -> Option<()> {
    let mut first = [0u8; REPORT_ROOM];
    let n = command_files::read_file(rt, 1, &mut first)?;
    let mut second = [0u8; REPORT_ROOM];
    let m = command_files::read_file(rt, 2, &mut second)?;
    combine(rt, &first[..n], &second[..m]);
    Some(())
}

fn main(rt: HostRuntime) {
    if command_files::word_count(rt) != 4 {
        command_files::complain(rt, b"use: combine FIRST SECOND REPORT\n");
        return;
    }
    run(rt);
}
