// `show REPORT`: the text of a report, or its refusal.
#![tactic(auto)]

use command_files::REPORT_ROOM;
use report_text::TEXT_ROOM;

fn show(rt: HostRuntime, report: &[u8]) {
    let mut output = [0u8; TEXT_ROOM];
    let n = command_answer::put_text_or_refusal(report, &mut output);
    command_files::say(rt, &output[..n]);
}

// What cannot be read has had its line on standard error, and ends the command.
fn run(rt: HostRuntime) -> Option<()> {
    let mut report = [0u8; REPORT_ROOM];
    let n = command_files::read_file(rt, 1, &mut report)?;
    show(rt, &report[..n]);
    Some(())
}

fn main(rt: HostRuntime) {
    if command_files::word_count(rt) != 2 {
        command_files::complain(rt, b"use: show REPORT\n");
        return;
    }
    run(rt);
}
