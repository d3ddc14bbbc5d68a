// `name NUMBER REGISTER [REGISTER]`: the name of a source, in a plant's register or in either of the plant's and its contractor's. An empty
// line says that there is none.
#![tactic(auto)]

use command_files::{PATH_ROOM, REGISTER_ROOM};

fn name_in_one(rt: HostRuntime, number: u32) -> Option<()> {
    let mut register = [0u8; REGISTER_ROOM];
    let n = command_files::read_file(rt, 2, &mut register)?;
    command_files::say_line(rt, register_name::name_of(&register[..n], number));
    Some(())
}

fn name_in_either(rt: HostRuntime, number: u32) -> Option<()> {
    let mut plant = [0u8; REGISTER_ROOM];
    let n = command_files::read_file(rt, 2, &mut plant)?;
    let mut contractor = [0u8; REGISTER_ROOM];
    let m = command_files::read_file(rt, 3, &mut contractor)?;
    command_files::say_line(
        rt,
        register_name::name_of_either(&plant[..n], &contractor[..m], number),
    );
    Some(())
}

// What cannot be read has had its line on standard error, and ends the command.
fn run(rt: HostRuntime, words: usize) -> Option<()> {
    let mut word = [0u8; PATH_ROOM];
    let k = command_files::read_word(rt, 1, &mut word)?;
    let number = command_files::number_said(rt, &word[..k])?;
    if words == 3 {
        name_in_one(rt, number)
    } else {
        name_in_either(rt, number)
    }
}

fn main(rt: HostRuntime) {
    let words = command_files::word_count(rt);
    if words < 3 || 4 < words {
        command_files::complain(rt, b"use: name NUMBER REGISTER [REGISTER]\n");
        return;
    }
    run(rt, words);
}
