// `amounts CARDS RESULT`: the amounts of stock cards, made in a file and said as decimals.
#![tactic(auto)]

ghost use Rattle.std.specs.Prelude.{◌*◌, ◌/◌, ◌≤◌, length};
ghost use Rattle.basis.specs.Answers.{Gives};
ghost use Rattle.meaning.specs.Cards.{amount_length};
ghost use Rattle.meaning.specs.Calls;
ghost use Rattle.meaning.specs.Programs.{amounts_output};
ghost use Rattle.decimal_write.specs.Digits.{Fronted};

use basis::Answer;
use command_answer::NUMBER_ROOM;
use command_files::CARDS_ROOM;
use input_stock_cards::{AMOUNT_LENGTH, LONGEST_AMOUNTS};

// A line for each amount.
const OUTPUT_ROOM: usize = NUMBER_ROOM * (LONGEST_AMOUNTS / AMOUNT_LENGTH);

// An answer, and how many bytes are said of it.
#[derive(Clone, Copy)]
struct Said {
    answer: Answer,
    length: usize,
}

// The amounts, and all that the program says of them, put to the front of the output's room.
fn put_output(cards: &[u8], amounts: &mut [u8], output: &mut [u8]) -> Said
    requires { (50 ≤ length output.old) × (21 * (length amounts.old / amount_length) ≤ length output.old) }
    ensures gives { Gives (Calls.amounts cards.now amounts.old) result.answer amounts.new }
    ensures fronted { Fronted output.old (amounts_output cards.now amounts.old) output.new result.length }
{
    let answer = input_stock_cards::amounts(cards, amounts);
    let n = answer.length as usize;
    let length = if answer.number == 0 {
        command_answer::put_amounts(&amounts[..n], output)
    } else {
        command_answer::put_refusal(answer.number, answer.place, output)
    };
    Said { answer, length }
}

fn work_out(rt: HostRuntime, cards: &[u8]) {
    let mut amounts = [0u8; LONGEST_AMOUNTS];
    let mut output = [0u8; OUTPUT_ROOM];
    let said = put_output(cards, &mut amounts, &mut output);
    let n = said.length;
    command_files::deliver_saying(rt, said.answer, &amounts, 2, &output[..n]);
}

// What cannot be read has had its line on standard error, and ends the command.
fn run(rt: HostRuntime) -> Option<()> {
    let mut cards = [0u8; CARDS_ROOM];
    let n = command_files::read_file(rt, 1, &mut cards)?;
    work_out(rt, &cards[..n]);
    Some(())
}

fn main(rt: HostRuntime) {
    if command_files::word_count(rt) != 3 {
        command_files::complain(rt, b"use: amounts CARDS RESULT\n");
        return;
    }
    run(rt);
}
