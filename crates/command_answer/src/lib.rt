// What a program says of an answer: the text of a report, the decimals of amounts, or the line of an acceptance or a refusal.
#![tactic(auto)]

ghost use Rattle.std.specs.Prelude.{◌*◌, ◌/◌, ◌≤◌, length};
ghost use Rattle.meaning.specs.Text.{refused_line, accepted_line};
ghost use Rattle.meaning.specs.Cards.{amount_length};
ghost use Rattle.meaning.specs.Programs.{answer_line, text_output, amount_lines};
ghost use Rattle.decimal_write.specs.Digits.{Fronted};

use basis::Answer;
use decimal_write::put_field_at;
use input_stock_cards::AMOUNT_LENGTH;

// "refused" with its space, and two numbers of at most twenty digits, each with the byte behind it.
pub const LINE_ROOM: usize = 50;

// A number of 64 bits has at most twenty digits, and a line feed behind it.
pub const NUMBER_ROOM: usize = 21;

// The word `accepted` and the length. Answers how long the line is.
fn accepted_line(accepted: u64, line: &mut [u8; LINE_ROOM]) -> usize
    ensures { Fronted line.old (accepted_line accepted) line.new result }
{
    fields::put_bytes(line, 0, b"accepted ");
    put_field_at(line, 9, accepted, b'\n')
}

// "A refusal is the line `refused`, number, place": two numbers of at most twenty digits always fit. Answers how long the line is.
pub fn put_refusal(number: u32, place: u64, output: &mut [u8]) -> usize
    requires { 50 ≤ length output.old }
    ensures { Fronted output.old (refused_line number place) output.new result }
{
    fields::put_bytes(output, 0, b"refused ");
    let at = put_field_at(output, 8, number as u64, b' ');
    put_field_at(output, at, place, b'\n')
}

// The line of an answer.
pub fn answer_line(answer: Answer, line: &mut [u8; LINE_ROOM]) -> usize
    ensures { Fronted line.old (answer_line answer) line.new result }
{
    if answer.number == 0 {
        accepted_line(answer.length, line)
    } else {
        put_refusal(answer.number, answer.place, line)
    }
}

// The text of a report, or the line of its refusal.
pub fn put_text_or_refusal(report: &[u8], output: &mut [u8]) -> usize
    requires { 50 ≤ length output.old }
    ensures { Fronted output.old (text_output report.now output.old) output.new result }
{
    let answer = report_text::text(report, output);
    if answer.number == 0 {
        answer.length as usize
    } else {
        put_refusal(answer.number, answer.place, output)
    }
}

// One decimal a line, of amounts of eight bytes each.
pub fn put_amounts(amounts: &[u8], output: &mut [u8]) -> usize
    requires { 21 * (length amounts.now / amount_length) ≤ length output.old }
    ensures { Fronted output.old (amount_lines amounts.now) output.new result }
{
    let mut at = 0;
    for amount in amounts.chunks_exact(AMOUNT_LENGTH) {
        at = put_field_at(output, at, fields::number_at::<8>(amount, 0), b'\n');
    }
    at
}
