// Document 01, "Refusal numbers": tests and their answers, each in the words of the meaning.
#![tactic(auto)]

ghost use Rattle.std.specs.Prelude.{◌≡◌, ltb};
ghost use Rattle.basis.specs.Answers.{refuse_if, answered};

use basis::{Answer, Refusal};

// "Acceptance is 0, place 0 and the report's length"; "A refusal has length 0"
pub fn answer_of(made: Result<u64, Refusal>) -> Answer
    ensures { result ≡ answered made }
{
    match made {
        Ok(length) => Answer {
            number: 0,
            place: 0,
            length,
        },
        Err(refusal) => Answer {
            number: refusal.number,
            place: refusal.place,
            length: 0,
        },
    }
}

// A test: it refuses where something is wrong.
pub fn refuse_if(wrong: bool, number: u32, place: u64) -> Result<(), Refusal>
    ensures { result ≡ refuse_if wrong number place }
{
    if wrong {
        return Err(Refusal { number, place });
    }
    Ok(())
}

// "8 | report buffer too short | length needed"
pub fn test_room(room: usize, needed: usize) -> Result<(), Refusal>
    ensures { result ≡ refuse_if (ltb room needed) 8 needed }
{
    refuse_if(room < needed, 8, needed as u64)
}
