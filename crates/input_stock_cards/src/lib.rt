// Document 02, "Amounts from stock cards": consumption by formula 1 of source 000, card by card.
#![tactic(auto)]

ghost use Rattle.std.specs.Prelude.{Err, ◌≡◌, ◌+◌, ◌*◌, ◌<◌, ◌≤◌, [], length, replicate};
ghost use Rattle.basis.specs.Answers.{first_refusal, Gives, answered};
ghost use Rattle.basis.specs.Bytes.{packed, Written};
ghost use Rattle.basis.specs.First.{first};
ghost use Rattle.meaning.specs.Cards.{card_length, card_count, card_at, most_entry, wrong_entries, cards_test, card_tests, amount_length};
ghost use Rattle.meaning.specs.Calls.{written};
ghost use Rattle.meaning.specs.Calls;
ghost use Rattle.input_stock_cards.specs.Worked.{Whole, entry_wrong_at, wrong, wrong_at, IsFirst, Tells, WorkedCard, WorkedOut};

use answer::answer_of;
use basis::{Answer, Refusal};

// "cards of four entries": "Entries are 8-byte numbers in that order", received, dispatched, opening, closing
const RECEIVED_AT: usize = 0;

const DISPATCHED_AT: usize = 8;

const OPENING_AT: usize = 16;

const CLOSING_AT: usize = 24;

const CARD_LENGTH: usize = 32;

// "Up to 1,024 cards"
const MOST_CARDS: usize = 1024;

// Cards whose amounts have rooms of their own, each room eight times the one before.
const FEW_CARDS: usize = 16;

const SOME_CARDS: usize = 128;

pub const LONGEST_CARDS: usize = CARD_LENGTH * MOST_CARDS;

// "amounts .. 8 bytes each"
pub const AMOUNT_LENGTH: usize = 8;

pub const LONGEST_AMOUNTS: usize = AMOUNT_LENGTH * MOST_CARDS;

// "each at most 10^10", entries and amounts
const MOST: u64 = 10000000000;

// The first power of two above MOST, 2^34. A number above MOST is not below LIMIT, or is not below it with LACKING added.
const LIMIT: u64 = 17179869184;

const LACKING: u64 = LIMIT - 1 - MOST;

// What a card comes to, and bits that are below LIMIT where the card is right.
#[derive(Clone, Copy)]
struct Worked {
    amount: u64,
    bits: u64,
}

// Bits that are below LIMIT where a number is at most MOST. A loop joins them by `|` and takes many numbers at a time, as it would not with a
// comparison for each.
fn bits_of(number: u64) -> u64
    ensures { Tells (number ≤ most_entry) result }
{
    number | number.wrapping_add(LACKING)
}

// "received less dispatched, plus opening, less closing stock": what comes in less what goes out. Of a card that is wrong the amount is any number;
// one below zero wraps to a number far above MOST.
fn work_out_card(card: &[u8]) -> Worked
    requires { card_length ≤ length card.now }
    ensures { WorkedCard (card_at card.now 0) result.amount result.bits }
{
    let received = fields::number_at::<8>(card, RECEIVED_AT);
    let dispatched = fields::number_at::<8>(card, DISPATCHED_AT);
    let opening = fields::number_at::<8>(card, OPENING_AT);
    let closing = fields::number_at::<8>(card, CLOSING_AT);
    let comes_in = received.wrapping_add(opening);
    let goes_out = dispatched.wrapping_add(closing);
    let amount = comes_in.wrapping_sub(goes_out);
    let bits = bits_of(received)
        | bits_of(dispatched)
        | bits_of(opening)
        | bits_of(closing)
        | bits_of(amount);
    Worked { amount, bits }
}

// The amounts of all cards, and whether no card is wrong. They are kept beside the lent buffer, to which a refusal writes nothing.
fn work_out(cards: &[u8], amounts: &mut [u64]) -> bool
    requires { card_count cards.now ≤ length amounts.old }
    ensures { WorkedOut cards.now amounts.old result amounts.new }
{
    let mut bits: u64 = 0;
    // By index the compiler takes four cards at a time, and by `chunks_exact` two.
    for i in 0..cards.len() / CARD_LENGTH {
        let worked = work_out_card(&cards[CARD_LENGTH * i..]);
        bits |= worked.bits;
        amounts[i] = worked.amount;
    }
    bits < LIMIT
}

// "an entry out of range"
fn is_entry_wrong(card: &[u8]) -> bool
    requires { card_length ≤ length card.now }
    ensures { result ≡ wrong_entries (card_at card.now 0) }
{
    let received = fields::number_at::<8>(card, RECEIVED_AT);
    let dispatched = fields::number_at::<8>(card, DISPATCHED_AT);
    let opening = fields::number_at::<8>(card, OPENING_AT);
    let closing = fields::number_at::<8>(card, CLOSING_AT);
    (MOST < received) | (MOST < dispatched) | (MOST < opening) | (MOST < closing)
}

// "an entry out of range", or "an amount below zero or above 10^10"
fn is_card_wrong(card: &[u8]) -> bool
    requires { card_length ≤ length card.now }
    ensures { result ≡ wrong (card_at card.now 0) }
{
    LIMIT <= work_out_card(card).bits
}

// The first card with an entry out of range, if there is one.
fn first_wrong_entry(cards: &[u8]) -> Option<usize>
    ensures { IsFirst (entry_wrong_at cards.now) (card_count cards.now) result }
{
    cards
        .chunks_exact(CARD_LENGTH)
        .position(|card| is_entry_wrong(card))
}

// The first card that is wrong in either way, if there is one.
fn first_wrong_card(cards: &[u8]) -> Option<usize>
    ensures { IsFirst (wrong_at cards.now) (card_count cards.now) result }
{
    cards
        .chunks_exact(CARD_LENGTH)
        .position(|card| is_card_wrong(card))
}

// "then 14 for an entry out of range, then 15 for an amount below zero or above 10^10, each at the first such card": some card is wrong.
fn refusal(cards: &[u8]) -> Refusal
    requires { Whole cards.now × (first (wrong_at cards.now) (card_count cards.now) < card_count cards.now) }
    ensures { Err result ≡ first_refusal (card_tests cards.now) }
{
    if let Some(entry) = first_wrong_entry(cards) {
        return Refusal {
            number: 14,
            place: entry as u64,
        };
    }
    Refusal {
        number: 15,
        place: first_wrong_card(cards).unwrap() as u64,
    }
}

// "amounts written in card order, 8 bytes each"
fn put_amounts(worked: &[u64], amounts: &mut [u8])
    requires { amount_length * length worked.now ≤ length amounts.old }
    ensures { Written amounts.old 0 (packed (replicate (length worked.now) amount_length) worked.now) amounts.new }
{
    for (i, amount) in worked.iter().enumerate() {
        fields::put_number::<8>(amounts, AMOUNT_LENGTH * i, *amount);
    }
}

// "then 8"
fn write_amounts(worked: &[u64], amounts: &mut [u8]) -> Result<u64, Refusal>
    requires { length worked.now ≤ 1024 }
    ensures { Gives (written [] (packed (replicate (length worked.now) amount_length) worked.now) amounts.old) (answered result) amounts.new }
{
    let needed = AMOUNT_LENGTH * worked.len();
    answer::test_room(amounts.len(), needed)?;
    put_amounts(worked, amounts);
    Ok(needed as u64)
}

// Whole cards, for whose amounts there is room.
fn amounts_in(cards: &[u8], worked: &mut [u64], amounts: &mut [u8]) -> Result<u64, Refusal>
    requires { Whole cards.now × (card_count cards.now ≤ length worked.old) }
    ensures { Gives (Calls.amounts cards.now amounts.old) (answered result) amounts.new }
{
    let n = cards.len() / CARD_LENGTH;
    let right = work_out(cards, worked);
    if !right {
        return Err(refusal(cards));
    }
    write_amounts(&worked[..n], amounts)
}

// Cards whose amounts have a room of their size. Few cards would pay for clearing the room of many: it takes seven times as long as one card does.
fn amounts_within<const ROOM: usize>(cards: &[u8], amounts: &mut [u8]) -> Result<u64, Refusal>
    requires { Whole cards.now × (card_count cards.now ≤ ROOM) × (ROOM ≤ 1024) }
    ensures { Gives (Calls.amounts cards.now amounts.old) (answered result) amounts.new }
{
    let mut worked = [0u64; ROOM];
    amounts_in(cards, &mut worked, amounts)
}

fn amounts_by_count(cards: &[u8], amounts: &mut [u8]) -> Result<u64, Refusal>
    requires { Whole cards.now }
    ensures { Gives (Calls.amounts cards.now amounts.old) (answered result) amounts.new }
{
    let n = cards.len() / CARD_LENGTH;
    if n <= FEW_CARDS {
        amounts_within::<FEW_CARDS>(cards, amounts)
    } else if n <= SOME_CARDS {
        amounts_within::<SOME_CARDS>(cards, amounts)
    } else {
        amounts_within::<MOST_CARDS>(cards, amounts)
    }
}

// "14 for a broken length or too many cards, place 0"
fn test_length(cards: &[u8]) -> Result<(), Refusal>
    ensures { result ≡ cards_test cards.now }
{
    let n = cards.len() / CARD_LENGTH;
    answer::refuse_if((cards.len() % CARD_LENGTH != 0) | (MOST_CARDS < n), 14, 0)
}

fn amounts_or_refusal(cards: &[u8], amounts: &mut [u8]) -> Result<u64, Refusal>
    ensures { Gives (Calls.amounts cards.now amounts.old) (answered result) amounts.new }
{
    test_length(cards)?;
    amounts_by_count(cards, amounts)
}

// The amounts of stock cards, at the front of a buffer: 14 and 15 over all cards, then 8.
pub fn amounts(cards: &[u8], amounts: &mut [u8]) -> Answer
    ensures { Gives (Calls.amounts cards.now amounts.old) result amounts.new }
{
    answer_of(amounts_or_refusal(cards, amounts))
}
