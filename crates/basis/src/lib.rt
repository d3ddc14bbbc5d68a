#![tactic(auto)]

// What a call answers (document 01, "Refusal numbers"): acceptance is number 0, place 0 and a length; a refusal has its
// number, its place and length 0. It is one struct and no `Result`, since the exported calls hand it to C.
#[repr(C)]
#[derive(Clone, Copy)]
pub struct Answer {
    pub number: u32,
    pub place: u64,
    pub length: u64,
}

// A refusal: its number in the table of document 01, "Refusal numbers", and its place. It stays a number, since the statements (`Refuses number place`)
// and C know it by that.
#[derive(Clone, Copy)]
pub struct Refusal {
    pub number: u32,
    pub place: u64,
}
