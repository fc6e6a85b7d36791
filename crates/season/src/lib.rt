// Request f: a tally over a season's schedules. What is tallied is in specs/, tables of it in proofs/; there is no other code.
#![tactic(auto)]

use definitions::Report;

// What Tally hands back: Run's own answer, and beside it the tally's refusal, 19, or 0 for none. The C header states both as numbers.
#[derive(Clone, Copy)]
pub struct Tallied {
    pub report: Report,
    pub refusal: u64,
}

// An average of a tally: steps over operations.
#[derive(Clone, Copy)]
pub struct Average {
    pub steps: u64,
    pub operations: u64,
}
