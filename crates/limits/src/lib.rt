// The numbers that 01 sets and that more than one layer needs, each meaning with one name. specs/Limits.antt has the same for contracts.
#![tactic(auto)]

// n at most. The parties 0 to 31 are places of a mask, masks of a row and rows of a table.
pub const MOST_PARTIES: usize = 32;

// The places of a mask.
pub const MASK_PLACES: u32 = 32;

// L at most.
pub const MOST_LABELS: usize = 8;

// The languages are 0 to 3.
pub const LAST_LANGUAGE: usize = 3;

// D at most.
pub const LONGEST_WORD: usize = 31;

// The symbols that a word as a value has room for, and the bytes that next-word may need.
pub const WORD_CAPACITY: usize = LONGEST_WORD;

// 4 × label + kind at most.
pub const LAST_SYMBOL: u8 = 31;

// R at most: each pair with each label, known or unknown, and with a permit.
pub const MOST_RECORDS: usize = 8928;

// The pair (a, b) has number 32a + b; so many numbers there are.
pub const PAIR_NUMBERS: usize = 1024;

// The bytes of scratch that mining needs: one for each number of a pair.
pub const SCRATCH_SIZE: usize = PAIR_NUMBERS;
