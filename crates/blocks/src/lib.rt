// Files in blocks of 512 bytes: the check, the blocks and their records, and the verdict on a file.
#![tactic(auto)]

mod checks;
mod making;
mod parts;
mod verdicts;

pub use checks::check;
pub use making::{put, seal};
pub use parts::{block, check_right, count_of, first_block, record, record_from, room_right};
pub use verdicts::{place, refusal};

// What is wrong with a file, and in which block.
#[derive(Clone, Copy)]
pub enum Fault {
    Length,
    Check(usize),
    Block(usize),
    Record(usize),
    Across,
}

// Whether a file is good, and if not, what is wrong with it.
pub type Verdict = Result<(), Fault>;
