// 01's session watch, the table of posts: definitions and laws, and no function. Read with 01 beside it, in this order:
//   specs/Steps.antt      the accepted steps of all posts, newest first, and 01's answers read afresh over them; which steps a table stands for
//   specs/Table.antt      each operation's answer and table, for every table
//   specs/Run.antt        any requests from the empty table
//   specs/Pages.antt      which messages a post has heard, and what a place keeps
//   specs/Readings.antt   01's readings from both sides of each edge
// proofs/Right.antt makes the two one, proofs/Demand.antt has demand 3, proofs/Index.antt what is promised of the index, proofs/Night.antt demand 3 on a night.
// For every crate that holds a table.
// The crates among these are passed on to those above, which name them through this one.
use refusals::Refusal;
pub use rules;
use rules::{Head, Post, Record, Slot};

pub const POSTS: usize = 16;

// 01: "channel above 31".
pub const CHANNELS: usize = 32;

// `index` has for each channel 0 where no post holds it, and one more than the number of the post that does (02, Req 13), so that zeroed memory is the
// empty table.
// `refused` counts the frames and ticks that were refused since the table was made, and stays at 4,294,967,295 (02, Req 08).
#[repr(C)]
#[derive(Clone, Copy)]
pub struct Table {
    pub posts: [Post; POSTS],
    pub index: [u32; CHANNELS],
    pub refused: u64,
}

// A table after a step, and what the step answers.
#[derive(Clone, Copy)]
pub struct Stepped<A> {
    pub table: Table,
    pub answer: A,
}

// After a frame or tick: the findings, finding k in bit k - 1, or the refusal.
pub type Fed = Stepped<Result<u32, Refusal>>;

// After a set-up or a release.
// Kept (1): no `Result<Table, Refusal>`: `set_up_of` and `release_of`, of which the theorems speak, have the table of a refusal too.
pub type Settled = Stepped<Result<(), Refusal>>;

// The record of a refused look-up is an empty one.
// Kept (1): no `Result<Record, Refusal>`, since `look_up_of` promises that empty record too.
#[derive(Clone, Copy)]
pub struct LookedUp {
    pub answer: Result<(), Refusal>,
    pub shown: Record,
}

// What comes to a post at a time: a tick, a frame by its kind and payload number, or a frame that its reader refused.
// Kept (1): no `Result<Arrival, Refusal>`: 1 and 2 are told before what the reader refused, so that a frame that was not read goes to its post as every other
// does, and no `?` could take it out on the way; `arrival_of`, `judged_of` and `found01` have a case for it.
#[derive(Clone, Copy)]
pub enum Arrival {
    Tick,
    Frame { kind: u32, raw: u64 },
    Unread(Refusal),
}

// A post's head after an arrival, the slot that the arrival fills and its place (PLACES where it fills none), and the answer.
// Kept (2): `AfterEvent`'s fields but for the answer, of a crate below, whose definitions name its findings so: made one, they would be copied here all the
// same.
// Kept (1): no `Result<AfterEvent, Refusal>`: who steps a table goes on with head, slot and place whatever the answer is, by value, over one head and through a
// batch, and each would make those of a refusal anew; `heard_of`, of which the theorems on every step speak, has them of a refusal too.
#[derive(Clone, Copy)]
pub struct Heard {
    pub head: Head,
    pub slot: Slot,
    pub at: usize,
    pub answer: Result<u32, Refusal>,
}
