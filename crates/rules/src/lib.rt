// 01's session watch, one post: definitions and laws, and of functions only what a flag says. Read with 01 beside it, in this order:
//   specs/History.antt    a post's accepted frames and ticks, newest first, and looking back over them: the session
//   specs/Times.antt      their times, which do not come round as those that are received do
//   specs/Rules.antt      F1 to F12, each over the history before an event and the event
//   specs/Counts.antt     02's counts: the events of a history, and of how many of them a rule finds something
//   specs/Record.antt     the record that is handed out, and the post that the table keeps, each read off the history
//   specs/After.antt       the same step by step, as the code of `post` takes it; proofs/Look.antt has the laws that make it looking back
// For every crate that steps a post or hands out its record. What a rule asks of a message's fields stands in `rule_asks`, limits in `rule_limits`.
#![tactic(auto)]

ghost use Rattle.std.specs.Prelude.{◌≡◌};
ghost use Rattle.rule_asks.specs.Judgements.{is_set};

// The crates among these are passed on to those above, which name them through this one.
pub use older_build;
use older_types::message_types::{Message, Plug, Protocol};
use rule_limits::{Limits, PlainLimits};
pub use rule_pages::PLACES;

pub const FINDINGS: usize = 12;

// The bit of each finding in an event's findings: finding k in bit k - 1.
// Kept (1): 01 gives an event's findings as bits of one number, and so do the definitions and every answer.
pub const F1: u32 = 1;

pub const F2: u32 = 2;

pub const F3: u32 = 4;

pub const F4: u32 = 8;

pub const F5: u32 = 16;

pub const F6: u32 = 32;

pub const F7: u32 = 64;

pub const F8: u32 = 128;

pub const F9: u32 = 256;

pub const F10: u32 = 512;

pub const F11: u32 = 1024;

pub const F12: u32 = 2048;

// A post counts its accepted frames and ticks in place 0, and finding k in place k (02, Req 08).
pub const COUNTS: usize = 13;

// ---- a post as the table keeps it: plain data, so that a table of posts can be lent from C. A flag is a whole word, 0 or 1, and times are as wide as words:
// nothing that is stepped by value has padding, which the compiler would carry along byte by byte.
// Kept (1): so a flag with a value beside it is no `Option`, whose layout C does not know.

// The latest frame of a kind, as it came.
#[repr(C)]
#[derive(Clone, Copy, Default)]
pub struct Slot {
    pub known: u32,
    pub kind: u32,
    pub time: u64,
    pub raw: u64,
}

impl Slot {
    // Whether a frame of the kind was accepted.
    pub fn is_known(&self) -> bool
        ensures { result ≡ is_set self.now.known }
    {
        self.known == 1
    }
}

// A session keeps the latest Power_Modules_Status, the latest DC_Power_Control and the latest Emergency_Stop (02, Req 14) that were accepted in it, or what
// stands for them on a post of the older interface.
pub const STATUS_PLACE: usize = 0;

pub const CONTROL_PLACE: usize = 1;

pub const STOP_PLACE: usize = 2;

pub const KEPT: usize = 3;

// All zero where none is open. `first` is the payload number of the New_Charge_Session that opened it.
#[repr(C)]
#[derive(Clone, Copy, Default)]
pub struct Session {
    pub opened: u64,
    pub since: u64,
    pub first: u64,
    pub kept: [Slot; KEPT],
}

impl Session {
    pub fn is_open(&self) -> bool
        ensures { result ≡ is_set self.now.opened }
    {
        self.opened == 1
    }
}

// What an event steps of a post: what the rules read, and the counts. The latest controller status and the latest limits told stand here too, so that they read
// nothing else.
// Kept (6): no buffer: all the counts are in use, and `used` says whether the post is set up.
#[repr(C)]
#[derive(Clone, Copy, Default)]
pub struct Head {
    pub used: u32,
    pub channel: u32,
    pub limits: PlainLimits,
    pub heard: u32,
    pub counts: [u32; COUNTS],
    pub time: u64,
    pub controller: Slot,
    pub parameters: Slot,
    pub session: Session,
}

impl Head {
    // Whether the post is set up.
    pub fn is_used(&self) -> bool
        ensures { result ≡ is_set self.now.used }
    {
        self.used == 1
    }

    // Whether any frame or tick was accepted since.
    pub fn is_heard(&self) -> bool
        ensures { result ≡ is_set self.now.heard }
    {
        self.heard == 1
    }
}

#[repr(C)]
#[derive(Clone, Copy, Default)]
pub struct Post {
    pub head: Head,
    pub latest: [Slot; PLACES],
}

// A head after an event, the slot that the event fills and its place (PLACES where it fills none), and the event's findings.
// Kept (1): slot and place are no `Option` of a pair: what stores them asks whether the place is one, since a number that is no kind has none either
// (`place_by`), and asks nothing else.
#[derive(Clone, Copy)]
pub struct AfterEvent {
    pub head: Head,
    pub slot: Slot,
    pub at: usize,
    pub findings: u32,
}

// ---- the record as it is handed out: each time as it was received and, beside it, its age in ms as of the post's latest event

// The time of a message as it was received, and its age; a message of the older interface's pages has a type of its own.
// Kept (2): `dated_at`, under the records that the theorems promise, has a case for each interface.
#[derive(Clone, Copy)]
pub enum Dated {
    At {
        time: u32,
        age: u32,
        message: Message,
    },
    OlderAt {
        time: u32,
        age: u32,
        message: older_types::Message,
    },
}

#[derive(Clone, Copy)]
pub struct OpenSession {
    pub since: u32,
    pub age: u32,
    pub protocol: Protocol,
    pub plug: Plug,
}

// What an open session keeps stands at the same places as in the table, beside the session: all messages of both interfaces in each of three fields would be
// more than a type may have.
#[derive(Clone, Copy)]
pub struct Record {
    pub channel: u32,
    pub limits: Limits,
    pub last: Option<u32>,
    pub latest: [Option<Dated>; PLACES],
    pub session: Option<OpenSession>,
    pub kept: [Option<Dated>; KEPT],
    pub accepted: u32,
    pub tallies: [u32; FINDINGS],
}
