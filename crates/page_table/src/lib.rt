// The maker's pages as one table: its rows and messages, the search by identifier, kind and start, and the rules that it keeps to, with their laws.
// Definitions, and of functions an interface's number and back. Read with the maker's documents beside it; what is read, written or changed goes by this table,
// and every crate above may name it.
ghost use Rattle.std.specs.Prelude.{◌≡◌};
ghost use Rattle.page_table.specs.Interfaces.{interface_number, interface_of};

pub mod newer_kinds; // newer_kinds.rt: the kinds of 000 and of 004 by their names
pub mod older_kinds; // older_kinds.rt: the kinds of 001

// 01: "a row holds message, start, width, signedness and labels or none". The message is its kind, its identifier and that identifier's form, its length
// in bytes and its byte order (`big`: byte 0 is highest, and a start names the highest bit). `low` is the signal's lowest bit in the payload
// number, which follows from the rest: worked out beforehand, and held to it by the proofs of `line_at`. Bit n of labels says that the raw
// number n has a label, and 0 that the signal has none. That a row is `Fine` is no invariant: `row_at` answers `no_row`, which has no bit, past the end.
#[derive(Clone, Copy)]
pub struct Row {
    // Kept (1): a number, as newer_kinds.rt says.
    pub kind: usize,
    pub id: u32,
    pub extended: bool,
    pub bytes: usize,
    pub big: bool,
    pub start: u32,
    pub width: u32,
    pub low: u32,
    pub signed: bool,
    pub labels: u64,
}

// A row as the table has it: kind, start, width, lowest bit, signed, labels. The kind names the message. A line of the table holds them without names, as the
// maker's page does, and what takes one apart names them.
#[derive(Clone, Copy)]
pub struct Line(pub usize, pub u32, pub u32, pub u32, pub bool, pub u64);

// A message: identifier, extended, bytes, big, and the place of its first row in the table.
// Kept (5): without names, since docs/PROMISES.md names its parts by their place, as `(message_of k).2` of `gives_4`.
#[derive(Clone, Copy)]
pub struct Message(pub u32, pub bool, pub usize, pub bool, pub usize);

// 02, Req 11: "Set-up names a post's interface": the pages of document 000, or those of document 001, of the older controllers. The frames of the safety
// controller, of document 004, belong to either.
#[derive(Clone, Copy)]
pub enum Interface {
    Newer = 0,
    Older = 1,
}

impl From<Interface> for u32 {
    ghost from_gives = { λ x n. n ≡ interface_number x };

    fn from(x: Interface) -> u32 {
        x as u32
    }
}

// Set-up lets no number but 0 and 1 in.
impl From<u32> for Interface {
    ghost from_gives = { λ n x. x ≡ interface_of n };

    // Kept (4): the conversion itself, by `From`; every other number is the newer one (`interface_of`), so that it is no `TryFrom`.
    fn from(n: u32) -> Interface {
        if n == 1 {
            Interface::Older
        } else {
            Interface::Newer
        }
    }
}

// Where the kinds of 004, of 001 and of the rest of 000 begin.
pub const SAFETY_KIND: usize = 9;

pub const KIND_COUNT: usize = 12;

pub const REST_KIND: usize = 30;

// How many messages all documents have.
pub const MESSAGE_COUNT: usize = 43;
