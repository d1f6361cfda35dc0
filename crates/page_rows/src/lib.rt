// The table of the maker's pages in code, its messages and rows as constants: a row by its place, and what a kind's message says. For `page_search` and every
// crate that goes by the table. Every public function takes any input.
#![tactic(auto)]

ghost use Rattle.std.specs.Prelude.{◌≡◌};
ghost use Rattle.page_charger.specs.page_table.specs.Interfaces.{is_on};
ghost use Rattle.page_charger.specs.page_table.specs.Layout.{row_of};
ghost use Rattle.page_charger.specs.page_table.specs.Table.{identifier_of, length_of, extended_of, big_of, takes};

// The crates among these are passed on to those above, which name them through this one.
pub use page_charger::page_table;
use page_charger::page_table::{Interface, KIND_COUNT, Line, Message, REST_KIND, Row, SAFETY_KIND};

mod contents; // contents.rt: the messages, and where the rows of each begin
mod safety; // safety.rt: the rows of document 004
mod older; // older.rt: the rows of document 001
mod vehicle; // vehicle.rt: the rows of document 000 that Req 14 adds, to EV_Information_Energy
mod inputs; // inputs.rt: and from ADM_CO_CUI1_Inputs on
mod table; // table.rt: all of them

pub use contents::{MESSAGES, OLDER, REST, message_at};
pub use inputs::{CE_STATE, CP_STATE, ID_STATE};
pub use older::{
    OLD_CE_STATE, OLD_COMMUNICATION_PROTOCOL, OLD_CONTROLLER_STATE, OLD_CP_STATE,
    OLD_FINISHED_STATE, OLD_ID_STATE, OLD_PLUG_AND_PINS, OLD_STOP_ORIGIN, OLD_SYSTEM_ENABLE,
    OLD_VEHICLE_READY_FOR_CHARGING,
};
pub use page_charger::{
    COMMUNICATION_PROTOCOL, CONTROLLER_STATE, FINISHED_STATE, LOWER_OUTPUT_VOLTAGE,
    OUTPUT_CONTACTORS, PLUG_AND_PINS, POWER_FUNCTION, SETPOINTS_MODE, STOP_ORIGIN, SYSTEM_ENABLE,
    VEHICLE_READY_FOR_CHARGING,
};
pub use table::{ROW_COUNT, row_at};

// No signal: what stands past the end of the table.
// Kept (4): the clause of a derived `Default` tells of each field apart (tried on `Line`), and `row_at` answers for the row whole (`no_row`).
const NO_ROW: Row = Row {
    kind: 0,
    id: 0,
    extended: false,
    bytes: 0,
    big: false,
    start: 0,
    width: 0,
    low: 0,
    signed: false,
    labels: 0,
};

// The row of a line, with what its message says.
#[inline(always)]
pub fn row_of(l: Line) -> Row
    ensures { result ≡ row_of l }
{
    let Line(kind, start, width, low, signed, labels) = l;
    let Message(id, extended, bytes, big, _) = contents::message_at(kind);
    Row {
        kind,
        id,
        extended,
        bytes,
        big,
        start,
        width,
        low,
        signed,
        labels,
    }
}

// The identifier of a kind's frames and its form, their length in bytes and their byte order; 0 and false for a number that is no kind.
// Kept (2): four parts of three types, each with a definition of its own, and of one line: there is nothing to say once.
#[tactic(auto, using(crate::proofs::Said::id_said))]
pub fn identifier_of(kind: usize) -> u32
    ensures { result ≡ identifier_of kind }
{
    let Message(id, _, _, _, _) = contents::message_at(kind);
    id
}

#[tactic(auto, using(crate::proofs::Said::form_said))]
pub fn is_extended(kind: usize) -> bool
    ensures { result ≡ extended_of kind }
{
    let Message(_, extended, _, _, _) = contents::message_at(kind);
    extended
}

#[tactic(auto, using(crate::proofs::Said::length_said))]
pub fn length_of(kind: usize) -> usize
    ensures { result ≡ length_of kind }
{
    let Message(_, _, bytes, _, _) = contents::message_at(kind);
    bytes
}

#[tactic(auto, using(crate::proofs::Said::order_said))]
pub fn is_big(kind: usize) -> bool
    ensures { result ≡ big_of kind }
{
    let Message(_, _, _, big, _) = contents::message_at(kind);
    big
}

// Whether the interface has the messages of a kind: the pages of 000 and 004, or those of 004 and 001.
pub fn is_on(iface: Interface, kind: usize) -> bool
    ensures { result ≡ is_on iface kind }
{
    match iface {
        Interface::Newer => kind < KIND_COUNT || REST_KIND <= kind,
        Interface::Older => (SAFETY_KIND..REST_KIND).contains(&kind),
    }
}

// Whether a signal with these labels, or with none, may hold the number. As one condition without the returns, reading a frame of 004 took a twentieth longer.
#[tactic(auto, using(crate::proofs::Labels::none_from_64))]
pub fn label_holds(labels: u64, bits: u64) -> bool
    ensures { result ≡ takes labels bits }
{
    if labels == 0 {
        return true;
    }
    if 64 <= bits {
        return false;
    }
    (labels >> bits) % 2 == 1
}
