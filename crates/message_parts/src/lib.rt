// The four messages whose fields the session watch's rules ask, of their signals' raw numbers and straight of a payload number. For the rules,
// which ask no other field, and for the reader of all messages.
#![tactic(auto)]

ghost use Rattle.std.specs.Prelude.{◌≡◌};
ghost use Rattle.message_fields.specs.Fields.{at};
ghost use Rattle.message_parts.specs.Watched.{status_of, parameters_of, session_of, control_of};
ghost use Rattle.message_parts.specs.Parts.{status_in, parameters_in, session_in, control_in};

use message_fields::{celsius, flag, kilohms, short, word};
use message_types::labels::Label;
use message_types::{
    CONTROL, DcPowerControl, DcPowerParameters, NewChargeSession, PARAMETERS, PowerModulesStatus,
    SESSION, STATUS, padded,
};
use page_write::{Raws, raw_of};

// ---- of the raw numbers, in the table's order
// Kept (2): a trait of both functions is longer (message_safety/build.rt says by how much), and its impls would stand in the crate of the types.

pub fn status(f: Raws) -> PowerModulesStatus
    ensures { result ≡ status_of (at f) }
{
    PowerModulesStatus {
        voltage: word(f[0]),
        current: short(f[1]),
        modules: celsius(f[2]),
        enclosure: celsius(f[3]),
        enable: Label::of_raw(f[4]),
        insulation: kilohms(f[5]),
    }
}

pub fn parameters(f: Raws) -> DcPowerParameters
    ensures { result ≡ parameters_of (at f) }
{
    DcPowerParameters {
        voltage: word(f[0]),
        charge: word(f[1]),
        discharge: word(f[2]),
        target: short(f[3]),
    }
}

pub fn session(f: Raws) -> NewChargeSession
    ensures { result ≡ session_of (at f) }
{
    NewChargeSession {
        protocol: Label::of_raw(f[0]),
        plug: Label::of_raw(f[1]),
    }
}

pub fn control(f: Raws) -> DcPowerControl
    ensures { result ≡ control_of (at f) }
{
    DcPowerControl {
        target: word(f[0]),
        max: short(f[1]),
        min: short(f[2]),
        function: Label::of_raw(f[3]),
        reserved: flag(f[4]),
        mode: Label::of_raw(f[5]),
        contactors: Label::of_raw(f[6]),
        lowering: Label::of_raw(f[7]),
    }
}

// ---- of a payload number: its signals' numbers alone are read, and past them stands 0. Each place is written out, so that it is a constant, and no row is
// looked for when the program runs.
// Kept (2, 3): with `from_fn` over the places a frame took 1.54 times as long, and with `raws_of`, as the definitions have it, 1.86 times.

// Kept (4): a payload number may be of any kind, so `From<u64>` would not say by which kind's rows it is read; the name does.
#[tactic(auto, using(page_write::proofs::AtRow::answer), unfolding(crate::specs::Parts::status_in, page_write::specs::Raws::pad))]
pub fn status_in(number: u64) -> PowerModulesStatus
    ensures { result ≡ status_in number }
{
    status(padded([
        raw_of(STATUS, 0, number),
        raw_of(STATUS, 1, number),
        raw_of(STATUS, 2, number),
        raw_of(STATUS, 3, number),
        raw_of(STATUS, 4, number),
        raw_of(STATUS, 5, number),
    ]))
}

// Kept (4): as for status_in, the name says by which kind's rows the payload number is read.
#[tactic(auto, using(page_write::proofs::AtRow::answer), unfolding(crate::specs::Parts::parameters_in, page_write::specs::Raws::pad))]
pub fn parameters_in(number: u64) -> DcPowerParameters
    ensures { result ≡ parameters_in number }
{
    parameters(padded([
        raw_of(PARAMETERS, 0, number),
        raw_of(PARAMETERS, 1, number),
        raw_of(PARAMETERS, 2, number),
        raw_of(PARAMETERS, 3, number),
    ]))
}

// Kept (4): as for status_in, the name says by which kind's rows the payload number is read.
#[tactic(auto, using(page_write::proofs::AtRow::answer), unfolding(crate::specs::Parts::session_in, page_write::specs::Raws::pad))]
pub fn session_in(number: u64) -> NewChargeSession
    ensures { result ≡ session_in number }
{
    session(padded([raw_of(SESSION, 0, number), raw_of(SESSION, 1, number)]))
}

// Kept (4): as for status_in, the name says by which kind's rows the payload number is read.
pub fn control_in(number: u64) -> DcPowerControl
    ensures { result ≡ control_in number }
{
    control(padded([
        raw_of(CONTROL, 0, number),
        raw_of(CONTROL, 1, number),
        raw_of(CONTROL, 2, number),
        raw_of(CONTROL, 3, number),
        raw_of(CONTROL, 4, number),
        raw_of(CONTROL, 5, number),
        raw_of(CONTROL, 6, number),
        raw_of(CONTROL, 7, number),
    ]))
}
