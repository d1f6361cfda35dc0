// A message of its signals' raw numbers, in the table's order.
// Kept (2): the messages' fields have names of their own, which the codec's users read, so each function names its own; what they do alike, taking a field or a
// label of its raw number, is message_fields' and `Label`'s.
ghost use Rattle.std.specs.Prelude.{◌≡◌};
ghost use Rattle.message_fields.specs.Fields.{at};
ghost use Rattle.message_charger.specs.Build.{controller_of, change_of, finished_of, stop_of, id_of};

use message_fields::byte;
use message_types::labels::Label;
use message_types::{
    ChargeSessionFinished, ChargeStatusChange, ControllerStatus, EmergencyStop, EvId,
};
use page_write::Raws;

pub fn ev_id(f: Raws) -> EvId
    ensures { result ≡ id_of (at f) }
{
    EvId {
        byte0: byte(f[0]),
        byte1: byte(f[1]),
        byte2: byte(f[2]),
        byte3: byte(f[3]),
        byte4: byte(f[4]),
        byte5: byte(f[5]),
    }
}

pub fn controller(f: Raws) -> ControllerStatus
    ensures { result ≡ controller_of (at f) }
{
    ControllerStatus {
        state: Label::of_raw(f[0]),
    }
}

pub fn change(f: Raws) -> ChargeStatusChange
    ensures { result ≡ change_of (at f) }
{
    ChargeStatusChange {
        status: Label::of_raw(f[0]),
    }
}

pub fn finished(f: Raws) -> ChargeSessionFinished
    ensures { result ≡ finished_of (at f) }
{
    ChargeSessionFinished {
        state: Label::of_raw(f[0]),
    }
}

pub fn stop(f: Raws) -> EmergencyStop
    ensures { result ≡ stop_of (at f) }
{
    EmergencyStop {
        origin: Label::of_raw(f[0]),
    }
}
