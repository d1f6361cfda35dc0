// The raw numbers of each message's signals, in the table's order.
// Kept (2): the messages' fields have names of their own, so each function names its own; what they do alike, a number or a label as a raw number and 0 past
// the last, is message_fields', `Label`'s and `padded`.
ghost use Rattle.std.specs.Prelude.{◌≡◌};
ghost use Rattle.page_write.specs.Raws.{pad};
ghost use Rattle.page_table.specs.Table.{signal_count};
ghost use Rattle.message_charger.specs.Take.{status_raws, parameters_raws, state_raws, session_raws, change_raws, control_raws, finished_raws, stop_raws, id_raws};

use message_fields::{celsius_raw, kilohms_raw};
use message_types::labels::Label;
use message_types::{
    ChargeSessionFinished, ChargeStatusChange, ControllerStatus, DcPowerControl, DcPowerParameters,
    EmergencyStop, EvId, NewChargeSession, PowerModulesStatus, padded,
};
use page_write::Raws;

pub fn status_raws(m: PowerModulesStatus) -> Raws
    ensures { result ≡ pad signal_count (status_raws m) }
{
    padded([
        i64::from(m.voltage),
        i64::from(m.current),
        celsius_raw(m.modules),
        celsius_raw(m.enclosure),
        m.enable.raw(),
        kilohms_raw(m.insulation),
    ])
}

pub fn parameters_raws(m: DcPowerParameters) -> Raws
    ensures { result ≡ pad signal_count (parameters_raws m) }
{
    padded([
        i64::from(m.voltage),
        i64::from(m.charge),
        i64::from(m.discharge),
        i64::from(m.target),
    ])
}

pub fn session_raws(m: NewChargeSession) -> Raws
    ensures { result ≡ pad signal_count (session_raws m) }
{
    padded([m.protocol.raw(), m.plug.raw()])
}

pub fn control_raws(m: DcPowerControl) -> Raws
    ensures { result ≡ pad signal_count (control_raws m) }
{
    padded([
        i64::from(m.target),
        i64::from(m.max),
        i64::from(m.min),
        m.function.raw(),
        i64::from(m.reserved),
        m.mode.raw(),
        m.contactors.raw(),
        m.lowering.raw(),
    ])
}

pub fn id_raws(m: EvId) -> Raws
    ensures { result ≡ pad signal_count (id_raws m) }
{
    padded([
        i64::from(m.byte0),
        i64::from(m.byte1),
        i64::from(m.byte2),
        i64::from(m.byte3),
        i64::from(m.byte4),
        i64::from(m.byte5),
    ])
}

pub fn state_raws(m: ControllerStatus) -> Raws
    ensures { result ≡ pad signal_count (state_raws m) }
{
    padded([m.state.raw()])
}

pub fn change_raws(m: ChargeStatusChange) -> Raws
    ensures { result ≡ pad signal_count (change_raws m) }
{
    padded([m.status.raw()])
}

pub fn finished_raws(m: ChargeSessionFinished) -> Raws
    ensures { result ≡ pad signal_count (finished_raws m) }
{
    padded([m.state.raw()])
}

pub fn stop_raws(m: EmergencyStop) -> Raws
    ensures { result ≡ pad signal_count (stop_raws m) }
{
    padded([m.origin.raw()])
}
