// The messages of the older controllers as types: eighteen of document 001, and the three of the safety controller, whose frames belong to this interface too.
// Their fields, where 000 has not the same, and the number of each kind. For every crate that names such a message.
#![tactic(auto)]

ghost use Rattle.std.specs.Prelude.{◌≡◌};
ghost use Rattle.older_types.specs.KindNumbers.{kind_of};

// The crates among these are passed on to those above, which name them through this one.
pub use message_types;
use message_types::{
    CcsExtraInformation, ChargeControl1, ChargeState1, CuiInputs, McsExtraInformation, Plug,
    Protocol, Pt1000State, SeccInputs, SeccOutputs, SequenceControl, SpccInputs,
};
// 001 lays these out as 000 does: one type each.
pub use message_types::{
    ChargeSessionFinished, ChargeStatusChange, ControllerStatus, EmergencyStop, EvId,
    PowerModulesStatus,
};
// The safety controller's kinds, which both interfaces have.
pub use message_types::{PROBES, SAFETY_CONTROL, SAFETY_STATE};

// ---- messages: volts, amperes and the duty cycle in whole tenths, temperatures in °C, insulation in kOhm, a battery's capacity in kWh, its charge in %

#[derive(Clone, Copy)]
pub struct PowerModulesLimits {
    pub voltage: u16,
    pub current: i16,
    pub reserved: u64,
}

#[derive(Clone, Copy)]
pub struct NewChargeSession {
    pub protocol: Protocol,
    pub plug: Plug,
    pub voltage: u16,
    pub current: u16,
    pub capacity: u16,
    pub charge: u8,
}

#[derive(Clone, Copy)]
pub struct InsulationTest {
    pub voltage: u16,
}

#[derive(Clone, Copy)]
pub struct PrechargeTarget {
    pub voltage: u16,
    pub current: u16,
}

#[derive(Clone, Copy)]
pub struct ChargingLoop {
    pub voltage: u16,
    pub current: i16,
    pub charge: u8,
}

// ---- the kinds, by their names
pub use page_table::older_kinds::{
    CCS, CHANGE, CHARGING, CONTROLLER, CUI, FINISHED, ID, INSULATION, LIMITS, MCS, OUTPUTS,
    PRECHARGE, SECC, SEQUENCE, SESSION, SPCC, STATUS, STOP,
};

#[derive(Clone, Copy)]
pub enum Message {
    SafetyControl(ChargeControl1),
    SafetyState(ChargeState1),
    Probes(Pt1000State),
    Status(PowerModulesStatus),
    Limits(PowerModulesLimits),
    Sequence(SequenceControl),
    Outputs(SeccOutputs),
    Session(NewChargeSession),
    Insulation(InsulationTest),
    Precharge(PrechargeTarget),
    Change(ChargeStatusChange),
    Charging(ChargingLoop),
    Stop(EmergencyStop),
    Finished(ChargeSessionFinished),
    Controller(ControllerStatus),
    Cui(CuiInputs),
    Secc(SeccInputs),
    Id(EvId),
    Spcc(SpccInputs),
    Ccs(CcsExtraInformation),
    Mcs(McsExtraInformation),
}

// Kept (4): `usize::from(m)` would not say which number of a message it is; kinds number the table's rows, and C hands them out.
pub fn kind_of(m: Message) -> usize
    ensures { result ≡ kind_of m }
{
    match m {
        Message::SafetyControl(_) => SAFETY_CONTROL,
        Message::SafetyState(_) => SAFETY_STATE,
        Message::Probes(_) => PROBES,
        Message::Status(_) => STATUS,
        Message::Limits(_) => LIMITS,
        Message::Sequence(_) => SEQUENCE,
        Message::Outputs(_) => OUTPUTS,
        Message::Session(_) => SESSION,
        Message::Insulation(_) => INSULATION,
        Message::Precharge(_) => PRECHARGE,
        Message::Change(_) => CHANGE,
        Message::Charging(_) => CHARGING,
        Message::Stop(_) => STOP,
        Message::Finished(_) => FINISHED,
        Message::Controller(_) => CONTROLLER,
        Message::Cui(_) => CUI,
        Message::Secc(_) => SECC,
        Message::Id(_) => ID,
        Message::Spcc(_) => SPCC,
        Message::Ccs(_) => CCS,
        Message::Mcs(_) => MCS,
    }
}
