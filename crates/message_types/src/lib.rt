// The messages as types, twenty-two of the charger pages and three of the safety controller's: their labels, their fields, and the number of each kind.
// For every crate that names a message; how one is made of a frame's raw numbers stands in the crates above.
#![tactic(auto)]

ghost use Rattle.std.specs.Prelude.{◌≡◌, ◌≤◌};
ghost use Rattle.message_laws.specs.page_write.specs.Raws.{pad, signal_count};
ghost use Rattle.message_types.specs.KindNumbers.{kind_of};

use message_laws::page_write::{Raws, SIGNALS};

pub mod labels; // labels.rt: labels and their numbers

// ---- labels: "a label is a named case of its own type", with its number of the pages

#[derive(Clone, Copy, PartialEq, Eq)]
pub enum SystemEnable {
    NotAllowed = 0,
    Allowed = 1,
}

#[derive(Clone, Copy, PartialEq, Eq)]
pub enum ControllerState {
    Initialising = 0,
    WaitingForPev = 1,
    NegotiatingConnection = 2,
    ConnectedWithFullInfo = 3,
    InsulationTest = 4,
    Precharge = 5,
    WaitingForCharge = 6,
    Charging = 7,
    EndingCharge = 8,
    WeldingDetection = 9,
    ClosingCommunication = 10,
    CcsAuthorisationProcess = 11,
    NotAvailable = 12,
    ChargePause = 13,
}

#[derive(Clone, Copy, PartialEq, Eq)]
pub enum Protocol {
    CcsDin70121v2012 = 0,
    CcsIso15118v2010 = 1,
    CcsIso15118v2013 = 2,
    Chademo09 = 3,
    Chademo10 = 4,
    Chademo20 = 5,
    CcsPwm = 6,
    CcsIso15118v2022 = 7,
}

#[derive(Clone, Copy, PartialEq, Eq)]
pub enum Plug {
    CcsDcCore = 0,
    CcsDcExtended = 1,
    Chademo = 2,
    CcsAc = 3,
    Mcs = 4,
}

#[derive(Clone, Copy, PartialEq, Eq)]
pub enum ChargeStatus {
    ChargeStopped = 0,
    ChargeStarted = 1,
}

#[derive(Clone, Copy, PartialEq, Eq)]
pub enum PowerFunction {
    Off = 0,
    Standby = 1,
    InsulationTest = 2,
    Precharge = 4,
    PowerTransfer = 8,
}

#[derive(Clone, Copy, PartialEq, Eq)]
pub enum SetpointsMode {
    TargetMode = 0,
    RangeMode = 1,
}

#[derive(Clone, Copy, PartialEq, Eq)]
pub enum OutputContactors {
    Open = 0,
    Close = 1,
}

#[derive(Clone, Copy, PartialEq, Eq)]
pub enum LowerOutput {
    NoLowering = 0,
    Lowering = 1,
}

#[derive(Clone, Copy, PartialEq, Eq)]
pub enum SessionEnd {
    CleanStop = 0,
    RushedStop = 1,
}

#[derive(Clone, Copy, PartialEq, Eq)]
pub enum StopOrigin {
    Evse = 1,
    Pev = 3,
}

// Kept (2): 01 has "a label is a named case of its own type": Start_Charge_Authorisation's, as `SystemEnable` is System_Enable's.
#[derive(Clone, Copy, PartialEq, Eq)]
pub enum Permission {
    NotAllowed = 0,
    Allowed = 1,
}

#[derive(Clone, Copy, PartialEq, Eq)]
pub enum Button {
    NotPressed = 0,
    Pressed = 1,
}

#[derive(Clone, Copy, PartialEq, Eq)]
pub enum Step {
    NotDone = 0,
    Done = 1,
}

#[derive(Clone, Copy, PartialEq, Eq)]
pub enum Validity {
    Invalid = 0,
    Valid = 1,
}

#[derive(Clone, Copy, PartialEq, Eq)]
pub enum PilotState {
    EOrF = 0,
    D = 3,
    C = 6,
    B = 9,
    A = 12,
}

#[derive(Clone, Copy, PartialEq, Eq)]
pub enum CeState {
    Undefined = 0,
    A = 1,
    B0 = 2,
    B0Aux = 3,
    B = 4,
    BAux = 5,
    C = 6,
    CAux = 7,
    Ec = 8,
    E = 9,
}

#[derive(Clone, Copy, PartialEq, Eq)]
pub enum Mating {
    Unmated = 0,
    Mated = 1,
    MatedEvAux = 2,
    MatedEvseAux = 3,
}

// The state of the control pilot and that of the proximity pin, as the safety controller tells them.

#[derive(Clone, Copy, PartialEq, Eq)]
pub enum CpState {
    Unknown = 0,
    A = 1,
    B = 2,
    C = 3,
    D = 4,
    E = 5,
    F = 6,
    Invalid = 7,
}

#[derive(Clone, Copy, PartialEq, Eq)]
pub enum PpState {
    NoCable = 0,
    Amps13 = 1,
    Amps20 = 2,
    Amps32 = 3,
    Amps63 = 4,
    Type1 = 5,
    Type1Pressed = 6,
    Error = 7,
}

// ---- messages of the charger: volts and amperes in whole tenths, temperatures in °C, insulation in kOhm

#[derive(Clone, Copy)]
pub struct PowerModulesStatus {
    pub voltage: u16,
    pub current: i16,
    pub modules: i16,
    pub enclosure: i16,
    pub enable: SystemEnable,
    pub insulation: u16,
}

#[derive(Clone, Copy)]
pub struct DcPowerParameters {
    pub voltage: u16,
    pub charge: u16,
    pub discharge: u16,
    pub target: i16,
}

#[derive(Clone, Copy)]
pub struct ControllerStatus {
    pub state: ControllerState,
}

#[derive(Clone, Copy, PartialEq, Eq)]
pub struct NewChargeSession {
    pub protocol: Protocol,
    pub plug: Plug,
}

#[derive(Clone, Copy)]
pub struct ChargeStatusChange {
    pub status: ChargeStatus,
}

#[derive(Clone, Copy)]
pub struct DcPowerControl {
    pub target: u16,
    pub max: i16,
    pub min: i16,
    pub function: PowerFunction,
    pub reserved: bool,
    pub mode: SetpointsMode,
    pub contactors: OutputContactors,
    pub lowering: LowerOutput,
}

#[derive(Clone, Copy)]
pub struct ChargeSessionFinished {
    pub state: SessionEnd,
}

#[derive(Clone, Copy)]
pub struct EmergencyStop {
    pub origin: StopOrigin,
}

// Kept (6): no array, since document 000 names each signal, Byte0 to Byte5, and a field is a signal's.
#[derive(Clone, Copy)]
pub struct EvId {
    pub byte0: u8,
    pub byte1: u8,
    pub byte2: u8,
    pub byte3: u8,
    pub byte4: u8,
    pub byte5: u8,
}

// ---- messages of the charger that document 001 lays out alike: the duty cycle in whole tenths, temperatures in °C

#[derive(Clone, Copy)]
pub struct SequenceControl {
    pub authorisation: Permission,
    pub chademo: Button,
    pub done: Step,
    pub valid: Validity,
    pub parameters: Step,
    pub stop: Button,
}

#[derive(Clone, Copy)]
pub struct SeccOutputs {
    pub output1: bool,
    pub output2: bool,
    pub output3: bool,
    pub output4: bool,
    pub reserved: u64,
}

#[derive(Clone, Copy)]
pub struct CuiInputs {
    pub switch0: bool,
    pub switch1: bool,
    pub switch2: bool,
    pub switch3: bool,
    pub switch4: bool,
    pub switch5: bool,
    pub reserved: u64,
    pub colibri: i16,
    pub cpu: i16,
    pub pistol1: i16,
    pub pistol2: i16,
}

#[derive(Clone, Copy)]
pub struct SeccInputs {
    pub input1: bool,
    pub input2: bool,
    pub input3: bool,
    pub input4: bool,
    pub reserved: u64,
    pub cpu: i16,
    pub pistol1: i16,
    pub pistol2: i16,
}

#[derive(Clone, Copy)]
pub struct SpccInputs {
    pub input1: bool,
    pub input2: bool,
    pub input3: bool,
    pub input4: bool,
    pub reserved: u64,
    pub cpu0: i16,
    pub cpu1: i16,
    pub pt1ka: i16,
    pub pt1kb: i16,
    pub pt1ksc: i16,
    pub pt1ksd: i16,
}

#[derive(Clone, Copy)]
pub struct CcsExtraInformation {
    pub state: PilotState,
    pub duty: u16,
    pub reserved: u64,
}

#[derive(Clone, Copy)]
pub struct McsExtraInformation {
    pub ce: CeState,
    pub id: Mating,
    pub reserved: u64,
}

// ---- messages about the vehicle: volts and amperes in whole tenths, power in kW, energy in kWh, charge in %

#[derive(Clone, Copy)]
pub struct EvInformationBattery {
    pub capacity: u16,
    pub present: u8,
    pub minimum: u8,
    pub target: u8,
    pub maximum: u8,
}

#[derive(Clone, Copy)]
pub struct EvInformationVoltages {
    pub minimum: u16,
    pub maximum: u16,
    pub present: u16,
}

// What a vehicle can charge with, and what it can be discharged with: two messages of one layout.
#[derive(Clone, Copy)]
pub struct EvInformationLimits {
    pub mincurrent: u16,
    pub maxcurrent: u16,
    pub minpower: u16,
    pub maxpower: u16,
}

#[derive(Clone, Copy)]
pub struct EvInformationEnergy {
    pub minimum: i16,
    pub target: i16,
    pub maximum: i16,
}

#[derive(Clone, Copy)]
pub struct OcppControl {
    pub target: i16,
}

// ---- messages of the safety controller and its host: a duty is the raw number of tenths of a percent, above 1,000 too, and a temperature that of tenths of
// a degree

#[derive(Clone, Copy)]
pub struct ChargeControl1 {
    pub duty: u16,
    pub pwm: bool,
    pub contactor1: bool,
    pub contactor2: bool,
}

#[derive(Clone, Copy)]
pub struct ChargeState1 {
    pub duty: u16,
    pub pwm: bool,
    pub cp: CpState,
    pub short: bool,
    pub diode: bool,
    pub pp: PpState,
    pub contactor1: bool,
    pub contactor2: bool,
    pub error1: bool,
    pub error2: bool,
    pub estop1: bool,
    pub estop2: bool,
    pub estop3: bool,
    pub imdabort: bool,
    pub imdfailure: bool,
}

// Kept (2, 6): no array of probes, since document 004 names each signal, and a field is a signal's.
#[derive(Clone, Copy)]
pub struct Pt1000State {
    pub temperature1: i16,
    pub stopped1: bool,
    pub failed1: bool,
    pub temperature2: i16,
    pub stopped2: bool,
    pub failed2: bool,
    pub temperature3: i16,
    pub stopped3: bool,
    pub failed3: bool,
    pub temperature4: i16,
    pub stopped4: bool,
    pub failed4: bool,
}

// ---- the kinds, by their names
pub use message_laws::page_write::page_table::newer_kinds::{
    BATTERY, CCS, CHANGE, CHARGE_LIMITS, CONTROL, CONTROLLER, CUI, DISCHARGE_LIMITS, ENERGY,
    FINISHED, ID, MCS, OCPP, OUTPUTS, PARAMETERS, PROBES, SAFETY_CONTROL, SAFETY_STATE, SECC,
    SEQUENCE, SESSION, SPCC, STATUS, STOP, VOLTAGES,
};

#[derive(Clone, Copy)]
pub enum Message {
    Status(PowerModulesStatus),
    Parameters(DcPowerParameters),
    Controller(ControllerStatus),
    Session(NewChargeSession),
    Change(ChargeStatusChange),
    Control(DcPowerControl),
    Finished(ChargeSessionFinished),
    Stop(EmergencyStop),
    Id(EvId),
    SafetyControl(ChargeControl1),
    SafetyState(ChargeState1),
    Probes(Pt1000State),
    Sequence(SequenceControl),
    Outputs(SeccOutputs),
    Battery(EvInformationBattery),
    Voltages(EvInformationVoltages),
    ChargeLimits(EvInformationLimits),
    DischargeLimits(EvInformationLimits),
    Energy(EvInformationEnergy),
    Cui(CuiInputs),
    Secc(SeccInputs),
    Spcc(SpccInputs),
    Ccs(CcsExtraInformation),
    Mcs(McsExtraInformation),
    Ocpp(OcppControl),
}

// Kept (4): `usize::from(m)` would not say which number of a message it is; kinds number the table's rows, and C hands them out.
pub fn kind_of(m: Message) -> usize
    ensures { result ≡ kind_of m }
{
    match m {
        Message::Status(_) => STATUS,
        Message::Parameters(_) => PARAMETERS,
        Message::Controller(_) => CONTROLLER,
        Message::Session(_) => SESSION,
        Message::Change(_) => CHANGE,
        Message::Control(_) => CONTROL,
        Message::Finished(_) => FINISHED,
        Message::Stop(_) => STOP,
        Message::Id(_) => ID,
        Message::SafetyControl(_) => SAFETY_CONTROL,
        Message::SafetyState(_) => SAFETY_STATE,
        Message::Probes(_) => PROBES,
        Message::Sequence(_) => SEQUENCE,
        Message::Outputs(_) => OUTPUTS,
        Message::Battery(_) => BATTERY,
        Message::Voltages(_) => VOLTAGES,
        Message::ChargeLimits(_) => CHARGE_LIMITS,
        Message::DischargeLimits(_) => DISCHARGE_LIMITS,
        Message::Energy(_) => ENERGY,
        Message::Cui(_) => CUI,
        Message::Secc(_) => SECC,
        Message::Spcc(_) => SPCC,
        Message::Ccs(_) => CCS,
        Message::Mcs(_) => MCS,
        Message::Ocpp(_) => OCPP,
    }
}

// The raw numbers of a message's signals, and 0 past them; numbers past the sixteenth are left out.
// Kept (6): no heap and fixed memory is a rule of the project, and no message has more than `SIGNALS`.
pub fn padded<const N: usize>(raws: [i64; N]) -> Raws
    ensures { result ≡ pad signal_count raws.entry }
{
    let mut f = [0; SIGNALS];
    let n = N.min(SIGNALS);
    f[..n].copy_from_slice(&raws[..n]);
    f
}
