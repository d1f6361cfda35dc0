// The pages' names of labels and of kinds: 000's, and of the safety controller 004's.
use message_types::{
    Button, CeState, ChargeStatus, ControllerState, CpState, LowerOutput, Mating, Message,
    OutputContactors, Permission, PilotState, Plug, PowerFunction, PpState, Protocol, SessionEnd,
    SetpointsMode, Step, StopOrigin, SystemEnable, Validity,
};
use std::fmt;

// A type of labels, each beside its name in the pages.
pub trait Named: Copy + PartialEq + 'static {
    const NAMES: &'static [(Self, &'static str)];
}

// A label by its name.
#[derive(Clone, Copy)]
pub struct Name<L>(pub L);

impl<L: Named> fmt::Display for Name<L> {
    fn fmt<W: fmt::Write>(&self, f: &mut fmt::Formatter<W>) -> fmt::Result {
        L::NAMES
            .iter()
            .find(|row| row.0 == self.0)
            .map_or(Ok(()), |row| f.write_str(row.1))
    }
}

impl Named for SystemEnable {
    const NAMES: &'static [(Self, &'static str)] = &[
        (SystemEnable::NotAllowed, "Not_Allowed"),
        (SystemEnable::Allowed, "Allowed"),
    ];
}

impl Named for ControllerState {
    const NAMES: &'static [(Self, &'static str)] = &[
        (ControllerState::Initialising, "Initialising"),
        (ControllerState::WaitingForPev, "Waiting_For_PEV"),
        (
            ControllerState::NegotiatingConnection,
            "Negotiating_Connection",
        ),
        (
            ControllerState::ConnectedWithFullInfo,
            "Connected_With_Full_Info",
        ),
        (ControllerState::InsulationTest, "Insulation_Test"),
        (ControllerState::Precharge, "Precharge"),
        (ControllerState::WaitingForCharge, "Waiting_For_Charge"),
        (ControllerState::Charging, "Charging"),
        (ControllerState::EndingCharge, "Ending_Charge"),
        (ControllerState::WeldingDetection, "Welding_Detection"),
        (
            ControllerState::ClosingCommunication,
            "Closing_Communication",
        ),
        (
            ControllerState::CcsAuthorisationProcess,
            "CCS_Authorisation_Process",
        ),
        (ControllerState::NotAvailable, "Not_Available"),
        (ControllerState::ChargePause, "Charge_Pause"),
    ];
}

impl Named for Protocol {
    const NAMES: &'static [(Self, &'static str)] = &[
        (Protocol::CcsDin70121v2012, "CCS_DIN_70121_2012_v2"),
        (Protocol::CcsIso15118v2010, "CCS_ISO_15118_2010_v1"),
        (Protocol::CcsIso15118v2013, "CCS_ISO_15118_2013_v2"),
        (Protocol::Chademo09, "CHAdeMO_v0.9"),
        (Protocol::Chademo10, "CHAdeMO_v1.0-v1.1-v1.2"),
        (Protocol::Chademo20, "CHAdeMO_v2.0"),
        (Protocol::CcsPwm, "CCS_PWM"),
        (Protocol::CcsIso15118v2022, "CCS_ISO_15118_2022"),
    ];
}

impl Named for Plug {
    const NAMES: &'static [(Self, &'static str)] = &[
        (Plug::CcsDcCore, "CCS_DC_Core"),
        (Plug::CcsDcExtended, "CCS_DC_Extended"),
        (Plug::Chademo, "CHAdeMO"),
        (Plug::CcsAc, "CCS_AC"),
        (Plug::Mcs, "MCS"),
    ];
}

impl Named for ChargeStatus {
    const NAMES: &'static [(Self, &'static str)] = &[
        (ChargeStatus::ChargeStopped, "Charge_Stopped"),
        (ChargeStatus::ChargeStarted, "Charge_Started"),
    ];
}

impl Named for PowerFunction {
    const NAMES: &'static [(Self, &'static str)] = &[
        (PowerFunction::Off, "Off"),
        (PowerFunction::Standby, "Standby"),
        (PowerFunction::InsulationTest, "Insulation_Test"),
        (PowerFunction::Precharge, "Precharge"),
        (PowerFunction::PowerTransfer, "Power_Transfer"),
    ];
}

impl Named for SetpointsMode {
    const NAMES: &'static [(Self, &'static str)] = &[
        (SetpointsMode::TargetMode, "Target_Mode"),
        (SetpointsMode::RangeMode, "Range_Mode"),
    ];
}

impl Named for OutputContactors {
    const NAMES: &'static [(Self, &'static str)] = &[
        (OutputContactors::Open, "Open"),
        (OutputContactors::Close, "Close"),
    ];
}

impl Named for LowerOutput {
    const NAMES: &'static [(Self, &'static str)] = &[
        (LowerOutput::NoLowering, "No_Lowering"),
        (LowerOutput::Lowering, "Lowering"),
    ];
}

impl Named for SessionEnd {
    const NAMES: &'static [(Self, &'static str)] = &[
        (SessionEnd::CleanStop, "Clean_Stop"),
        (SessionEnd::RushedStop, "Rushed_Stop"),
    ];
}

impl Named for StopOrigin {
    const NAMES: &'static [(Self, &'static str)] = &[
        (StopOrigin::Evse, "EVSE"),
        (StopOrigin::Pev, "PEV"),
    ];
}

impl Named for CpState {
    const NAMES: &'static [(Self, &'static str)] = &[
        (CpState::Unknown, "Unknown"),
        (CpState::A, "A"),
        (CpState::B, "B"),
        (CpState::C, "C"),
        (CpState::D, "D"),
        (CpState::E, "E"),
        (CpState::F, "F"),
        (CpState::Invalid, "Invalid"),
    ];
}

impl Named for PpState {
    const NAMES: &'static [(Self, &'static str)] = &[
        (PpState::NoCable, "NoCableDetected"),
        (PpState::Amps13, "13A"),
        (PpState::Amps20, "20A"),
        (PpState::Amps32, "32A"),
        (PpState::Amps63, "63/70A"),
        (PpState::Type1, "Type1_Connected"),
        (PpState::Type1Pressed, "Type1_ConnectedButtonPressed"),
        (PpState::Error, "Error"),
    ];
}

impl Named for Permission {
    const NAMES: &'static [(Self, &'static str)] = &[
        (Permission::NotAllowed, "Not_Allowed"),
        (Permission::Allowed, "Allowed"),
    ];
}

impl Named for Button {
    const NAMES: &'static [(Self, &'static str)] = &[
        (Button::NotPressed, "Not_Pressed"),
        (Button::Pressed, "Pressed"),
    ];
}

impl Named for Step {
    const NAMES: &'static [(Self, &'static str)] = &[
        (Step::NotDone, "Not_Done"),
        (Step::Done, "Done"),
    ];
}

impl Named for Validity {
    const NAMES: &'static [(Self, &'static str)] = &[
        (Validity::Invalid, "Invalid"),
        (Validity::Valid, "Valid"),
    ];
}

impl Named for PilotState {
    const NAMES: &'static [(Self, &'static str)] = &[
        (PilotState::EOrF, "E_or_F"),
        (PilotState::D, "D"),
        (PilotState::C, "C"),
        (PilotState::B, "B"),
        (PilotState::A, "A"),
    ];
}

impl Named for CeState {
    const NAMES: &'static [(Self, &'static str)] = &[
        (CeState::Undefined, "Undefined"),
        (CeState::A, "A"),
        (CeState::B0, "B0"),
        (CeState::B0Aux, "B0_Aux"),
        (CeState::B, "B"),
        (CeState::BAux, "B_Aux"),
        (CeState::C, "C"),
        (CeState::CAux, "C_Aux"),
        (CeState::Ec, "EC"),
        (CeState::E, "E"),
    ];
}

impl Named for Mating {
    const NAMES: &'static [(Self, &'static str)] = &[
        (Mating::Unmated, "Unmated"),
        (Mating::Mated, "Mated"),
        (Mating::MatedEvAux, "Mated_EVAux"),
        (Mating::MatedEvseAux, "Mated_EVSEAux"),
    ];
}

// The name of a message's kind.
pub fn kind(m: Message) -> &'static str {
    match m {
        Message::Status(_) => "Power_Modules_Status",
        Message::Parameters(_) => "DC_Power_Parameters",
        Message::Controller(_) => "Advantics_Controller_Status",
        Message::Session(_) => "New_Charge_Session",
        Message::Change(_) => "Charge_Status_Change",
        Message::Control(_) => "DC_Power_Control",
        Message::Finished(_) => "Charge_Session_Finished",
        Message::Stop(_) => "Emergency_Stop",
        Message::Id(_) => "EV_ID_CCS_Part2_DIN",
        Message::SafetyControl(_) => "ChargeControl1",
        Message::SafetyState(_) => "ChargeState1",
        Message::Probes(_) => "PT1000State",
        Message::Sequence(_) => "Sequence_Control",
        Message::Outputs(_) => "ADM_CS_SECC_Outputs",
        Message::Battery(_) => "EV_Information_Battery",
        Message::Voltages(_) => "EV_Information_Voltages",
        Message::ChargeLimits(_) => "EV_Information_Charge_Limits",
        Message::DischargeLimits(_) => "EV_Information_Discharge_Limits",
        Message::Energy(_) => "EV_Information_Energy",
        Message::Cui(_) => "ADM_CO_CUI1_Inputs",
        Message::Secc(_) => "ADM_CS_SECC_Inputs",
        Message::Spcc(_) => "ADM_CS_SPCC_Inputs",
        Message::Ccs(_) => "CCS_Extra_Information",
        Message::Mcs(_) => "MCS_Extra_Information",
        Message::Ocpp(_) => "OCPP_Control",
    }
}
