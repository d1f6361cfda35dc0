// The label of a number and the number of a label, as the pages of 000 and 004 list them. A raw number without a label is refused before any of
// these is asked; the last label stands there.
// Kept (2, 4): each `of_number` is a page's own list. Tried on `Plug` as a constant array: of labels, asked by `get`, it proves and is two lines longer, names
// the last label twice, and fits no list with gaps; of pairs, searched by `find`, the proof stood open at `plug_of` of what is found. No `From`, which has one
// definition (`from_gives`) where a label has two, `label_of` and `number_of`; no `TryFrom`, since no number is without an answer; rt ci refuses impls that a
// macro writes.
ghost use Rattle.std.proofs.Common.{rules};
ghost use Rattle.std.specs.Prelude.{◌≡◌, ℕ, pos};
ghost use Rattle.message_fields.specs.Fields.{natural_of};
ghost use Rattle.message_types.specs.Labels.{enable_of, state_of, protocol_of, plug_of, status_of, function_of, mode_of, contactors_of, lowering_of, end_of, origin_of, cp_of, pp_of, permission_of, button_of, step_of, validity_of, pilot_of, ce_of, mating_of};
ghost use Rattle.message_types.specs.Labels.{enable_number, state_number, protocol_number, plug_number, status_number, function_number, mode_number, contactors_number, lowering_number, end_number, origin_number, cp_number, pp_number, permission_number, button_number, step_number, validity_number, pilot_number, ce_number, mating_number};

use crate::{
    Button, CeState, ChargeStatus, ControllerState, CpState, LowerOutput, Mating, OutputContactors,
    Permission, PilotState, Plug, PowerFunction, PpState, Protocol, SessionEnd, SetpointsMode,
    Step, StopOrigin, SystemEnable, Validity,
};
use message_fields::natural;

/// A type of labels: each has its number, under which a signal carries it.
pub trait Label: Copy {
    ghost number_of: { Self → ℕ };

    ghost label_of: { ℕ → Self };

    fn number(self) -> u8
        ensures { result ≡ number_of self };

    /// The label of a number; for a number without a label, the last one.
    fn of_number(x: u64) -> Self
        ensures { result ≡ label_of x };

    ghost is_labelled: { (l : Self) → label_of (number_of l) ≡ l };

    /// The label of its signal's raw number.
    final fn of_raw(z: i64) -> Self
        ensures { result ≡ label_of (natural_of z) }
    {
        Self::of_number(natural(z))
    }

    /// The raw number of its signal.
    final fn raw(self) -> i64
        ensures { result ≡ pos (number_of self) }
    {
        i64::from(self.number())
    }
}

impl Label for SystemEnable {
    ghost number_of = { enable_number };

    ghost label_of = { enable_of };

    ghost is_labelled = { Prim.search rules };

    fn number(self) -> u8 {
        self as u8
    }

    fn of_number(x: u64) -> Self {
        match x {
            0 => SystemEnable::NotAllowed,
            _ => SystemEnable::Allowed,
        }
    }
}

impl Label for ControllerState {
    ghost number_of = { state_number };

    ghost label_of = { state_of };

    ghost is_labelled = { Prim.search rules };

    fn number(self) -> u8 {
        self as u8
    }

    fn of_number(x: u64) -> Self {
        match x {
            0 => ControllerState::Initialising,
            1 => ControllerState::WaitingForPev,
            2 => ControllerState::NegotiatingConnection,
            3 => ControllerState::ConnectedWithFullInfo,
            4 => ControllerState::InsulationTest,
            5 => ControllerState::Precharge,
            6 => ControllerState::WaitingForCharge,
            7 => ControllerState::Charging,
            8 => ControllerState::EndingCharge,
            9 => ControllerState::WeldingDetection,
            10 => ControllerState::ClosingCommunication,
            11 => ControllerState::CcsAuthorisationProcess,
            12 => ControllerState::NotAvailable,
            _ => ControllerState::ChargePause,
        }
    }
}

impl Label for Protocol {
    ghost number_of = { protocol_number };

    ghost label_of = { protocol_of };

    ghost is_labelled = { Prim.search rules };

    fn number(self) -> u8 {
        self as u8
    }

    fn of_number(x: u64) -> Self {
        match x {
            0 => Protocol::CcsDin70121v2012,
            1 => Protocol::CcsIso15118v2010,
            2 => Protocol::CcsIso15118v2013,
            3 => Protocol::Chademo09,
            4 => Protocol::Chademo10,
            5 => Protocol::Chademo20,
            6 => Protocol::CcsPwm,
            _ => Protocol::CcsIso15118v2022,
        }
    }
}

impl Label for Plug {
    ghost number_of = { plug_number };

    ghost label_of = { plug_of };

    ghost is_labelled = { Prim.search rules };

    fn number(self) -> u8 {
        self as u8
    }

    fn of_number(x: u64) -> Self {
        match x {
            0 => Plug::CcsDcCore,
            1 => Plug::CcsDcExtended,
            2 => Plug::Chademo,
            3 => Plug::CcsAc,
            _ => Plug::Mcs,
        }
    }
}

impl Label for ChargeStatus {
    ghost number_of = { status_number };

    ghost label_of = { status_of };

    ghost is_labelled = { Prim.search rules };

    fn number(self) -> u8 {
        self as u8
    }

    fn of_number(x: u64) -> Self {
        match x {
            0 => ChargeStatus::ChargeStopped,
            _ => ChargeStatus::ChargeStarted,
        }
    }
}

impl Label for PowerFunction {
    ghost number_of = { function_number };

    ghost label_of = { function_of };

    ghost is_labelled = { Prim.search rules };

    fn number(self) -> u8 {
        self as u8
    }

    fn of_number(x: u64) -> Self {
        match x {
            0 => PowerFunction::Off,
            1 => PowerFunction::Standby,
            2 => PowerFunction::InsulationTest,
            4 => PowerFunction::Precharge,
            _ => PowerFunction::PowerTransfer,
        }
    }
}

impl Label for SetpointsMode {
    ghost number_of = { mode_number };

    ghost label_of = { mode_of };

    ghost is_labelled = { Prim.search rules };

    fn number(self) -> u8 {
        self as u8
    }

    fn of_number(x: u64) -> Self {
        match x {
            0 => SetpointsMode::TargetMode,
            _ => SetpointsMode::RangeMode,
        }
    }
}

impl Label for OutputContactors {
    ghost number_of = { contactors_number };

    ghost label_of = { contactors_of };

    ghost is_labelled = { Prim.search rules };

    fn number(self) -> u8 {
        self as u8
    }

    fn of_number(x: u64) -> Self {
        match x {
            0 => OutputContactors::Open,
            _ => OutputContactors::Close,
        }
    }
}

impl Label for LowerOutput {
    ghost number_of = { lowering_number };

    ghost label_of = { lowering_of };

    ghost is_labelled = { Prim.search rules };

    fn number(self) -> u8 {
        self as u8
    }

    fn of_number(x: u64) -> Self {
        match x {
            0 => LowerOutput::NoLowering,
            _ => LowerOutput::Lowering,
        }
    }
}

impl Label for SessionEnd {
    ghost number_of = { end_number };

    ghost label_of = { end_of };

    ghost is_labelled = { Prim.search rules };

    fn number(self) -> u8 {
        self as u8
    }

    fn of_number(x: u64) -> Self {
        match x {
            0 => SessionEnd::CleanStop,
            _ => SessionEnd::RushedStop,
        }
    }
}

impl Label for StopOrigin {
    ghost number_of = { origin_number };

    ghost label_of = { origin_of };

    ghost is_labelled = { Prim.search rules };

    fn number(self) -> u8 {
        self as u8
    }

    fn of_number(x: u64) -> Self {
        match x {
            1 => StopOrigin::Evse,
            _ => StopOrigin::Pev,
        }
    }
}

impl Label for CpState {
    ghost number_of = { cp_number };

    ghost label_of = { cp_of };

    ghost is_labelled = { Prim.search rules };

    fn number(self) -> u8 {
        self as u8
    }

    fn of_number(x: u64) -> Self {
        match x {
            0 => CpState::Unknown,
            1 => CpState::A,
            2 => CpState::B,
            3 => CpState::C,
            4 => CpState::D,
            5 => CpState::E,
            6 => CpState::F,
            _ => CpState::Invalid,
        }
    }
}

impl Label for PpState {
    ghost number_of = { pp_number };

    ghost label_of = { pp_of };

    ghost is_labelled = { Prim.search rules };

    fn number(self) -> u8 {
        self as u8
    }

    fn of_number(x: u64) -> Self {
        match x {
            0 => PpState::NoCable,
            1 => PpState::Amps13,
            2 => PpState::Amps20,
            3 => PpState::Amps32,
            4 => PpState::Amps63,
            5 => PpState::Type1,
            6 => PpState::Type1Pressed,
            _ => PpState::Error,
        }
    }
}

impl Label for Permission {
    ghost number_of = { permission_number };

    ghost label_of = { permission_of };

    ghost is_labelled = { Prim.search rules };

    fn number(self) -> u8 {
        self as u8
    }

    fn of_number(x: u64) -> Self {
        match x {
            0 => Permission::NotAllowed,
            _ => Permission::Allowed,
        }
    }
}

impl Label for Button {
    ghost number_of = { button_number };

    ghost label_of = { button_of };

    ghost is_labelled = { Prim.search rules };

    fn number(self) -> u8 {
        self as u8
    }

    fn of_number(x: u64) -> Self {
        match x {
            0 => Button::NotPressed,
            _ => Button::Pressed,
        }
    }
}

impl Label for Step {
    ghost number_of = { step_number };

    ghost label_of = { step_of };

    ghost is_labelled = { Prim.search rules };

    fn number(self) -> u8 {
        self as u8
    }

    fn of_number(x: u64) -> Self {
        match x {
            0 => Step::NotDone,
            _ => Step::Done,
        }
    }
}

impl Label for Validity {
    ghost number_of = { validity_number };

    ghost label_of = { validity_of };

    ghost is_labelled = { Prim.search rules };

    fn number(self) -> u8 {
        self as u8
    }

    fn of_number(x: u64) -> Self {
        match x {
            0 => Validity::Invalid,
            _ => Validity::Valid,
        }
    }
}

impl Label for PilotState {
    ghost number_of = { pilot_number };

    ghost label_of = { pilot_of };

    ghost is_labelled = { Prim.search rules };

    fn number(self) -> u8 {
        self as u8
    }

    fn of_number(x: u64) -> Self {
        match x {
            0 => PilotState::EOrF,
            3 => PilotState::D,
            6 => PilotState::C,
            9 => PilotState::B,
            _ => PilotState::A,
        }
    }
}

impl Label for CeState {
    ghost number_of = { ce_number };

    ghost label_of = { ce_of };

    ghost is_labelled = { Prim.search rules };

    fn number(self) -> u8 {
        self as u8
    }

    fn of_number(x: u64) -> Self {
        match x {
            0 => CeState::Undefined,
            1 => CeState::A,
            2 => CeState::B0,
            3 => CeState::B0Aux,
            4 => CeState::B,
            5 => CeState::BAux,
            6 => CeState::C,
            7 => CeState::CAux,
            8 => CeState::Ec,
            _ => CeState::E,
        }
    }
}

impl Label for Mating {
    ghost number_of = { mating_number };

    ghost label_of = { mating_of };

    ghost is_labelled = { Prim.search rules };

    fn number(self) -> u8 {
        self as u8
    }

    fn of_number(x: u64) -> Self {
        match x {
            0 => Mating::Unmated,
            1 => Mating::Mated,
            2 => Mating::MatedEvAux,
            _ => Mating::MatedEvseAux,
        }
    }
}
