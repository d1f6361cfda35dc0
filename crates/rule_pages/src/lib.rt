// What a frame is to 01's rules, whichever interface's pages it is read by (02, Req 11): which of their questions it answers, what it then says in the words of
// 000, and where a post keeps the latest of its kind. So that each rule is one text for posts of either interface. For the rules and the post's step.
#![tactic(auto)]

ghost use Rattle.std.specs.Prelude.{◌≡◌};
ghost use Rattle.message_fields.specs.Fields.{word_of};
ghost use Rattle.rule_pages.specs.Roles.{role_of};
ghost use Rattle.rule_pages.specs.Said.{status_by, opening_by, told_by, limits_in, limits_by, acting, command_by};
ghost use Rattle.rule_pages.specs.Places.{place_by};

use message_fields::word;
use older_types::message_types::{
    CONTROL, CONTROLLER, DcPowerControl, DcPowerParameters, FINISHED, LowerOutput,
    NewChargeSession, OutputContactors, PARAMETERS, PowerFunction, PowerModulesStatus, SESSION,
    STATUS, STOP, SetpointsMode, padded,
};
use older_types::{PowerModulesLimits, message_types};

// The latest frames that a post keeps: as many as the newer interface has kinds.
pub const PLACES: usize = 25;

// ---- what a frame is asked for

// Kept (1): `Other` is a role as the rest are: as an `Option<Role>` no plainer, since every match on what a frame is would name a case within a case.
#[derive(Clone, Copy)]
pub enum Role {
    Other,
    Status,
    Limits,
    Controller,
    Opening,
    Command,
    Finished,
    Stop,
}

// The role of a kind.
impl From<usize> for Role {
    ghost from_gives = { λ kind r. r ≡ role_of kind };

    // Kept (4): the conversion itself, by `From`.
    #[tactic(auto, unfolding(crate::specs::Roles::role_of))]
    fn from(kind: usize) -> Role {
        match kind {
            STATUS | older_types::STATUS => Role::Status,
            PARAMETERS | older_types::LIMITS => Role::Limits,
            CONTROLLER | older_types::CONTROLLER => Role::Controller,
            SESSION | older_types::SESSION => Role::Opening,
            CONTROL | older_types::INSULATION | older_types::PRECHARGE | older_types::CHARGING => {
                Role::Command
            }
            FINISHED | older_types::FINISHED => Role::Finished,
            STOP | older_types::STOP => Role::Stop,
            _ => Role::Other,
        }
    }
}

// ---- what it says
// Kept (5): kind and number go apart: docs/PROMISES.md names the four functions of what a frame says, and theirs are the two that an event and a slot have.

// Both documents lay Power_Modules_Status out alike, and protocol and plug of New_Charge_Session: one reading serves both (proofs/Alike.antt).
pub fn status_by(kind: usize, number: u64) -> PowerModulesStatus
    ensures { result ≡ status_by kind number }
{
    message_parts::status_in(number)
}

pub fn opening_by(kind: usize, number: u64) -> NewChargeSession
    ensures { result ≡ opening_by kind number }
{
    message_parts::session_in(number)
}

// A current of 0 or less says 0.
fn positive(z: i16) -> u16
    ensures { result ≡ word_of z }
{
    word(i64::from(z))
}

fn told(m: PowerModulesLimits) -> DcPowerParameters
    ensures { result ≡ told_by m }
{
    DcPowerParameters {
        voltage: m.voltage,
        charge: positive(m.current),
        discharge: 0,
        target: 0,
    }
}

// Kept (4): a payload number says no kind, so that no `From` of it could know whose message it is.
// Kept (3): each place is written out, so that it is a constant, as in `message_parts`: by `raws_of` or a loop a row would be looked for when the program runs.
#[tactic(auto, unfolding(crate::specs::Said::limits_in, page_write::specs::Raws::pad))]
fn limits_in(number: u64) -> PowerModulesLimits
    ensures { result ≡ limits_in number }
{
    older_power::build::limits(padded([
        page_write::raw_of(older_types::LIMITS, 0, number),
        page_write::raw_of(older_types::LIMITS, 1, number),
        page_write::raw_of(older_types::LIMITS, 2, number),
    ]))
}

#[tactic(auto, unfolding(crate::specs::Said::limits_by))]
pub fn limits_by(kind: usize, number: u64) -> DcPowerParameters
    ensures { result ≡ limits_by kind number }
{
    if kind == older_types::LIMITS {
        told(limits_in(number))
    } else {
        message_parts::parameters_in(number)
    }
}

// Every field is named, as no label of the papers is one by default.
fn acting_as(f: PowerFunction) -> DcPowerControl
    ensures { result ≡ acting f }
{
    DcPowerControl {
        target: 0,
        max: 0,
        min: 0,
        function: f,
        reserved: false,
        mode: SetpointsMode::TargetMode,
        contactors: OutputContactors::Open,
        lowering: LowerOutput::NoLowering,
    }
}

#[tactic(auto, unfolding(crate::specs::Said::command_by))]
pub fn command_by(kind: usize, number: u64) -> DcPowerControl
    ensures { result ≡ command_by kind number }
{
    match kind {
        older_types::INSULATION => acting_as(PowerFunction::InsulationTest),
        older_types::PRECHARGE => acting_as(PowerFunction::Precharge),
        older_types::CHARGING => acting_as(PowerFunction::PowerTransfer),
        _ => message_parts::control_in(number),
    }
}

// ---- where the latest frame of its kind is kept

// A number that is no kind has no place: PLACES or more.
// Kept (1): a number and no `Option`: docs/PROMISES.md names its definition, `stored` of the specs and the theorems on each place (`latest_shown_lem`)
// have it so, and who stores a frame tests the number alone.
#[tactic(auto, unfolding(crate::specs::Places::place_by))]
pub fn place_by(kind: usize) -> usize
    ensures { result ≡ place_by kind }
{
    if kind < older_types::STATUS {
        kind
    } else if kind < older_types::STOP {
        kind - older_types::STATUS
    } else if kind < message_types::SEQUENCE {
        kind - message_types::SAFETY_CONTROL
    } else {
        older_types::STATUS + (kind - message_types::SEQUENCE)
    }
}
