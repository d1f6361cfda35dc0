// A message of its kind's number: of its signals' raw numbers, and of a payload number. For the reader, and for what hands out messages that it keeps by
// number.
#![tactic(auto)]

ghost use Rattle.std.specs.Prelude.{◌≡◌};
ghost use Rattle.message_fields.specs.Fields.{at};
ghost use Rattle.message_build.specs.Built.{built_of, message_of};

use message_charger::message_parts;
use message_types::*;
use page_write::Raws;

// The message of a kind; for a number that is no kind, the last one.
// Kept (7): a kind says which message is made, and each case has a type and a maker of its own, so no table can hold these.
#[tactic(auto, unfolding(crate::specs::Built::built_of))]
pub fn built(kind: usize, f: Raws) -> Message
    ensures { result ≡ built_of kind (at f) }
{
    match kind {
        STATUS => Message::Status(message_parts::status(f)),
        PARAMETERS => Message::Parameters(message_parts::parameters(f)),
        CONTROLLER => Message::Controller(message_charger::build::controller(f)),
        SESSION => Message::Session(message_parts::session(f)),
        CHANGE => Message::Change(message_charger::build::change(f)),
        CONTROL => Message::Control(message_parts::control(f)),
        FINISHED => Message::Finished(message_charger::build::finished(f)),
        STOP => Message::Stop(message_charger::build::stop(f)),
        ID => Message::Id(message_charger::build::ev_id(f)),
        SAFETY_CONTROL => Message::SafetyControl(message_safety::build::safety_control(f)),
        SAFETY_STATE => Message::SafetyState(message_safety::build::safety_state(f)),
        PROBES => Message::Probes(message_probes::build::probes(f)),
        SEQUENCE => Message::Sequence(message_sequence::build::sequence(f)),
        OUTPUTS => Message::Outputs(message_sequence::build::outputs(f)),
        BATTERY => Message::Battery(message_vehicle::build::battery(f)),
        VOLTAGES => Message::Voltages(message_vehicle::build::voltages(f)),
        CHARGE_LIMITS => Message::ChargeLimits(message_vehicle::build::limits(f)),
        DISCHARGE_LIMITS => Message::DischargeLimits(message_vehicle::build::limits(f)),
        ENERGY => Message::Energy(message_vehicle::build::energy(f)),
        CUI => Message::Cui(message_inputs::build::cui(f)),
        SECC => Message::Secc(message_inputs::build::secc(f)),
        SPCC => Message::Spcc(message_extra::build::spcc(f)),
        CCS => Message::Ccs(message_extra::build::ccs(f)),
        MCS => Message::Mcs(message_extra::build::mcs(f)),
        _ => Message::Ocpp(message_vehicle::build::ocpp(f)),
    }
}

// The message that a payload number of a kind reads as.
// Kept (2): older_build's is this line too; a trait that both share would ask `built` of the two enums with its definition, and stand in a crate below both.
#[tactic(auto, unfolding(crate::specs::Built::message_of))]
pub fn message_of(kind: usize, number: u64) -> Message
    ensures { result ≡ message_of kind number }
{
    built(kind, page_write::raws_of(kind, number))
}
