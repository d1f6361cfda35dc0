// A message of the older interface of its kind's number: of its signals' raw numbers, and of a payload number. For the reader.
#![tactic(auto)]

ghost use Rattle.std.specs.Prelude.{◌≡◌};
ghost use Rattle.message_fields.specs.Fields.{at};
ghost use Rattle.older_build.specs.Built.{built_of, message_of};

use message_charger::message_parts;
use older_types::*;
use page_write::Raws;

// The message of a kind; for a number that is no kind of the interface, the last one.
// Kept (7): a kind says which message is made, and each case has a type and a maker of its own, so no table can hold these.
#[tactic(auto, unfolding(crate::specs::Built::built_of))]
pub fn built(kind: usize, f: Raws) -> Message
    ensures { result ≡ built_of kind (at f) }
{
    match kind {
        SAFETY_CONTROL => Message::SafetyControl(message_safety::build::safety_control(f)),
        SAFETY_STATE => Message::SafetyState(message_safety::build::safety_state(f)),
        PROBES => Message::Probes(message_probes::build::probes(f)),
        STATUS => Message::Status(message_parts::status(f)),
        LIMITS => Message::Limits(older_power::build::limits(f)),
        SEQUENCE => Message::Sequence(message_sequence::build::sequence(f)),
        OUTPUTS => Message::Outputs(message_sequence::build::outputs(f)),
        SESSION => Message::Session(older_power::build::session(f)),
        INSULATION => Message::Insulation(older_power::build::insulation(f)),
        PRECHARGE => Message::Precharge(older_power::build::precharge(f)),
        CHANGE => Message::Change(message_charger::build::change(f)),
        CHARGING => Message::Charging(older_power::build::charging(f)),
        STOP => Message::Stop(message_charger::build::stop(f)),
        FINISHED => Message::Finished(message_charger::build::finished(f)),
        CONTROLLER => Message::Controller(message_charger::build::controller(f)),
        CUI => Message::Cui(message_inputs::build::cui(f)),
        SECC => Message::Secc(message_inputs::build::secc(f)),
        ID => Message::Id(message_charger::build::ev_id(f)),
        SPCC => Message::Spcc(message_extra::build::spcc(f)),
        CCS => Message::Ccs(message_extra::build::ccs(f)),
        _ => Message::Mcs(message_extra::build::mcs(f)),
    }
}

// The message that a payload number of a kind reads as.
// Kept (2): message_build's is this line too; a trait that both share would ask `built` of the two enums with its definition, and stand in a crate below both.
#[tactic(auto, unfolding(crate::specs::Built::message_of))]
pub fn message_of(kind: usize, number: u64) -> Message
    ensures { result ≡ message_of kind number }
{
    built(kind, page_write::raws_of(kind, number))
}
