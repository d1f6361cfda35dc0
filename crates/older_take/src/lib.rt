// The raw numbers of a message of the older interface, and whether each of its values has one. For the writer.
#![tactic(auto)]

ghost use Rattle.std.specs.Prelude.{◌≡◌};
ghost use Rattle.page_write.specs.Raws.{pad};
ghost use Rattle.page_table.specs.Table.{signal_count};
ghost use Rattle.older_take.specs.Take.{raws_of, has_raws};

use older_types::Message;
use page_write::Raws;

// Kept (7): a message's case says which numbers it has, which is what the enum is for; the cases have types of their own, so no table can hold these.
#[tactic(auto, unfolding(crate::specs::Take::raws_of))]
pub fn raws(m: Message) -> Raws
    ensures { result ≡ pad signal_count (raws_of m) }
{
    match m {
        Message::SafetyControl(s) => message_safety::take::safety_control_raws(s),
        Message::SafetyState(s) => message_safety::take::safety_state_raws(s),
        Message::Probes(s) => message_probes::take::probes_raws(s),
        Message::Status(s) => message_charger::take::status_raws(s),
        Message::Limits(s) => older_power::take::limits_raws(s),
        Message::Sequence(s) => message_sequence::take::sequence_raws(s),
        Message::Outputs(s) => message_sequence::take::outputs_raws(s),
        Message::Session(s) => older_power::take::session_raws(s),
        Message::Insulation(s) => older_power::take::insulation_raws(s),
        Message::Precharge(s) => older_power::take::precharge_raws(s),
        Message::Change(s) => message_charger::take::change_raws(s),
        Message::Charging(s) => older_power::take::charging_raws(s),
        Message::Stop(s) => message_charger::take::stop_raws(s),
        Message::Finished(s) => message_charger::take::finished_raws(s),
        Message::Controller(s) => message_charger::take::state_raws(s),
        Message::Cui(s) => message_inputs::take::cui_raws(s),
        Message::Secc(s) => message_inputs::take::secc_raws(s),
        Message::Id(s) => message_charger::take::id_raws(s),
        Message::Spcc(s) => message_extra::take::spcc_raws(s),
        Message::Ccs(s) => message_extra::take::ccs_raws(s),
        Message::Mcs(s) => message_extra::take::mcs_raws(s),
    }
}

// Whether each value has a raw number: insulation and a battery's capacity are even.
// Kept (1): as message_take's.
pub fn has_raws(m: Message) -> bool
    ensures { result ≡ has_raws m }
{
    match m {
        Message::Status(s) => s.insulation % 2 == 0,
        Message::Session(s) => s.capacity % 2 == 0,
        _ => true,
    }
}
