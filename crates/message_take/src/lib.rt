// The raw numbers of a message of any kind, and whether each of its values has one. For the writer.
#![tactic(auto)]

ghost use Rattle.std.specs.Prelude.{◌≡◌};
ghost use Rattle.page_write.specs.Raws.{pad};
ghost use Rattle.page_table.specs.Table.{signal_count};
ghost use Rattle.message_take.specs.Take.{raws_of, has_raws};

use message_types::Message;
use page_write::Raws;

// Kept (7): a message's case says which numbers it has, which is what the enum is for; the cases have types of their own, so no table can hold these.
#[tactic(auto, unfolding(crate::specs::Take::raws_of))]
pub fn raws(m: Message) -> Raws
    ensures { result ≡ pad signal_count (raws_of m) }
{
    match m {
        Message::Status(s) => message_charger::take::status_raws(s),
        Message::Parameters(s) => message_charger::take::parameters_raws(s),
        Message::Controller(s) => message_charger::take::state_raws(s),
        Message::Session(s) => message_charger::take::session_raws(s),
        Message::Change(s) => message_charger::take::change_raws(s),
        Message::Control(s) => message_charger::take::control_raws(s),
        Message::Finished(s) => message_charger::take::finished_raws(s),
        Message::Stop(s) => message_charger::take::stop_raws(s),
        Message::Id(s) => message_charger::take::id_raws(s),
        Message::SafetyControl(s) => message_safety::take::safety_control_raws(s),
        Message::SafetyState(s) => message_safety::take::safety_state_raws(s),
        Message::Probes(s) => message_probes::take::probes_raws(s),
        Message::Sequence(s) => message_sequence::take::sequence_raws(s),
        Message::Outputs(s) => message_sequence::take::outputs_raws(s),
        Message::Battery(s) => message_vehicle::take::battery_raws(s),
        Message::Voltages(s) => message_vehicle::take::voltages_raws(s),
        Message::ChargeLimits(s) => message_vehicle::take::limits_raws(s),
        Message::DischargeLimits(s) => message_vehicle::take::limits_raws(s),
        Message::Energy(s) => message_vehicle::take::energy_raws(s),
        Message::Cui(s) => message_inputs::take::cui_raws(s),
        Message::Secc(s) => message_inputs::take::secc_raws(s),
        Message::Spcc(s) => message_extra::take::spcc_raws(s),
        Message::Ccs(s) => message_extra::take::ccs_raws(s),
        Message::Mcs(s) => message_extra::take::mcs_raws(s),
        Message::Ocpp(s) => message_vehicle::take::ocpp_raws(s),
    }
}

// Whether each value has a raw number: insulation is even.
// Kept (1): beside `raws` and not an Option of it: each has a definition of its own in the theorems that docs/PROMISES.md names (`writable`), and the writer
// alone asks both.
pub fn has_raws(m: Message) -> bool
    ensures { result ≡ has_raws m }
{
    match m {
        Message::Status(s) => s.insulation % 2 == 0,
        _ => true,
    }
}
