// The raw numbers of each message's signals, in the table's order.
// Kept (2): the messages' fields have names of their own, so each function names its own; what they do alike, a number or a label as a raw number and 0 past
// the last, is message_fields', `Label`'s and `padded`.
// Kept (2): a trait of both functions is longer (message_safety/build.rt says by how much), and its impls would stand in the crate of the types.
ghost use Rattle.std.specs.Prelude.{◌≡◌};
ghost use Rattle.page_write.specs.Raws.{pad};
ghost use Rattle.page_write.specs.page_table.specs.Table.{signal_count};
ghost use Rattle.message_safety.specs.Take.{safety_control_raws, safety_state_raws};

use message_types::labels::Label;
use message_types::{ChargeControl1, ChargeState1, padded};
use page_write::Raws;

pub fn safety_control_raws(m: ChargeControl1) -> Raws
    ensures { result ≡ pad signal_count (safety_control_raws m) }
{
    padded([
        i64::from(m.duty),
        i64::from(m.pwm),
        i64::from(m.contactor1),
        i64::from(m.contactor2),
    ])
}

pub fn safety_state_raws(m: ChargeState1) -> Raws
    ensures { result ≡ pad signal_count (safety_state_raws m) }
{
    padded([
        i64::from(m.duty),
        i64::from(m.pwm),
        m.cp.raw(),
        i64::from(m.short),
        i64::from(m.diode),
        m.pp.raw(),
        i64::from(m.contactor1),
        i64::from(m.contactor2),
        i64::from(m.error1),
        i64::from(m.error2),
        i64::from(m.estop1),
        i64::from(m.estop2),
        i64::from(m.estop3),
        i64::from(m.imdabort),
        i64::from(m.imdfailure),
    ])
}
