// A message of its signals' raw numbers, in the table's order.
// Kept (2, 4): tried as a trait of both functions, with its two definitions, on the messages of this crate: of ChargeControl1 an impl is 23 lines where the two
// functions are 20, and it may stand only where the trait does or the type.
ghost use Rattle.std.specs.Prelude.{◌≡◌};
ghost use Rattle.message_fields.specs.Fields.{at};
ghost use Rattle.message_safety.specs.Build.{safety_control_of, safety_state_of};

use message_fields::{duty, flag};
use message_types::labels::Label;
use message_types::{ChargeControl1, ChargeState1};
use page_write::Raws;

pub fn safety_control(f: Raws) -> ChargeControl1
    ensures { result ≡ safety_control_of (at f) }
{
    ChargeControl1 {
        duty: duty(f[0]),
        pwm: flag(f[1]),
        contactor1: flag(f[2]),
        contactor2: flag(f[3]),
    }
}

pub fn safety_state(f: Raws) -> ChargeState1
    ensures { result ≡ safety_state_of (at f) }
{
    ChargeState1 {
        duty: duty(f[0]),
        pwm: flag(f[1]),
        cp: Label::of_raw(f[2]),
        short: flag(f[3]),
        diode: flag(f[4]),
        pp: Label::of_raw(f[5]),
        contactor1: flag(f[6]),
        contactor2: flag(f[7]),
        error1: flag(f[8]),
        error2: flag(f[9]),
        estop1: flag(f[10]),
        estop2: flag(f[11]),
        estop3: flag(f[12]),
        imdabort: flag(f[13]),
        imdfailure: flag(f[14]),
    }
}
