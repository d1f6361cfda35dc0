// The form of field that document 001 has beside those of message_fields: a battery's capacity. For the crates that make messages of raw numbers.
#![tactic(auto)]

ghost use Rattle.std.specs.Prelude.{◌≡◌};
ghost use Rattle.older_fields.specs.Forms.{capacity_of, capacity_raw};

// Document 001, Battery_Capacity: twice the raw number in kWh.
// Kept (2): a name of its own for the insulation's rule, here and in `capacity_raw`: the unit is another one, and the definitions have these names.
pub fn capacity(z: i64) -> u16
    ensures { result ≡ capacity_of z }
{
    message_fields::kilohms(z)
}

pub fn capacity_raw(x: u16) -> i64
    ensures { result ≡ capacity_raw x }
{
    message_fields::kilohms_raw(x)
}
