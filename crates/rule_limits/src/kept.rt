// Limits as they are handed in and out, and as a post keeps them.
// Kept (2): the sensor kind here and the interface in page_table are two types with two cases each, and each has its own number for them: a function over both
// would need both tables all the same.
ghost use Rattle.std.specs.Prelude.{◌≡◌};
ghost use Rattle.rule_limits.specs.Sensor.{sensor_number, sensor_of, plain_of, limits_of};

use crate::{Interface, Limits, PlainLimits, Sensor};

impl From<Sensor> for u32 {
    ghost from_gives = { λ x n. n ≡ sensor_number x };

    fn from(x: Sensor) -> u32 {
        x as u32
    }
}

// Set-up lets no number but 0 and 1 in.
impl From<u32> for Sensor {
    ghost from_gives = { λ n x. x ≡ sensor_of n };

    // Kept (4): the conversion itself, by `From`; every other number is the first kind (`sensor_of`), so that it is no `TryFrom`.
    fn from(n: u32) -> Sensor {
        if n == 1 {
            Sensor::YesNo
        } else {
            Sensor::Measuring
        }
    }
}

impl From<Limits> for PlainLimits {
    ghost from_gives = { λ l p. p ≡ plain_of l };

    fn from(l: Limits) -> PlainLimits {
        PlainLimits {
            voltage: l.voltage,
            charge: l.charge,
            discharge: l.discharge,
            silence: l.silence,
            sensor: u32::from(l.sensor),
            interface: u32::from(l.interface),
        }
    }
}

impl From<PlainLimits> for Limits {
    ghost from_gives = { λ p l. l ≡ limits_of p };

    fn from(p: PlainLimits) -> Limits {
        Limits {
            voltage: p.voltage,
            charge: p.charge,
            discharge: p.discharge,
            silence: p.silence,
            sensor: Sensor::from(p.sensor),
            interface: Interface::from(p.interface),
        }
    }
}
