// The fields of the messages about the vehicle, in words.
use crate::tenths::Tenths;
use message_types::{
    EvInformationBattery, EvInformationEnergy, EvInformationLimits, EvInformationVoltages,
    OcppControl,
};
use std::fmt;

pub fn battery<W: fmt::Write>(f: &mut fmt::Formatter<W>, m: EvInformationBattery) -> fmt::Result {
    write!(
        f,
        "{} kWh, {} %, {} %, {} %, {} %",
        m.capacity, m.present, m.minimum, m.target, m.maximum
    )
}

pub fn voltages<W: fmt::Write>(f: &mut fmt::Formatter<W>, m: EvInformationVoltages) -> fmt::Result {
    write!(
        f,
        "{} V, {} V, {} V",
        Tenths::of(m.minimum),
        Tenths::of(m.maximum),
        Tenths::of(m.present)
    )
}

pub fn limits<W: fmt::Write>(f: &mut fmt::Formatter<W>, m: EvInformationLimits) -> fmt::Result {
    write!(
        f,
        "{} A, {} A, {} kW, {} kW",
        Tenths::of(m.mincurrent),
        Tenths::of(m.maxcurrent),
        m.minpower,
        m.maxpower
    )
}

pub fn energy<W: fmt::Write>(f: &mut fmt::Formatter<W>, m: EvInformationEnergy) -> fmt::Result {
    write!(f, "{} kWh, {} kWh, {} kWh", m.minimum, m.target, m.maximum)
}

pub fn ocpp<W: fmt::Write>(f: &mut fmt::Formatter<W>, m: OcppControl) -> fmt::Result {
    write!(f, "{} A", Tenths::of(m.target))
}
