// The fields whose values are no raw numbers, of the messages that documents 000 and 001 lay out alike: temperatures and insulation. Each message's others
// are as the codec takes and makes them.
use crate::message::MOST;
use message_fields::{short, word};
use message_inputs::{build, take};
use message_types::{CuiInputs, PowerModulesStatus, SeccInputs, SpccInputs};

pub fn of_status(m: PowerModulesStatus) -> [i64; MOST] {
    let mut f = message_charger::take::status_raws(m);
    f[2] = i64::from(m.modules);
    f[3] = i64::from(m.enclosure);
    f[5] = i64::from(m.insulation);
    f
}

pub fn status(f: [i64; MOST]) -> PowerModulesStatus {
    let mut m = message_parts::status(f);
    m.modules = short(f[2]);
    m.enclosure = short(f[3]);
    m.insulation = word(f[5]);
    m
}

pub fn of_cui(m: CuiInputs) -> [i64; MOST] {
    let mut f = take::cui_raws(m);
    f[7] = i64::from(m.colibri);
    f[8] = i64::from(m.cpu);
    f[9] = i64::from(m.pistol1);
    f[10] = i64::from(m.pistol2);
    f
}

pub fn cui(f: [i64; MOST]) -> CuiInputs {
    let mut m = build::cui(f);
    m.colibri = short(f[7]);
    m.cpu = short(f[8]);
    m.pistol1 = short(f[9]);
    m.pistol2 = short(f[10]);
    m
}

pub fn of_secc(m: SeccInputs) -> [i64; MOST] {
    let mut f = take::secc_raws(m);
    f[5] = i64::from(m.cpu);
    f[6] = i64::from(m.pistol1);
    f[7] = i64::from(m.pistol2);
    f
}

pub fn secc(f: [i64; MOST]) -> SeccInputs {
    let mut m = build::secc(f);
    m.cpu = short(f[5]);
    m.pistol1 = short(f[6]);
    m.pistol2 = short(f[7]);
    m
}

pub fn of_spcc(m: SpccInputs) -> [i64; MOST] {
    let mut f = message_extra::take::spcc_raws(m);
    f[5] = i64::from(m.cpu0);
    f[6] = i64::from(m.cpu1);
    f[7] = i64::from(m.pt1ka);
    f[8] = i64::from(m.pt1kb);
    f[9] = i64::from(m.pt1ksc);
    f[10] = i64::from(m.pt1ksd);
    f
}

pub fn spcc(f: [i64; MOST]) -> SpccInputs {
    let mut m = message_extra::build::spcc(f);
    m.cpu0 = short(f[5]);
    m.cpu1 = short(f[6]);
    m.pt1ka = short(f[7]);
    m.pt1kb = short(f[8]);
    m.pt1ksc = short(f[9]);
    m.pt1ksd = short(f[10]);
    m
}
