// The field of 001's own messages whose value is no raw number: a battery's capacity. Each message's others are as the codec takes and makes them.
use crate::message::MOST;
use message_fields::word;
use older_types::NewChargeSession;

pub fn of_session(m: NewChargeSession) -> [i64; MOST] {
    let mut f = older_power::take::session_raws(m);
    f[4] = i64::from(m.capacity);
    f
}

pub fn session(f: [i64; MOST]) -> NewChargeSession {
    let mut m = older_power::build::session(f);
    m.capacity = word(f[4]);
    m
}
