// A head after one event more.
ghost use Rattle.std.specs.Prelude.{◌≡◌, ◌<◌};
ghost use Rattle.post_times.specs.rules.specs.Record.{slot_at, closed_session};
ghost use Rattle.post_times.specs.rules.specs.After.{kept_count, kept_put, opened_by, aged_to, with_frame, with_counts};

use post_findings::rule_pages::Role;
use post_times::rules::{CONTROL_PLACE, Head, STATUS_PLACE, STOP_PLACE, Session, Slot};

pub fn slot_at(time: u64, kind: u32, raw: u64) -> Slot
    ensures { result ≡ slot_at time kind raw }
{
    Slot {
        known: 1,
        kind,
        time,
        raw,
    }
}

// Kept (4): a function of its own: with the default in its place the check does not find in `with_frame` that its list is the closed session's.
fn no_session() -> Session
    ensures { result ≡ closed_session }
{
    Session::default()
}

fn kept_put(mut s: Session, place: usize, n: Slot) -> Session
    requires { place < kept_count }
    ensures { result ≡ kept_put s place n }
{
    if s.is_open() {
        s.kept[place] = n;
    }
    s
}

fn opened_by(s: Session, n: Slot) -> Session
    ensures { result ≡ opened_by s n }
{
    if s.is_open() {
        return s;
    }
    Session {
        opened: 1,
        since: n.time,
        first: n.raw,
        ..Session::default()
    }
}

// The head at an event's time.
pub fn aged(h: Head, time: u64) -> Head
    ensures { result ≡ aged_to h time }
{
    Head {
        heard: 1,
        time,
        ..h
    }
}

// The head with a frame that came at its time, which one field keeps, by what the frame is to the rules.
pub fn with_frame(h: Head, kind: usize, n: Slot) -> Head
    ensures { result ≡ with_frame h kind n }
{
    let s = h.session;
    match Role::from(kind) {
        Role::Controller => Head { controller: n, ..h },
        Role::Limits => Head { parameters: n, ..h },
        Role::Status => Head {
            session: kept_put(s, STATUS_PLACE, n),
            ..h
        },
        Role::Command => Head {
            session: kept_put(s, CONTROL_PLACE, n),
            ..h
        },
        Role::Opening => Head {
            session: opened_by(s, n),
            ..h
        },
        Role::Finished => Head {
            session: no_session(),
            ..h
        },
        Role::Stop => Head {
            session: kept_put(s, STOP_PLACE, n),
            ..h
        },
        Role::Other => h,
    }
}

// The head with an event counted.
pub fn with_counts(h: Head, findings: u32) -> Head
    ensures { result ≡ with_counts h findings }
{
    Head {
        counts: post_counts::count(h.counts, findings),
        ..h
    }
}
