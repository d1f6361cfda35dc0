// Steps on a table by value, each printed with its answer.
// Kept (5): each step names its channel and its time one by one, as the papers' readings do and as the watch takes them.
use message_types::kind_of;
use readings_messages::show::{Answer, Hex, Refused, say};
use rule_limits::{Interface, Limits, Sensor};
use rules::{CONTROL_PLACE, Dated, Record, STATUS_PLACE, STOP_PLACE};
use std::fmt;
use watch_rules::{Stepped, Table};

// Default voltage 500.0 V, charge 100.0 A, discharge 50.0 A, W 500 ms.
pub fn limits() -> Limits {
    Limits {
        voltage: 5000,
        charge: 1000,
        discharge: 500,
        silence: 500,
        sensor: Sensor::Measuring,
        interface: Interface::Newer,
    }
}

pub fn limits_with(sensor: Sensor) -> Limits {
    Limits { sensor, ..limits() }
}

pub fn older_limits() -> Limits {
    Limits {
        interface: Interface::Older,
        ..limits()
    }
}

// `A` and the findings that a frame or a tick raised.
#[derive(Clone, Copy)]
struct Accepted(u32);

impl fmt::Display for Accepted {
    fn fmt<W: fmt::Write>(&self, f: &mut fmt::Formatter<W>) -> fmt::Result {
        write!(f, "A{}", self.0)
    }
}

// A message with its time and its age, in a line.
#[derive(Clone, Copy)]
struct Line(Option<Dated>);

impl fmt::Display for Line {
    fn fmt<W: fmt::Write>(&self, f: &mut fmt::Formatter<W>) -> fmt::Result {
        let (kind, time, age) = match self.0 {
            None => return f.write_str("nothing\n"),
            Some(Dated::At { time, age, message }) => (kind_of(message), time, age),
            Some(Dated::OlderAt { time, age, message }) => (
                older_types::kind_of(message),
                time,
                age,
            ),
        };
        write!(f, "kind {kind} at {time}, {age} ms ago\n")
    }
}

// A post's record in words: its channel and limits, when it was heard last, and its session with what that keeps.
#[derive(Clone, Copy)]
struct Shown(Record);

impl fmt::Display for Shown {
    fn fmt<W: fmt::Write>(&self, f: &mut fmt::Formatter<W>) -> fmt::Result {
        let r = self.0;
        let sensor = match r.limits.sensor {
            Sensor::Measuring => "measuring",
            Sensor::YesNo => "yes/no",
        };
        let interface = match r.limits.interface {
            Interface::Newer => "newer",
            Interface::Older => "older",
        };
        write!(f, "channel {}, {sensor}, {interface}, ", r.channel)?;
        match r.last {
            None => f.write_str("nothing heard, ")?,
            Some(time) => write!(f, "last heard at {time}, ")?,
        }
        let Some(open) = r.session else {
            return f.write_str("no session\n");
        };
        write!(f, "session since {}, {} ms ago\n", open.since, open.age)?;
        write!(f, "    status: {}", Line(r.kept[STATUS_PLACE]))?;
        write!(f, "    control: {}", Line(r.kept[CONTROL_PLACE]))?;
        write!(f, "    stop: {}", Line(r.kept[STOP_PLACE]))
    }
}

// A table, and where its steps are told.
#[derive(Drop)]
pub struct Scene {
    rt: HostRuntime,
    table: Table,
}

impl Scene {
    pub fn new(rt: HostRuntime) -> Scene {
        Scene {
            rt,
            table: watch::empty(),
        }
    }

    // The table after a step is kept, and what the step answers handed on.
    fn keep<A>(&mut self, stepped: Stepped<A>) -> A {
        self.table = stepped.table;
        stepped.answer
    }

    pub fn set_up(&mut self, post: u32, channel: u32, limits: Limits) {
        let done = self.keep(watch::set_up(self.table, post, channel, limits));
        let answer = Answer(done.map(|()| "A"));
        say(
            self.rt,
            format_args!("  set up post {post} on {channel} -> {answer}\n"),
        );
    }

    pub fn release(&mut self, post: u32) {
        let done = self.keep(watch::release(self.table, post));
        let answer = Answer(done.map(|()| "A"));
        say(self.rt, format_args!("  release post {post} -> {answer}\n"));
    }

    fn hear(&mut self, channel: u32, time: u32, id: u32, extended: bool, payload: &[u8]) {
        let found = self.keep(watch::frame(self.table, channel, time, id, extended, payload));
        let what = if extended { "frame" } else { "standard frame" };
        let answer = Answer(found.map(Accepted));
        say(
            self.rt,
            format_args!(
                "  {what} on {channel} at {time} {id:x} {} -> {answer}\n",
                Hex(payload)
            ),
        );
    }

    pub fn frame(&mut self, channel: u32, time: u32, id: u32, payload: &[u8]) {
        self.hear(channel, time, id, true, payload);
    }

    pub fn standard(&mut self, channel: u32, time: u32, id: u32, payload: &[u8]) {
        self.hear(channel, time, id, false, payload);
    }

    pub fn tick(&mut self, channel: u32, time: u32) {
        let found = self.keep(watch::tick(self.table, channel, time));
        let answer = Answer(found.map(Accepted));
        say(
            self.rt,
            format_args!("  tick on {channel} at {time} -> {answer}\n"),
        );
    }

    pub fn record(&self, post: u32) {
        say(self.rt, format_args!("  record of post {post} -> "));
        let r = watch::look_up(self.table, post);
        match r.answer {
            Ok(()) => say(self.rt, Shown(r.shown)),
            Err(w) => say(self.rt, format_args!("{}\n", Refused(w))),
        }
    }

    // What stands at the kind's place.
    pub fn latest(&self, post: u32, kind: usize) {
        let r = watch::look_up(self.table, post);
        if let Some(&d) = r.shown.latest.get(rule_pages::place_by(kind)) {
            let line = Line(d);
            say(self.rt, format_args!("  latest of kind {kind} -> {line}"));
        }
    }
}
