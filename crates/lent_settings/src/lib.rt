// Starting a lent table, set-ups and releases in place: each leaves exactly what the by-value operation of `watch` gives.
// For C, and through `gateway` for Rattle.
// Kept (1): the C interface: 02 gives each entry's answer as a word of 32 bits.
// Kept (2): C needs the entries of a replay (`lent_replay`) and of a table under names of their own.
// Kept (5): post and channel are C's numbers and come one by one; the limits behind them are one.
#![tactic(auto)]

ghost use Rattle.std.specs.Prelude.{◌≡◌};
ghost use Rattle.lent_table.specs.lent_words.specs.Lent.{start_of, set_up_word, release_word};

use lent_table::lent_words::{Lent, released, settled, started};
use rule_limits::PlainLimits;
use watch_rules::{Stepped, Table};

#[unsafe(no_mangle)]
pub extern "C" fn rokemaipu_start(t: &mut Table) -> u32
    ensures { (result ≡ (start_of t.old).answer) × (t.new ≡ (start_of t.old).table) }
{
    let r = started(*t);
    *t = r.table;
    r.answer
}

#[unsafe(no_mangle)]
pub extern "C" fn rokemaipu_set_up(
    t: &mut Table,
    post: u32,
    channel: u32,
    voltage: u32,
    charge: u32,
    discharge: u32,
    silence: u32,
    sensor: u32,
    interface: u32,
) -> u32
    ensures { (result ≡ (set_up_word t.old post channel (record { voltage = voltage; charge = charge; discharge = discharge; silence = silence; sensor = sensor; interface = interface })).answer) × (t.new ≡ (set_up_word t.old post channel (record { voltage = voltage; charge = charge; discharge = discharge; silence = silence; sensor = sensor; interface = interface })).table) }
{
    let limits = PlainLimits {
        voltage,
        charge,
        discharge,
        silence,
        sensor,
        interface,
    };
    let r = settled(*t, post, channel, limits);
    *t = r.table;
    r.answer
}

#[unsafe(no_mangle)]
pub extern "C" fn rokemaipu_release(t: &mut Table, post: u32) -> u32
    ensures { (result ≡ (release_word t.old post).answer) × (t.new ≡ (release_word t.old post).table) }
{
    let r = released(*t, post);
    *t = r.table;
    r.answer
}

// By value over the entries, for callers in Rattle, through `gateway`: they make no reference to a table themselves.
pub fn lend_start(mut t: Table) -> Lent
    ensures { result ≡ start_of t }
{
    let answer = rokemaipu_start(&mut t);
    Stepped { table: t, answer }
}

pub fn lend_set_up(mut t: Table, post: u32, channel: u32, limits: PlainLimits) -> Lent
    ensures { result ≡ set_up_word t post channel limits }
{
    let answer = rokemaipu_set_up(
        &mut t,
        post,
        channel,
        limits.voltage,
        limits.charge,
        limits.discharge,
        limits.silence,
        limits.sensor,
        limits.interface,
    );
    Stepped { table: t, answer }
}

pub fn lend_release(mut t: Table, post: u32) -> Lent
    ensures { result ≡ release_word t post }
{
    let answer = rokemaipu_release(&mut t, post);
    Stepped { table: t, answer }
}
