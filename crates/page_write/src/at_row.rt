// What packing does at one row of a message. No branch hangs on the row's sign or on its having labels, so that range and bits of a number are worked out
// once, and rows are looked up in tables: of a yes or no that is branched on the compiler makes a jump for each row instead (1.03 to 1.12 times as long, as
// docs/PERFORMANCE.md tells).
// Kept (2): `has_label`, `row_takes` and `put_raw` say for a row of the table, which is fine, what `label_holds`, `signal::fits` and `signal::put` say of any
// numbers; those test their range first and give 0 or the number back, which are the branches that are left out here.
ghost use Rattle.std.specs.Prelude.{◌≡◌, ◌-◌, ◌^◌, ◌<◌, ◌≤◌, true, if◌then◌else◌, nat_eq};
ghost use Rattle.page_read.specs.page_table.specs.Table.{Fine, takes};
ghost use Rattle.page_write.specs.Raws.{row_takes, put_raw};

use page_read::page_table::Row;

// width ones, from bit 0 on.
#[tactic(auto, using(signal::proofs::Masks::ones_shr))]
fn ones(width: u32) -> u64
    requires { (1 ≤ width) × (width ≤ 63) }
    ensures { result ≡ 2 ^ width - 1 }
{
    u64::MAX >> (64 - width)
}

// The labels, or all where the signal has none.
fn labels_or_all(labels: u64) -> u64
    ensures { result ≡ (if nat_eq labels 0 then 2 ^ 64 - 1 else labels) }
{
    if labels == 0 { u64::MAX } else { labels }
}

// `page_rows::label_holds` where 63 is no label, so that it may stand for every number above.
#[tactic(auto, using(crate::proofs::Words::label_test))]
fn has_label(labels: u64, v: u64) -> bool
    requires { labels < 2 ^ 63 }
    ensures { result ≡ takes labels v }
{
    (labels_or_all(labels) >> v.min(63)) % 2 == 1
}

// Whether a signal takes the raw number: it fits (counted from the signal's lowest number on it needs no more bits than the signal has), and has a label
// where the signal has labels. Of its 64 bits the lowest carry it in a signal.
pub fn row_takes(r: Row, z: i64) -> bool
    requires { Fine r × (r.labels < 2 ^ 63) }
    ensures { result ≡ row_takes r z }
{
    let most = ones(r.width);
    let w = z.cast_unsigned();
    w.wrapping_add(u64::from(r.signed) * (most / 2 + 1)) <= most && has_label(r.labels, w & most)
}

pub fn put_raw(r: Row, n: u64, z: i64) -> u64
    requires { Fine r × (row_takes r z ≡ true) }
    ensures { result ≡ put_raw r n z }
{
    let most = ones(r.width);
    (n & !(most << r.low)) | ((z.cast_unsigned() & most) << r.low)
}
