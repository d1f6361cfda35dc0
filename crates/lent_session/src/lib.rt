// The latest Power_Modules_Status, DC_Power_Control and Emergency_Stop of an open session over the C interface, or what stands for them on a post of the older
// interface, as `lent_latest` hands out the latest frame of a kind: its time as received, its age and its kind, and its bytes as they came.
// The lent table is only read. For C callers; a caller in Rattle asks `watch::look_up`.
// Kept (1): the C interface hands the answer out as one word, a number or a refusal (02); below the entry they are a `Result`.
// Kept (5): the C interface hands the two lent buffers in one by one, and what stands below the entry takes them as they come.
#![tactic(auto)]

ghost use Rattle.std.specs.Prelude.{◌≡◌, ◌<◌};
ghost use Rattle.rules.specs.After.{kept_count, open_kept};
ghost use Rattle.plain_words.specs.Words.{outcome_of};
ghost use Rattle.lent_session.specs.InSession.{part_outcome, part_word, part_time, part_frame};

use lent_latest::hand_out;
use lent_look::post_at;
use plain_words::answer_word;
use refusals::Refusal;
use rules::{KEPT, Session, Slot};
use watch_rules::Table;

// 01: "With no session open all of the session's part is none."
// Kept (1): a slot that may hold nothing, and no `Option`: `open_kept` is one, and `hand_out` asks it of any slot.
fn open_kept(s: Session, part: usize) -> Slot
    requires { part < kept_count }
    ensures { result ≡ open_kept s part }
{
    if !s.is_open() {
        return Slot::default();
    }
    s.kept[part]
}

#[tactic(auto, unfolding(crate::specs::InSession::part_time, crate::specs::InSession::part_frame))]
fn part_of(
    t: &Table,
    post: u32,
    part: u32,
    times: &mut [u32],
    buf: &mut [u8],
) -> Result<u32, Refusal>
    ensures answer { outcome_of result ≡ part_outcome t.now post part times.old buf.old }
    ensures times { times.new ≡ part_time t.now post part times.old buf.old }
    ensures bytes { buf.new ≡ part_frame t.now post part times.old buf.old }
{
    let p = post_at(t, post)?;
    let j = part as usize;
    if KEPT <= j {
        return Err(Refusal::UnknownIdentifier);
    }
    hand_out(p.head.time, open_kept(p.head.session, j), times, buf)
}

#[tactic(auto, unfolding(crate::specs::InSession::part_word))]
#[unsafe(no_mangle)]
pub extern "C" fn rokemaipu_in_session(
    t: &Table,
    post: u32,
    part: u32,
    times: &mut [u32],
    buf: &mut [u8],
) -> u32
    ensures { (result ≡ part_word t.now post part times.old buf.old)
        × (times.new ≡ part_time t.now post part times.old buf.old)
        × (buf.new ≡ part_frame t.now post part times.old buf.old) }
{
    answer_word(part_of(t, post, part, times, buf))
}
