// How the desk runs a step on its table: by value, or through the entry that changes a lent table in place. Either way the answer word, the table and a batch's
// answers are the same.
ghost use Rattle.std.specs.Prelude.{◌≡◌, length};
ghost use Rattle.lent_step.specs.lent_words.specs.Lent.{set_up_word, release_word};
ghost use Rattle.lent_step.specs.Fed.{frame_word, tick_word};
ghost use Rattle.batch.specs.batch_rules.specs.Batch.{batch_of, answers_after};

use lent_step::lent_words::{Lent, fed_word, released, settled};
use notation_read::heard::{Frame, Tick};
use notation_setup::setup::Setup;
use watch_rules::Table;

pub trait Way: Copy {
    fn set_up(self, t: Table, s: Setup) -> Lent
        ensures { result ≡ set_up_word t s.post s.channel s.limits };

    fn release(self, t: Table, post: u32) -> Lent
        ensures { result ≡ release_word t post };

    fn frame(self, t: Table, f: Frame, payload: &[u8]) -> Lent
        ensures { result ≡ frame_word t f.channel f.time f.id f.extended payload.now };

    fn tick(self, t: Table, k: Tick) -> Lent
        ensures { result ≡ tick_word t k.channel k.time };

    fn batch(self, t: Table, records: &[u8], answers: &mut [u32]) -> Lent
        ensures { (result ≡ batch_of t records.now (length answers.old))
            × (answers.new ≡ answers_after t records.now answers.old) };
}

#[derive(Clone, Copy)]
pub struct ByValue;

impl Way for ByValue {
    fn set_up(self, t: Table, s: Setup) -> Lent {
        settled(t, s.post, s.channel, s.limits)
    }

    fn release(self, t: Table, post: u32) -> Lent {
        released(t, post)
    }

    #[tactic(auto, unfolding(lent_step::specs::Fed::frame_word))]
    fn frame(self, t: Table, f: Frame, payload: &[u8]) -> Lent {
        fed_word(watch::frame(t, f.channel, f.time, f.id, f.extended, payload))
    }

    #[tactic(auto, unfolding(lent_step::specs::Fed::tick_word))]
    fn tick(self, t: Table, k: Tick) -> Lent {
        fed_word(watch::tick(t, k.channel, k.time))
    }

    fn batch(self, t: Table, records: &[u8], answers: &mut [u32]) -> Lent {
        batch::feed_batch(t, records, answers)
    }
}

#[derive(Clone, Copy)]
pub struct InPlace;

impl Way for InPlace {
    fn set_up(self, t: Table, s: Setup) -> Lent {
        gateway::lend_set_up(t, s.post, s.channel, s.limits)
    }

    fn release(self, t: Table, post: u32) -> Lent {
        gateway::lend_release(t, post)
    }

    fn frame(self, t: Table, f: Frame, payload: &[u8]) -> Lent {
        gateway::lend_frame(t, f.channel, f.time, f.id, f.extended, payload)
    }

    fn tick(self, t: Table, k: Tick) -> Lent {
        gateway::lend_tick(t, k.channel, k.time)
    }

    fn batch(self, t: Table, records: &[u8], answers: &mut [u32]) -> Lent {
        gateway::lend_batch(t, records, answers)
    }
}
