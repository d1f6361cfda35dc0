// A post's counts over the C interface, of the record that `watch::look_up` hands out, and how much the table refused. The lent table is only read.
// For C callers; a caller in Rattle asks `watch::look_up` and `watch::refused`.
// Kept (1): the C interface hands the answer out as one word, a number or a refusal (02); below the entry they are a `Result`.
#![tactic(auto)]

ghost use Rattle.std.specs.Prelude.{◌≡◌, length};
ghost use Rattle.rules.specs.After.{count_count};
ghost use Rattle.watch_rules.specs.Table.{look_up_of};
ghost use Rattle.plain_words.specs.Words.{outcome_of};
ghost use Rattle.lent_numbers.specs.LookUp.{handed_outcome};
ghost use Rattle.lent_counts.specs.Counts.{counts_word, counts_after, refused_in};

use lent_look::post_at;
use lent_numbers::hand_out;
use plain_words::answer_word;
use refusals::Refusal;
use watch_look::refused;
use watch_rules::Table;

fn counts_of(t: &Table, post: u32, counts: &mut [u32]) -> Result<u32, Refusal>
    ensures answer { outcome_of result ≡ handed_outcome count_count (look_up_of t.now post).answer (length counts.old) }
    ensures left { counts.new ≡ counts_after t.now post counts.old }
{
    let p = post_at(t, post)?;
    hand_out(&p.head.counts, counts)
}

#[tactic(auto, unfolding(crate::specs::Counts::counts_word))]
#[unsafe(no_mangle)]
pub extern "C" fn rokemaipu_counts(t: &Table, post: u32, counts: &mut [u32]) -> u32
    ensures { (result ≡ counts_word t.now post counts.old) × (counts.new ≡ counts_after t.now post counts.old) }
{
    answer_word(counts_of(t, post, counts))
}

// Kept (1): no refusal, but a count of them.
#[unsafe(no_mangle)]
pub extern "C" fn rokemaipu_refused(t: &Table) -> u32
    ensures { result ≡ refused_in t.now }
{
    refused(*t)
}
