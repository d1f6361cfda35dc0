// Two night logs compared over lent memory (02, Req 10), for C: `compare_logs::compare`, its answer as a word and two numbers.
#![tactic(auto)]

ghost use Rattle.std.specs.Prelude.{◌≡◌, length};
ghost use Rattle.compare_rules.specs.Compare.{first_after, second_after, places_after};
ghost use Rattle.compare_rules.specs.Words.{compared_for, compared_word, with_numbers, numbers_after};

use compare_logs::compare;
use plain_words::refusal_word;
use refusals::Refusal;

// Kept (1): 02 gives the entry one word of 32 bits for the answer and the refusal.
// Kept (5): the C interface hands these in one by one.
#[unsafe(no_mangle)]
pub extern "C" fn rokemaipu_compare(
    a: &[u8],
    b: &[u8],
    first: &mut [u32],
    second: &mut [u32],
    places: &mut [u32],
    numbers: &mut [u64],
) -> u32
    ensures { (result ≡ compared_word (length numbers.old) (compared_for a.now b.now first.old second.old places.old))
        × (first.new ≡ with_numbers (length numbers.old)
        (first_after a.now b.now (compared_for a.now b.now first.old second.old places.old) first.old) first.old)
        × (second.new ≡ with_numbers (length numbers.old)
        (second_after a.now b.now (compared_for a.now b.now first.old second.old places.old) second.old) second.old)
        × (places.new ≡ with_numbers (length numbers.old)
        (places_after a.now b.now (compared_for a.now b.now first.old second.old places.old) places.old) places.old)
        × (numbers.new ≡ numbers_after (compared_for a.now b.now first.old second.old places.old) numbers.old) }
{
    let Some(told) = numbers.first_chunk_mut() else {
        return refusal_word(Refusal::ShortBuffer);
    };
    match compare(a, b, first, second, places) {
        Ok(listed) => {
            *told = [listed.first as u64, listed.second as u64];
            0
        }
        Err(unlisted) => {
            *told = [u64::from(unlisted.side), unlisted.at as u64];
            refusal_word(unlisted.why)
        }
    }
}
