// What the table does not count by itself: how often each refusal was given, by its number; 01 and 02 have numbers up to 29.
const REFUSALS: usize = 32;

#[derive(Clone, Copy, Default)]
pub struct Tally {
    pub counts: [u64; REFUSALS],
}

impl Tally {
    // Kept (1): `playing_batches::write_batch` puts a batch's answers as words, and promises that of them (`answers_of`).
    fn add_word(&mut self, word: u32) {
        if let Err(w) = plain_words::answer_in(word)
            && let Some(count) = self.counts.get_mut(w.number as usize)
        {
            *count = count.wrapping_add(1);
        }
    }

    pub fn add_words(&mut self, words: &[u32]) {
        for &word in words {
            self.add_word(word);
        }
    }
}
