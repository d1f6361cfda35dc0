// The table's own counts (02, Req 08), of all posts together: what was accepted in place 0, and finding k in place k.
use rules::COUNTS;
use watch_rules::Table;

// A post that is not set up has counted nothing.
// Kept (6): no buffer: every place is in use, and the counts are handed out by value.
pub fn counted(t: &Table) -> [u64; COUNTS] {
    let mut sums = [0u64; COUNTS];
    for post in &t.posts {
        for (sum, &n) in sums.iter_mut().zip(&post.head.counts) {
            *sum = sum.wrapping_add(u64::from(n));
        }
    }
    sums
}
