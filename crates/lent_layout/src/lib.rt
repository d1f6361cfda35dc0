// How the lent table lies in memory, as one word: a caller in C compares it with its header's before the first call, since a table of another version has
// other places.
#![tactic(auto)]

ghost use Rattle.std.specs.Prelude.{◌≡◌};
ghost use Rattle.lent_layout.specs.Layout.{layout_word};

use rules::PLACES;
use watch_rules::{POSTS, Table};

// Bytes of a table.
const TABLE: u64 = size_of::<Table>() as u64;

// Another number wherever a place of the table means something else.
const LAYOUT: u64 = 7;

#[unsafe(no_mangle)]
pub extern "C" fn rokemaipu_layout() -> u64
    ensures { result ≡ layout_word }
{
    TABLE + ((POSTS as u64) << 32) + ((PLACES as u64) << 40) + (LAYOUT << 48)
}
