// The search by identifier: through the messages, as one number each.
ghost use Rattle.std.specs.Prelude.{◌≡◌, ◌==◌};
ghost use Rattle.std.specs.List.{position};
ghost use Rattle.page_rows.specs.page_table.specs.Messages.{key_of};
ghost use Rattle.page_rows.specs.page_table.specs.Table.{rows, has_id, first_at, kind_found, with_message};
ghost use Rattle.page_rows.specs.page_table.specs.Interfaces.{with_id};

use page_rows::page_table::{Interface, KIND_COUNT, Message, REST_KIND};
use page_rows::{MESSAGES, OLDER, REST, is_on, message_at};

// Kept (5): docs/PROMISES.md names `judge_of id extended bytes`, and the C interface hands identifier and form in one by one.
// An identifier and its form as one number, so that the compiler makes one jump by it.
fn key(id: u32, extended: bool) -> u64
    ensures { result ≡ key_of id extended }
{
    2 * u64::from(id) + u64::from(extended)
}

// The place in a stretch of messages of the first that has an identifier of this form. Of a stretch that is known beforehand the compiler unrolls the search to
// a jump, but not of thirty messages: so that the base messages with 004's, those of 001 and the rest of 000's are searched one behind the other.
// Kept (3): no `position`, since a labelled loop that finds the identifier by break is asked for (docs/DECISIONS.md, "Forms of paper 01 that are used").
#[inline(always)]
fn place_in(messages: &[Message], id: u32, extended: bool) -> Option<usize>
    ensures { result ≡ position (λ m. key_of m.0 m.1 == key_of id extended) messages.now }
{
    let wanted = key(id, extended);
    let mut k: usize = 0;
    'messages: loop {
        if messages.len() <= k {
            break 'messages None;
        }
        let m = messages[k];
        if key(m.0, m.1) == wanted {
            break 'messages Some(k);
        }
        k += 1;
    }
}

// The kind of the message with an identifier of this form.
// Kept (1): as a chain of `or_else` and `map` the proof stands open at what each closure's sum asks of the place, `or_else-requires`.
fn kind_with_id(id: u32, extended: bool) -> Option<usize>
    ensures { result ≡ kind_found (first_at (has_id id extended) 0 rows) }
{
    if let Some(k) = place_in(&MESSAGES, id, extended) {
        return Some(k);
    }
    if let Some(k) = place_in(&OLDER, id, extended) {
        return Some(KIND_COUNT + k);
    }
    if let Some(k) = place_in(&REST, id, extended) {
        return Some(REST_KIND + k);
    }
    None
}

// The message with an identifier of this form, on whichever interface has it: its kind, the place of its first row, its bytes, and its byte order.
// Kept (5): a tuple, since docs/PROMISES.md names its clause, whose definition `with_message` is one; who asks takes it apart by name at once, or wants the
// kind alone.
pub fn with_id(id: u32, extended: bool) -> Option<(usize, usize, usize, bool)>
    ensures { result ≡ with_message (first_at (has_id id extended) 0 rows) }
{
    let k = kind_with_id(id, extended)?;
    let Message(_, _, bytes, big, at) = message_at(k);
    Some((k, at, bytes, big))
}

// And on one of the two.
pub fn message_on(iface: Interface, id: u32, extended: bool) -> Option<(usize, usize, usize, bool)>
    ensures { result ≡ with_message (with_id iface id extended) }
{
    with_id(id, extended).filter(|&(kind, _, _, _)| is_on(iface, kind))
}
