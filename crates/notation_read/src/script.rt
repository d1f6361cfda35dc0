// The lines of a script that say nothing.
ghost use Rattle.std.specs.Prelude.{◌≡◌};
ghost use Rattle.notation_read.specs.Script.{skipped};

// desk.md: "Blank lines and lines whose first character is `#`, however long, are skipped".
#[tactic(auto, unfolding(crate::specs::Script::skipped))]
pub fn is_skipped(s: &[u8]) -> bool
    ensures { result ≡ skipped s.now }
{
    matches!(s, [] | [b'#', ..])
}
