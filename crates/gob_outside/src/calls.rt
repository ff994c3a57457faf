ghost use Rattle.std.specs.Prelude.{◌≡◌};
ghost use Rattle.gob_outside.specs.Count.{one_more, fails_next};

// Counts a call, and tells whether it is one of those that fail.
pub(crate) fn fails_now(failing: &[u64], calls: &mut u64) -> bool
    ensures count { calls.new ≡ one_more calls.old }
    ensures answer { result ≡ fails_next failing.now calls.old }
{
    *calls = calls.saturating_add(1);
    failing.contains(calls)
}
