// Counts of faults.
ghost use Rattle.std.specs.Prelude.{◌≡◌, ◌↔◌, IsTrue, Contains};
ghost use Rattle.link_traits.specs.Faults.{counted};

// Counts one fault, or one call.
pub(crate) fn count_one(count: &mut u64)
    ensures { count.new ≡ counted count.old }
{
    *count = count.saturating_add(1);
}

// Whether a call is one of those that are to fail.
pub(crate) fn is_planned(fails: &[u64], call: u64) -> bool
    ensures { IsTrue result ↔ Contains fails.now call }
{
    fails.contains(&call)
}
