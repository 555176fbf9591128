ghost use Rattle.std.specs.Prelude.{◌≡◌};
ghost use Rattle.cs_io.specs.Failing.{fails_at};

// Whether a call is one of those that are made to fail.
pub(crate) fn is_failing(failing: &[u32], call: u64) -> bool
    ensures { result ≡ fails_at failing.now call }
{
    failing.iter().any(|number| u64::from(*number) == call)
}
