ghost use Rattle.std.specs.Prelude.{◌≡◌};
ghost use Rattle.trace_check.specs.Verdict.{first_difference};

/// The first place at which two rows of bytes differ or one of them ends; none where they are equal.
pub(crate) fn first_difference(expected: &[u8], found: &[u8]) -> Option<u64>
    ensures { result ≡ first_difference expected.now found.now }
{
    let common = expected.len().min(found.len());
    for place in 0..common {
        if expected[place] != found[place] {
            return Some(place as u64);
        }
    }
    if expected.len() == found.len() {
        None
    } else {
        Some(common as u64)
    }
}
