use crate::generate;
use std::test::Fail;

/// Bytes of the header of two units, and of a round.
const HEADER: usize = 106;

const ROUND: usize = 4944;

/// How long traces are, and that each begins as the longer ones do.
#[test]
fn lengths(rt: HostRuntime) -> Result<(), Fail> {
    let longest = generate(rt.alloc(), 9)?;
    for rounds in [0, 1, 8] {
        let trace = generate(rt.alloc(), rounds)?;
        assert!(rt; trace.len() == HEADER + ROUND * rounds as usize);
        assert!(rt; longest.as_slice().starts_with(trace.as_slice()));
    }
    Ok(())
}

/// The first bytes, and the last item of the second round.
#[test]
fn both_ends(rt: HostRuntime) -> Result<(), Fail> {
    let trace = generate(rt.alloc(), 2)?;
    let bytes = trace.as_slice();
    assert!(rt; bytes.starts_with(b"CMTRACE1\x00\x01\x02\x03"));
    let run = [2, 0, 0, 0, 1, 0, 0, 0, 0, 0, 0, 0, 1];
    assert!(rt; bytes.ends_with(&run));
    Ok(())
}
