// A report that is not taken.
use super::*;

/// A report whose push fails: it comes before an accept that fails.
#[test]
fn a_report_is_not_taken(rt: HostRuntime) -> Result<(), Fail> {
    let alloc = rt.alloc();
    for sessions in ["serve A 1", "serve A 2"] {
        let mut listener = one_link(alloc, both(alloc)?)?;
        let mut output = MemorySink::new(alloc, 8, CallList::copy(alloc, &[3])?);
        let status = served(&rt, alloc, sessions, &mut listener, &mut output)?;
        assert_eq!(rt; status, Status::WriteFault);
        assert_eq!(rt; output.as_slice().len(), 16);
    }
    Ok(())
}
