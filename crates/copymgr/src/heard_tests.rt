// What is remembered of replies.
use crate::heard::LastReply;
use std::alloc::Global;
use std::test::Fail;

/// What is told behind these bytes, where the last reply in them is a refusal.
fn told(alloc: Global, bytes: &[u8]) -> Result<Option<String>, Fail> {
    let mut last = LastReply::new();
    for byte in bytes {
        last.take(*byte);
    }
    if !last.is_refusal() {
        return Ok(None);
    }
    Ok(Some(format!(in alloc; "{last}")?))
}

/// Whether this is told behind these bytes.
fn tells(alloc: Global, bytes: &[u8], wanted: &str) -> Result<bool, Fail> {
    Ok(told(alloc, bytes)?.is_some_and(|told| told.as_str() == wanted))
}

const REFUSED: [u8; 24] = [
    2, 18, 0, 0, 0, 0, 0x70, 0, 5, 0, 0, 0, 0, 10, 0, 0, 0, 0, 0x21, 0, 0, 0, 0, 0,
];

/// The status and the sense of the last reply are told once it is whole, and nothing of one that is GOOD.
#[test]
fn the_last_reply_is_told(rt: HostRuntime) -> Result<(), Fail> {
    let alloc = rt.alloc();
    assert!(rt; tells(alloc, &REFUSED, "CHECK CONDITION, sense 05/21/00")?);
    assert!(rt; told(alloc, &REFUSED[..23])?.is_none());
    assert!(rt;
        tells(
            alloc,
            &[0, 0, 0, 0, 0, 2, 7, 7, 0x28, 0, 0, 0, 0, 0],
            "TASK SET FULL"
        )?
    );
    assert!(rt; tells(alloc, &[0x08, 0, 0, 0, 0, 0], "BUSY")?);
    assert!(rt; tells(alloc, &[0x18, 0, 0, 0, 0, 0], "RESERVATION CONFLICT")?);
    assert!(rt; told(alloc, &[0x18, 0, 0, 0, 0, 0, 0, 0, 0, 0, 0, 0])?.is_none());
    assert!(rt; told(alloc, b"")?.is_none());
    Ok(())
}
