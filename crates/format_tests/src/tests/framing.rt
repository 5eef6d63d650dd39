// Requests that are taken out of what was pulled.
use cm_base::Bytes;
use cm_frame::{Framed, Framer, Request};
use std::alloc::Global;
use std::test::Fail;

/// Two requests: of unit 1 with three bytes of data, and of unit 2 with none.
const TWO: [u8; 47] = [
    0, 0, 0, 3, 0, 1, 0x8a, 0, 0, 0, 0, 0, 0, 0, 0, 0, 0, 0, 0, 0, 0, 0, 7, 8, 9, 0, 0, 0, 0, 0, 2,
    0x35, 0, 0, 0, 0, 0, 0, 0, 0, 0, 0, 0, 0, 0, 0, 0,
];

/// Notes unit, operation code and data of a request.
fn note(noted: &mut Bytes, request: &Request) -> Result<(), Fail> {
    noted.push(u8::try_from(request.unit).unwrap_or(u8::MAX))?;
    noted.push(request.cdb[0])?;
    noted.extend(request.out.as_slice())?;
    Ok(())
}

/// Takes all requests that are whole, and notes each. Whether what is left may become a request.
fn take_all(framer: &mut Framer, noted: &mut Bytes) -> Result<bool, Fail> {
    for _ in 0..8 {
        let framed = framer.take()?;
        match &framed {
            Framed::Request(request) => note(noted, request)?,
            Framed::NotYet => return Ok(true),
            Framed::Bad => return Ok(false),
        }
    }
    Ok(false)
}

/// Feeds bytes, and takes all requests that are whole then. Whether what is left may become a request.
fn feed(framer: &mut Framer, bytes: &[u8], noted: &mut Bytes) -> Result<bool, Fail> {
    framer.feed(bytes)?;
    take_all(framer, noted)
}

/// Feeds pieces: whether what is left may become a request after each of them, as told.
fn feed_all(
    framer: &mut Framer,
    pieces: &[(&[u8], bool)],
    noted: &mut Bytes,
) -> Result<bool, Fail> {
    let mut told = true;
    for (piece, goes_on) in pieces {
        told &= feed(framer, piece, noted)? == *goes_on;
    }
    Ok(told)
}

/// Whether pieces are fed as told, and leave no byte; and what is noted of their requests.
fn noted_of(
    alloc: Global,
    pieces: &[(&[u8], bool)],
    noted: &mut Bytes,
) -> Result<(bool, bool), Fail> {
    let mut framer = Framer::new(alloc);
    let told = feed_all(&mut framer, pieces, noted)?;
    Ok((told, framer.is_empty()))
}

/// Whether pieces are fed as told, and leave no byte, or some; and this is noted of their requests.
fn are_taken(
    alloc: Global,
    pieces: &[(&[u8], bool)],
    is_empty: bool,
    wanted: &[u8],
) -> Result<bool, Fail> {
    let mut noted = Bytes::empty(alloc);
    let fed = noted_of(alloc, pieces, &mut noted)?;
    Ok(fed == (true, is_empty) && noted.as_slice() == wanted)
}

#[test]
fn requests_are_taken_however_they_are_cut(rt: HostRuntime) -> Result<(), Fail> {
    for cut in 0..=TWO.len() {
        let pieces = [(&TWO[..cut], true), (&TWO[cut..], true)];
        let wanted = [1, 0x8a, 7, 8, 9, 2, 0x35];
        assert!(rt; are_taken(rt.alloc(), &pieces, true, &wanted)?, "{cut}");
    }
    Ok(())
}

/// Data of 8,388,609 bytes is too much, whatever comes behind.
#[test]
fn a_bad_request_stays_bad(rt: HostRuntime) -> Result<(), Fail> {
    let pieces: [(&[u8], bool); 3] = [(&[0, 0x80, 0], true), (&[1], false), (&TWO, false)];
    assert!(rt; are_taken(rt.alloc(), &pieces, false, &[])?);
    Ok(())
}
