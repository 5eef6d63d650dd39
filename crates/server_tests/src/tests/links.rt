// Links in memory, of which the listener tells nothing.
use super::*;

#[test]
fn the_first_accept_fails(rt: HostRuntime) -> Result<(), Fail> {
    let alloc = rt.alloc();
    let mut listener = TestListener::new(alloc);
    let mut output = output(alloc);
    let status = served(&rt, alloc, "serve A 1", &mut listener, &mut output)?;
    let report =
        "sessions 0\nfaults 0\nmemory 0\ncommands 0\nunit 0 steps 1 live 0 mapped 0\ntotal 1\n";
    assert_eq!(rt; status, Status::AcceptFault);
    assert_eq!(rt; output.as_slice(), report.as_bytes());
    Ok(())
}

/// The links before an accept that fails are served.
#[test]
fn the_second_accept_fails(rt: HostRuntime) -> Result<(), Fail> {
    let alloc = rt.alloc();
    let mut listener = one_link(alloc, both(alloc)?)?;
    let mut output = output(alloc);
    let status = served(&rt, alloc, "serve A 2", &mut listener, &mut output)?;
    let report =
        "sessions 1\nfaults 0\nmemory 0\ncommands 2\nunit 0 steps 3 live 0 mapped 2\ntotal 3\n";
    assert_eq!(rt; status, Status::AcceptFault);
    assert_eq!(rt; output.as_slice(), report.as_bytes());
    assert_eq!(rt; listener.taken(0), bytes_of(alloc, &REPLIES)?.as_slice());
    Ok(())
}

/// WRITE USING TOKEN in the background, of the zero token to one block.
const ZERO_IN_BACKGROUND: [&str; 4] = [
    "00000228000083110000000000000001000002280000",
    "02260100000000000000000000000000ffff0001000001f8",
    "00*511",
    "1000000000000000000000000100000000",
];

/// The worker writes the piece that was begun and finds nothing more, and so does the last pump.
#[test]
fn a_worker_pumps(rt: HostRuntime) -> Result<(), Fail> {
    let alloc = rt.alloc();
    let mut listener = one_link(alloc, bytes_of(alloc, &ZERO_IN_BACKGROUND)?)?;
    let mut output = output(alloc);
    let status = served(&rt, alloc, "serve A 1", &mut listener, &mut output)?;
    let report =
        "sessions 1\nfaults 0\nmemory 0\ncommands 1\nunit 0 steps 4 live 0 mapped 0\ntotal 4\n";
    assert_eq!(rt; status, Status::Done);
    assert_eq!(rt; output.as_slice(), report.as_bytes());
    Ok(())
}

/// Links that say nothing, break inside a request, fail in it, and go wrong behind one.
#[test]
fn links_break(rt: HostRuntime) -> Result<(), Fail> {
    let alloc = rt.alloc();
    let mut listener = TestListener::new(alloc);
    listener.add(Bytes::empty(alloc), none(alloc))?;
    listener.add(bytes_of(alloc, &WRITE[..2])?, none(alloc))?;
    listener.add(both(alloc)?, CallList::copy(alloc, &[1])?)?;
    listener.add(bytes_of(alloc, &["00*22", "00800001"])?, none(alloc))?;
    let mut output = output(alloc);
    let status = served(&rt, alloc, "serve A 4", &mut listener, &mut output)?;
    let report =
        "sessions 4\nfaults 3\nmemory 0\ncommands 1\nunit 0 steps 1 live 0 mapped 0\ntotal 1\n";
    assert_eq!(rt; status, Status::Done);
    assert_eq!(rt; output.as_slice(), report.as_bytes());
    assert_eq!(rt;
        listener.taken(3),
        bytes_of(alloc, &["000000000000"])?.as_slice()
    );
    Ok(())
}

/// More links than units and processors are served side by side: each writes a block of its own in turn.
#[test]
fn many_links_are_served(rt: HostRuntime) -> Result<(), Fail> {
    let alloc = rt.alloc();
    let mut listener = TestListener::new(alloc);
    for _ in 0..64 {
        let mut bytes = both(alloc)?;
        for _ in 0..20 {
            bytes.extend(bytes_of(alloc, &READ)?.as_slice())?;
        }
        listener.add(bytes, none(alloc))?;
    }
    let mut output = output(alloc);
    let status = served(&rt, alloc, "serve A 64", &mut listener, &mut output)?;
    let report =
        "sessions 64\nfaults 0\nmemory 0\ncommands 1408\nunit 0 steps 1409 live 0 mapped 2\ntotal 1409\n";
    assert_eq!(rt; status, Status::Done);
    assert_eq!(rt; output.as_slice(), report.as_bytes());
    Ok(())
}
