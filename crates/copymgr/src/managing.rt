// The word `manage`: connections come and go, over units that forget, until a request asks for the end.
use crate::configuring::{Configuration, read_configuration};
use crate::ending::Ending;
use crate::last_report::LastReport;
use crate::managed::{Managed, Managing};
use crate::open_links::OpenLinks;
use crate::requests::read_requests;
use crate::serving::{listen, text};
use crate::status::Status;
use crate::unit_counts::UnitCounts;
use crate::watching::{EndedSessions, Watch};
use cm_base::{OutOfMemory, StandardOutput, SystemClock, Word};
use cm_server::{Requests, manage};
use std::alloc::Global;
use std::io;
use std::net::SocketAddr;
use std::sync::{Arc, Wait};
use std::thread::{self, Threads};

/// Whether the words are `manage` and two more.
pub fn are_managing(words: &[Word]) -> bool {
    match words {
        [word, _, _] => word.as_slice() == b"manage".as_slice(),
        _ => false,
    }
}

/// What the threads of a manager of so many units share, for two of them.
fn shared(
    alloc: Global,
    units: u16,
) -> Result<(Arc<Managing, Global>, Arc<Managing, Global>), OutOfMemory> {
    let managing = Managing {
        requests: Requests::new(),
        open: OpenLinks::new(alloc)?,
        ended: EndedSessions::new(),
        counts: UnitCounts::new(alloc, units)?,
    };
    let managing = Arc::new(alloc, managing)?;
    let theirs = managing.clone()?;
    Ok((managing, theirs))
}

/// Serves as the words say, `manage ADDRESS FILE`: the file has the configuration. Connections come and go until standard
/// input asks for the end, or no more may come; then it waits for those that are open, and writes the report to standard
/// output. The end of standard input is no request. `rt` makes the threads of connections; files, sockets and streams are
/// the host's.
pub fn manage_words<W: Threads + Wait + Copy + Send + Sync + 'static>(
    rt: &W,
    host: &HostRuntime,
    alloc: Global,
    words: &[Word],
) -> Ending {
    let [_, address, file] = words else {
        return Ending::new(Status::Usage);
    };
    let Configuration { header, units } = match read_configuration(host, alloc, text(file)) {
        Ok(configuration) => configuration,
        Err(ending) => return ending,
    };
    let (connections, place) = match listen(host, alloc, address) {
        Ok(listening) => listening,
        Err(ending) => return ending,
    };
    let Ok((managing, theirs)) = shared(alloc, units) else {
        return Ending::new(Status::OutOfMemory);
    };
    begin_reading(rt, host, alloc, theirs, place);
    let status = manage(
        rt,
        alloc,
        words,
        header.as_slice(),
        &mut Managed::new(rt, host, &managing, connections),
        SystemClock::new(host),
        &mut LastReport::new(StandardOutput::new(io::writer(host))),
        &managing.requests,
        &Watch::new(rt, host, &managing),
    );
    Ending::new(Status::from(status))
}

/// Reads requests in a thread of its own, which ends with the program. Where none can be made nothing is read.
fn begin_reading<W: Threads + Wait + Copy + Send + 'static>(
    rt: &W,
    host: &HostRuntime,
    alloc: Global,
    managing: Arc<Managing, Global>,
    address: Option<SocketAddr>,
) {
    let (own, host) = (*rt, *host);
    let _ = thread::spawn(rt, move || {
        read_requests(&own, &host, alloc, &managing, address);
    });
}
