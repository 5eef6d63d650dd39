// The words `copy ADDRESS`: where the job is read, and where it is asked.
use crate::chained::Chained;
use crate::ending::Ending;
use crate::heard::Heard;
use crate::serving::text;
use crate::status::Status;
use crate::top::top;
use cm_base::{
    Bytes, CallList, MemorySource, OutOfMemory, Parsed, Source, StandardInput, TcpLink, Word,
};
use copy_plan::read_job;
use std::alloc::Global;
use std::io::Input;
use std::net::TcpStream;

/// Bytes that are read of a job: one more than the longest has, of 65,536 extents on each side.
const JOB: usize = 16 + 12 * 131_072 + 1;

/// Bytes that are asked for at a time.
const STEP: usize = 4096;

/// Whether the words are `copy` and one more.
pub fn are_hosting(words: &[Word]) -> bool {
    match words {
        [word, _] => word.as_slice() == b"copy".as_slice(),
        _ => false,
    }
}

/// Reads a source to its end, or as far as the longest job could go.
fn read_whole<I: Source>(alloc: Global, input: &mut I) -> Result<Bytes, Status> {
    let mut bytes = Bytes::empty(alloc);
    let mut room = [0; STEP];
    for _ in 0..JOB {
        let count = input.pull(&mut room).map_err(|_| Status::ReadFault)?;
        if count == 0 || bytes.len() >= JOB {
            break;
        }
        bytes
            .extend(&room[..count])
            .map_err(|_| Status::OutOfMemory)?;
    }
    Ok(bytes)
}

/// Whether these bytes are a job and nothing else: how a copy ends that begins with others.
fn judged(alloc: Global, bytes: &Bytes) -> Result<(), Status> {
    match read_job(alloc, bytes.as_slice()) {
        Ok(Parsed::Whole { used, .. }) if used == bytes.len() => Ok(()),
        Ok(Parsed::Whole { used, .. }) => Err(Status::BadHeader(used as u64)),
        Ok(Parsed::Short) => Err(Status::Torn(0)),
        Ok(Parsed::Bad { place }) => Err(Status::BadHeader(place)),
        Err(OutOfMemory) => Err(Status::OutOfMemory),
    }
}

/// The bytes of a job, which the source has and nothing else. A job that ends early, that has a fault, or behind which
/// something stands is refused with the status that says so.
pub fn whole_job<I: Source>(alloc: Global, input: &mut I) -> Result<Bytes, Status> {
    let bytes = read_whole(alloc, input)?;
    judged(alloc, &bytes)?;
    Ok(bytes)
}

/// Does what the words say, with the replies that come over a connection behind the input, and the connection as the
/// output. It waits for each reply. A refusal is told with its status and sense.
pub fn work_over<I: Source + Drop>(
    alloc: Global,
    words: &[Word],
    input: I,
    connection: TcpStream,
) -> Ending {
    let replies = match connection.try_clone() {
        Ok(replies) => replies,
        Err(error) => return Ending::told(alloc, Status::ReadFault, "the connection", &error),
    };
    // A request is pushed whole and waits for no other; a stream that refuses is only slower.
    connection.set_nodelay(true).ok();
    let mut input = Chained::new(input, Heard::new(TcpLink::new(replies)));
    let status = top(alloc, words, &mut input, &mut TcpLink::new(connection));
    let reply = input.second().last();
    match status {
        Status::Refused(_) if reply.is_refusal() => Ending::told(
            alloc,
            status,
            "the reply",
            &reply,
        ),
        _ => Ending::new(status),
    }
}

/// Copies as the words say, `copy ADDRESS`: the job is standard input, which is read to its end and judged before the
/// copy manager at the address is asked.
pub fn host_words(host: &HostRuntime, alloc: Global, words: &[Word]) -> Ending {
    let [_, address] = words else {
        return Ending::new(Status::Usage);
    };
    let job = match whole_job(alloc, &mut StandardInput::new(host.reader())) {
        Ok(job) => job,
        Err(status) => return Ending::new(status),
    };
    let address = text(address);
    match TcpStream::connect(host, address) {
        Ok(connection) => {
            let step = job.len().max(1);
            let job = MemorySource::new(job, step, CallList::empty(alloc));
            work_over(alloc, &words[..1], job, connection)
        }
        Err(error) => Ending::told(alloc, Status::ReadFault, address, &error),
    }
}
