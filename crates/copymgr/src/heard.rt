// A connection whose last reply is remembered, so that a refusal can be told with its status and sense.
ghost use Rattle.std.specs.Prelude.{◌≡◌, None};

use cm_base::{ReadFailed, Source, TcpLink};
use std::fmt;

/// Bytes of a reply before its sense or its data.
const FRONT: usize = 6;

/// Bytes of a sense.
const SENSE: usize = 18;

/// The last reply of a copy manager, as far as its bytes came: its front, and its sense where it has one.
#[derive(Debug, Drop, Clone, Copy, PartialEq, Eq)]
pub struct LastReply {
    front: [u8; FRONT],
    /// Bytes of the front that came.
    known: usize,
    /// Bytes behind the front that are to come.
    left: u64,
    sense: [u8; SENSE],
    /// Bytes of the sense that came.
    sensed: usize,
}

impl LastReply {
    /// No byte came.
    pub fn new() -> LastReply {
        LastReply {
            front: [0; FRONT],
            known: 0,
            left: 0,
            sense: [0; SENSE],
            sensed: 0,
        }
    }

    /// Takes the next byte. A reply begins behind the end of the one before it.
    pub fn take(&mut self, byte: u8) {
        if self.known >= FRONT && self.left == 0 {
            *self = LastReply::new();
        }
        if self.known < FRONT {
            self.front[self.known] = byte;
            self.known += 1;
            if self.known == FRONT {
                self.left = self.behind();
            }
            return;
        }
        if self.sensed < SENSE {
            self.sense[self.sensed] = byte;
            self.sensed += 1;
        }
        self.left = self.left.saturating_sub(1);
    }

    /// Takes the next bytes.
    fn take_all(&mut self, bytes: &[u8]) {
        for byte in bytes {
            self.take(*byte);
        }
    }

    /// How many bytes stand behind the front.
    fn behind(&self) -> u64 {
        let [_, sense, first, second, third, fourth] = self.front;
        u64::from(sense) + u64::from(u32::from_be_bytes([first, second, third, fourth]))
    }

    /// The reply is there, and is not GOOD.
    pub fn is_refusal(&self) -> bool {
        self.known >= FRONT && self.left == 0 && self.front[0] != 0
    }
}

impl fmt::Display for LastReply {
    /// Its status (SAM-5, Status codes), and the key and codes of its sense.
    fn fmt<W: fmt::Write>(&self, f: &mut fmt::Formatter<W>) -> fmt::Result {
        let [status, ..] = self.front;
        match status {
            0x02 => {
                let (key, asc, ascq) = (self.sense[2], self.sense[12], self.sense[13]);
                write!(f, "CHECK CONDITION, sense {key:02x}/{asc:02x}/{ascq:02x}")
            }
            0x08 => write!(f, "BUSY"),
            0x18 => write!(f, "RESERVATION CONFLICT"),
            0x28 => write!(f, "TASK SET FULL"),
            _ => write!(f, "status {status:02x}"),
        }
    }
}

/// The replies that come over a connection, of which the last one is remembered.
#[derive(Drop)]
pub struct Heard {
    link: TcpLink,
    last: LastReply,
}

impl Heard {
    /// The replies that come over this connection, none so far.
    pub fn new(link: TcpLink) -> Heard {
        Heard {
            link,
            last: LastReply::new(),
        }
    }

    /// The last reply.
    pub fn last(&self) -> LastReply {
        self.last
    }
}

impl Source for Heard {
    ghost left = { λ _. None };

    ghost read_faults = { λ h. ⟦<TcpLink as Source>⟧.read_faults h.link };

    ghost unpulled = { λ h. ⟦<TcpLink as Source>⟧.unpulled h.link };

    fn pull(&mut self, into: &mut [u8]) -> Result<usize, ReadFailed> {
        let count = self.link.pull(into)?;
        self.last.take_all(&into[..count]);
        Ok(count)
    }
}
