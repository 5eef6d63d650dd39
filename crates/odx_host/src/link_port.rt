ghost use Rattle.std.specs.Prelude.{◌≡◌, []};

use crate::port::{Port, PortFault};
use crate::replies::next_reply;
use cm_base::{FillFailed, InputBuffer, Link, OutOfMemory, WriteFailed, push_all};
use cm_frame::{Reply, Request, write_request};
use std::alloc::Global;
use std::marker::Model;

impl From<OutOfMemory> for PortFault {
    ghost use Rattle.std.specs.Prelude.{◌≡◌};
    ghost use Rattle.odx_host.specs.declared.port.PortFault.{PortFault};

    ghost from_gives = { λ _ fault. fault ≡ PortFault.OutOfMemory };

    fn from(_: OutOfMemory) -> PortFault {
        PortFault::OutOfMemory
    }
}

impl From<WriteFailed> for PortFault {
    ghost use Rattle.std.specs.Prelude.{◌≡◌};
    ghost use Rattle.odx_host.specs.declared.port.PortFault.{PortFault};

    ghost from_gives = { λ _ fault. fault ≡ PortFault.WriteFault };

    fn from(_: WriteFailed) -> PortFault {
        PortFault::WriteFault
    }
}

impl From<FillFailed> for PortFault {
    ghost use Rattle.std.specs.Prelude.{◌≡◌};
    ghost use Rattle.odx_host.specs.Linked.{fault_of};

    ghost from_gives = { λ failed fault. fault ≡ fault_of failed };

    fn from(failed: FillFailed) -> PortFault {
        match failed {
            FillFailed::Read => PortFault::ReadFault,
            FillFailed::OutOfMemory => PortFault::OutOfMemory,
        }
    }
}

/// A port over a connection (own profile): each request is pushed as a frame, and the next frame that is pulled is its
/// reply. It tells nothing of the units at the other end.
#[derive(Drop)]
pub struct LinkPort<K> {
    alloc: Global,
    link: K,
    /// Bytes that were pulled and not used yet.
    input: InputBuffer,
}

impl<K> Model for LinkPort<K> {
    ghost use Rattle.odx_host.specs.Linked.{Linked};

    ghost Value = { Linked K };

    ghost view = { λ p. record { link = p.link; input = p.input } };
}

impl<K> LinkPort<K> {
    /// A port over this connection. It takes no memory.
    pub fn new(alloc: Global, link: K) -> LinkPort<K>
        ensures { result ≡ record { link = link; input = [] } }
    {
        LinkPort {
            alloc,
            link,
            input: InputBuffer::new(alloc),
        }
    }

    /// The connection. Bytes that were pulled and not used are lost. It takes no memory.
    pub fn into_link(self) -> K
        ensures { result ≡ self.link }
    {
        let LinkPort {
            alloc: _,
            link,
            input: _,
        } = self;
        link
    }
}

impl<K: Link> Port for LinkPort<K> {
    ghost use Rattle.std.specs.Prelude.{refl};
    ghost use Rattle.odx_host.specs.Linked.{LinkState, Spoke, spoke-append};

    ghost Talks = { λ p talk q. Spoke
        (record { left = K.left p.link; input = p.input; taken = K.taken p.link; read_faults = K.read_faults p.link; write_faults = K.write_faults p.link })
        talk
        (record { left = K.left q.link; input = q.input; taken = K.taken q.link; read_faults = K.read_faults q.link; write_faults = K.write_faults q.link }) };

    ghost IsIn = { λ p w. ⊥ };

    /// `ReadFault` and `WriteFault` come only where the connection counted one; `Ended` where its input ended before a
    /// whole reply; `BadReply` where what stands there is no reply.
    fn ask(&mut self, request: &Request) -> Result<Reply, PortFault> {
        let frame = write_request(self.alloc, request)?;
        push_all(&mut self.link, frame.as_slice())?;
        next_reply(self.alloc, &mut self.link, &mut self.input)
    }

    ghost silent = { λ p. refl };

    ghost goes_on = { λ p q r xs ys first later. spoke-append _ _ _ xs ys first later };

    ghost legal = { λ p w is. absurd is };
}
