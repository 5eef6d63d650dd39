use cm_base::Payload;
use scsi_sense::Sense;

/// What an initiator asks of a unit.
#[derive(Drop)]
pub struct Request {
    /// Number of the addressed unit.
    pub unit: u16,
    /// The command descriptor block; a shorter one is followed by any bytes.
    pub cdb: [u8; 16],
    /// The data-out, at most 8,388,608 bytes.
    pub out: Payload,
}

/// How a command ended.
#[derive(Drop)]
pub enum Reply {
    /// GOOD, with the data-in, at most 8,388,608 bytes.
    Good(Payload),
    /// CHECK CONDITION.
    Check(Sense),
    /// BUSY: memory was wanted.
    Busy,
    /// RESERVATION CONFLICT: a persistent reservation stands against the command.
    Conflict,
    /// TASK SET FULL: a unit's record has no room.
    Full,
}
