use scsi_sense::Sense;

/// How a token operation stands (SPC-4, COPY OPERATION STATUS field).
#[derive(Debug, Drop, Clone, Copy)]
pub enum OperationStatus {
    /// 01h: completed without errors.
    Completed,
    /// 02h: completed with errors, of which this is the first.
    Failed(Sense),
    /// 11h: in progress in foreground.
    Foreground,
    /// 12h: in progress in background.
    Background,
    /// 60h: terminated.
    Terminated,
}
