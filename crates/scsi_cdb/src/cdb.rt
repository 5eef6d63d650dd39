/// A command of the profile. `length` is the allocation length of a command that asks for data, and
/// the parameter list length of one that brings a list, both in bytes; `lba` and `count` are in
/// blocks; `id` is the LIST IDENTIFIER of a copy operation.
#[derive(Debug, Drop, Clone, Copy, PartialEq, Eq)]
pub enum Cdb {
    /// SPC-4, TEST UNIT READY.
    TestUnitReady,
    /// SPC-4, REQUEST SENSE, in fixed format.
    RequestSense {
        length: u8,
    },
    /// SPC-4, INQUIRY. `page` is the PAGE CODE of a vital product data page, which EVPD asks for.
    Inquiry {
        evpd: bool,
        page: u8,
        length: u16,
    },
    /// SBC-3, READ (10) and READ (16).
    Read {
        lba: u64,
        count: u32,
    },
    /// SBC-3, WRITE (10) and WRITE (16).
    Write {
        lba: u64,
        count: u32,
    },
    /// SBC-3, UNMAP.
    Unmap {
        length: u16,
    },
    /// SBC-3, READ CAPACITY (10).
    ReadCapacity10,
    /// SBC-3, READ CAPACITY (16).
    ReadCapacity16 {
        length: u32,
    },
    /// SBC-3, GET LBA STATUS.
    GetLbaStatus {
        lba: u64,
        length: u32,
    },
    /// SPC-4, REPORT LUNS.
    ReportLuns {
        length: u32,
    },
    /// SPC-4, PERSISTENT RESERVE IN. `action` is the code of its service action: 0 READ KEYS,
    /// 1 READ RESERVATION.
    PersistentIn {
        action: u8,
        length: u16,
    },
    /// SPC-4, PERSISTENT RESERVE OUT. `action` is the code of a `ReservationAction`; `scope` and
    /// `kind`, the type of a reservation, are at most 15.
    PersistentOut {
        action: u8,
        scope: u8,
        kind: u8,
        length: u32,
    },
    /// SPC-4, EXTENDED COPY (LID1).
    ExtendedCopy {
        length: u32,
    },
    /// SBC-3, POPULATE TOKEN.
    PopulateToken {
        id: u32,
        length: u32,
    },
    /// SBC-3, WRITE USING TOKEN.
    WriteUsingToken {
        id: u32,
        length: u32,
    },
    /// SPC-4, COPY OPERATION ABORT; the place of the LIST IDENTIFIER is of this profile's own.
    CopyAbort {
        id: u32,
    },
    /// SPC-4, RECEIVE COPY STATUS (LID1).
    CopyStatus1 {
        id: u8,
        length: u32,
    },
    /// SPC-4, RECEIVE COPY OPERATING PARAMETERS.
    CopyParameters {
        length: u32,
    },
    /// SPC-4, RECEIVE COPY STATUS (LID4).
    CopyStatus4 {
        id: u32,
        length: u32,
    },
    /// SPC-4, RECEIVE ROD TOKEN INFORMATION.
    TokenInformation {
        id: u32,
        length: u32,
    },
}
