ghost use Rattle.std.specs.Prelude.{◌≡◌, ◌≤◌, length, None, IfOk, true};
ghost use Rattle.scsi_cdb.specs.Encoded.{moved};
ghost use Rattle.block_params.specs.RangesRead.{range_fault};
ghost use Rattle.cm_frame.specs.Grammar.{data_limit};
ghost use Rattle.odx_host.specs.Requests.{populate_request, status_request, write_request};

use block_params::{PopulateList, WriteList, write_populate, write_write_token};
use cm_base::{OutOfMemory, Payload};
use cm_frame::Request;
use lba_ranges::RangeList;
use scsi_cdb::{Cdb, encode};
use std::alloc::Global;

/// Seconds until a token is over that nobody uses.
const TIMEOUT: u32 = 300;

/// Bytes of status that are asked for.
const STATUS_LIMIT: u32 = 1024;

/// The POPULATE TOKEN of these ranges.
pub(crate) fn populate_request(
    alloc: Global,
    unit: u16,
    id: u32,
    ranges: RangeList,
) -> Result<Request, OutOfMemory>
    requires list { range_fault ranges ≡ None }
    requires few { length ranges ≤ 64 }
    ensures request { IfOk result (λ request. request ≡ populate_request unit id ranges) }
    ensures fits { IfOk result (λ request. length request.out ≤ data_limit) }
{
    let list = PopulateList {
        timeout: TIMEOUT,
        ranges,
    };
    let out = write_populate(alloc, &list)?;
    Ok(Request {
        unit,
        cdb: encode(&Cdb::PopulateToken {
            id,
            length: out.len() as u32,
        }),
        out: Payload::copy_from_slice(alloc, out.as_slice())?,
    })
}

/// The RECEIVE ROD TOKEN INFORMATION of an operation.
pub(crate) fn status_request(alloc: Global, unit: u16, id: u32) -> Result<Request, OutOfMemory>
    ensures request { IfOk result (λ request. request ≡ status_request unit id) }
    ensures fits { IfOk result (λ request. length request.out ≤ data_limit) }
{
    Ok(Request {
        unit,
        cdb: encode(&Cdb::TokenInformation {
            id,
            length: STATUS_LIMIT,
        }),
        out: Payload::copy_from_slice(alloc, &[])?,
    })
}

/// The WRITE USING TOKEN of a list.
pub(crate) fn write_request(
    alloc: Global,
    unit: u16,
    id: u32,
    list: &WriteList,
) -> Result<Request, OutOfMemory>
    requires list { range_fault list.now.ranges ≡ None }
    requires few { length list.now.ranges ≤ 64 }
    requires immed { list.now.immed ≡ true }
    requires token { length list.now.token ≡ 512 }
    ensures request { IfOk result (λ request. request ≡ write_request unit id list.now.token list.now.offset list.now.delete list.now.ranges) }
    ensures fits { IfOk result (λ request. length request.out ≤ data_limit) }
{
    let out = write_write_token(alloc, list)?;
    Ok(Request {
        unit,
        cdb: encode(&Cdb::WriteUsingToken {
            id,
            length: out.len() as u32,
        }),
        out: Payload::copy_from_slice(alloc, out.as_slice())?,
    })
}
