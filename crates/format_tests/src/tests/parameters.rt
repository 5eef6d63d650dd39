// Parameter lists of the token commands and of UNMAP.
use block_params::{
    ParamFault, read_populate, read_unmap, read_write_token, write_populate, write_unmap,
    write_write_token,
};
use cm_base::{Bytes, set_u16};
use lba_ranges::{Range, RangeList};
use std::alloc::Global;

/// A list of zeros, but for these numbers of two bytes at these places.
fn list_of(alloc: Global, size: usize, numbers: &[(usize, u16)]) -> Result<Vec<u8>, ParamFault> {
    let mut list = match vec![in alloc; 0u8; size] {
        Ok(list) => list,
        Err(_) => return Err(ParamFault::OutOfMemory),
    };
    for &(place, number) in numbers {
        if place < size && size - place >= 2 {
            set_u16(&mut list, place, number);
        }
    }
    Ok(list)
}

/// The additional sense code of a refusal; want of memory has none.
fn code_of(fault: ParamFault) -> Option<u8> {
    match fault {
        ParamFault::Refused(sense) => Some(sense.asc()),
        ParamFault::OutOfMemory => None,
    }
}

/// The additional sense code of a refusal, and 0 where the list was taken. Want of memory is neither.
fn refusal<T: Drop>(read: Result<T, ParamFault>) -> Result<u8, ParamFault> {
    let Err(fault) = read else {
        return Ok(0);
    };
    code_of(fault).ok_or(ParamFault::OutOfMemory)
}

/// UNMAP lists that were made to be refused, and their neighbours, in the order of the checks.
#[test]
fn hostile_unmaps(rt: HostRuntime) -> Result<(), ParamFault> {
    let alloc = rt.alloc();
    let unmaps: [(usize, &[(usize, u16)], u8); 5] = [
        (0, &[], 0),
        (7, &[], 0x1a),
        (8, &[(2, 0xffff)], 0),
        (1048, &[(2, 1040)], 0x26),
        (1047, &[(2, 1040)], 0),
    ];
    for (size, numbers, wanted) in unmaps {
        let list = list_of(alloc, size, numbers)?;
        let code = refusal(read_unmap(alloc, &list))?;
        assert_eq!(rt; code, wanted, "UNMAP of {size}");
    }
    Ok(())
}

/// The last block and the first, in ranges of one list.
const ENDS: [(usize, u16); 8] = [
    (0, 46),
    (14, 32),
    (16, 0xffff),
    (18, 0xffff),
    (20, 0xffff),
    (22, 0xffff),
    (26, 1),
    (42, 1),
];

/// POPULATE TOKEN lists that were made to be refused, and their neighbours.
#[test]
fn hostile_populates(rt: HostRuntime) -> Result<(), ParamFault> {
    let alloc = rt.alloc();
    let populates: [(usize, &[(usize, u16)], u8); 12] = [
        (15, &[], 0x1a),
        (16, &[(0, 15)], 0x1a),
        (16, &[(0, 14)], 0),
        (32, &[(0, 30), (14, 17)], 0x26),
        (32, &[(0, 30), (14, 32)], 0x1a),
        (1056, &[(0, 1054), (14, 1040)], 0x26),
        (16, &[(0, 14), (6, 3601)], 0x26),
        (16, &[(0, 14), (2, 0x0200), (8, 0x0080), (10, 1)], 0x26),
        (16, &[(0, 14), (2, 0x0200), (8, 0x0080), (10, 0xffff)], 0),
        // (5, 0) and (5, 1); the last block and the first; too many blocks.
        (48, &[(0, 46), (14, 32), (22, 5), (38, 5), (42, 1)], 0),
        (48, &ENDS, 0),
        (32, &[(0, 30), (14, 16), (24, 0xffff), (26, 0xffff)], 0x26),
    ];
    for (size, numbers, wanted) in populates {
        let list = list_of(alloc, size, numbers)?;
        let code = refusal(read_populate(alloc, &list))?;
        assert_eq!(rt; code, wanted, "POPULATE of {size}");
    }
    Ok(())
}

/// WRITE USING TOKEN lists that were made to be refused, and one that is taken.
#[test]
fn hostile_token_writes(rt: HostRuntime) -> Result<(), ParamFault> {
    let alloc = rt.alloc();
    let writes: [(usize, &[(usize, u16)], u8); 3] = [
        (535, &[], 0x1a),
        (552, &[(0, 550), (534, 16), (546, 1)], 0),
        (568, &[(0, 566), (534, 32), (546, 1), (562, 1)], 0x26),
    ];
    for (size, numbers, wanted) in writes {
        let list = list_of(alloc, size, numbers)?;
        let code = refusal(read_write_token(alloc, &list))?;
        assert_eq!(rt; code, wanted, "WRITE of {size}");
    }
    Ok(())
}

/// An UNMAP list of 8 blocks from 1000h on, by SBC-3.
const UNMAP: [u8; 24] = *b"\0\x16\0\x10\0\0\0\0\0\0\0\0\0\0\x10\0\0\0\0\x08\0\0\0\0";

/// The UNMAP list of 8 blocks from 1000h on, as it is written.
fn unmap_of_8_blocks(alloc: Global) -> Result<Bytes, ParamFault> {
    let mut ranges = RangeList::empty(alloc);
    ranges.push(Range {
        lba: 0x1000,
        count: 8,
    })?;
    Ok(write_unmap(alloc, &ranges)?)
}

#[test]
fn unmap_of_the_standard(rt: HostRuntime) -> Result<(), ParamFault> {
    let alloc = rt.alloc();
    assert!(rt; unmap_of_8_blocks(alloc)?.as_slice() == UNMAP.as_slice());
    assert!(rt; read_unmap(alloc, &UNMAP)?.len() == 1);
    Ok(())
}

/// A POPULATE TOKEN list of 8 blocks from 1000h on, by SBC-3, which leaves the timeout to the unit.
const POPULATE: [u8; 32] =
    *b"\0\x1e\0\0\0\0\0\0\0\0\0\0\0\0\0\x10\0\0\0\0\0\0\x10\0\0\0\0\x08\0\0\0\0";

/// The same list as it is written, with the timeout of 300 seconds.
const WRITTEN: [u8; 32] =
    *b"\0\x1e\x02\0\0\0\x01\x2c\0\x80\0\0\0\0\0\x10\0\0\0\0\0\0\x10\0\0\0\0\x08\0\0\0\0";

/// The list that these bytes spell, as it is written.
fn written_populate(alloc: Global, list: &[u8]) -> Result<Bytes, ParamFault> {
    let list = read_populate(alloc, list)?;
    Ok(write_populate(alloc, &list)?)
}

#[test]
fn populate_of_the_standard(rt: HostRuntime) -> Result<(), ParamFault> {
    let alloc = rt.alloc();
    assert!(rt; read_populate(alloc, &POPULATE)?.timeout == 300);
    assert!(rt; written_populate(alloc, &POPULATE)?.as_slice() == WRITTEN.as_slice());
    Ok(())
}

/// IMMED and DEL_TKN, an offset of 3 blocks, a token of zeros.
const TOKEN_WRITE: [(usize, u16); 6] = [
    (0, 550),
    (2, 0x0300),
    (14, 3),
    (534, 16),
    (542, 0x1000),
    (546, 8),
];

/// The list is read with these fields, and written as it was.
fn is_token_write(alloc: Global, asked: &[u8]) -> Result<bool, ParamFault> {
    let list = read_write_token(alloc, asked)?;
    let is_read = list.immed && list.delete && list.offset == 3 && list.token == [0; 512];
    Ok(is_read && write_write_token(alloc, &list)?.as_slice() == asked)
}

/// The bytes of a WRITE USING TOKEN list by SBC-3.
#[test]
fn token_write_of_the_standard(rt: HostRuntime) -> Result<(), ParamFault> {
    let alloc = rt.alloc();
    let asked = list_of(alloc, 552, &TOKEN_WRITE)?;
    assert!(rt; is_token_write(alloc, &asked)?);
    Ok(())
}
