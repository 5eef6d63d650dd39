// Parameter lists of EXTENDED COPY.
use cm_base::set_u16;
use seg_parse::{ParamFault, read_lid1, write_lid1};
use std::alloc::Global;

/// A list of zeros, but for these numbers of two bytes at these places.
fn list_of(alloc: Global, size: usize, numbers: &[(usize, u16)]) -> Result<Vec<u8>, ParamFault> {
    let mut list = match vec![in alloc; 0u8; size] {
        Ok(list) => list,
        Err(_) => return Err(ParamFault::OutOfMemory),
    };
    for &(place, number) in numbers {
        if place < size && size - place >= 2 {
            set_u16(&mut list, place, number);
        }
    }
    Ok(list)
}

/// Additional sense code and qualifier of a refusal; want of memory has none.
fn code_of(fault: ParamFault) -> Option<(u8, u8)> {
    match fault {
        ParamFault::Refused(sense) => Some((sense.asc(), sense.ascq())),
        ParamFault::OutOfMemory => None,
    }
}

/// Additional sense code and qualifier of a refusal, and 0 where the list was taken. Want of memory is neither.
fn refusal(alloc: Global, list: &[u8]) -> Result<(u8, u8), ParamFault> {
    let Err(fault) = read_lid1(alloc, list) else {
        return Ok((0, 0));
    };
    code_of(fault).ok_or(ParamFault::OutOfMemory)
}

/// A segment that writes to the second unit of a list of one.
const TO_NO_UNIT: [(usize, u16); 6] = [
    (2, 32),
    (10, 28),
    (16, 0xe400),
    (48, 0x0200),
    (50, 0x0018),
    (54, 1),
];

/// Lists that were made to be refused, in the order of the checks.
#[test]
fn hostile_lists(rt: HostRuntime) -> Result<(), ParamFault> {
    let alloc = rt.alloc();
    let lists: [(usize, &[(usize, u16)], (u8, u8)); 14] = [
        (15, &[], (0x1a, 0x00)),
        (16, &[], (0, 0)),
        (16, &[(0, 0x0008), (2, 33), (14, 1)], (0x26, 0x00)),
        (16, &[(2, 33), (14, 1)], (0x26, 0x0b)),
        (16, &[(2, 33)], (0x26, 0x00)),
        (16, &[(2, 544)], (0x26, 0x06)),
        (16, &[(10, 1820)], (0x26, 0x08)),
        (16, &[(10, 28)], (0x1a, 0x00)),
        (43, &[(10, 27), (16, 0x0200)], (0x1a, 0x00)),
        (44, &[(10, 28), (16, 0x0200), (18, 0x0018)], (0x26, 0x00)),
        (48, &[(2, 32), (16, 0xe000)], (0x26, 0x07)),
        (
            76,
            &[(2, 32), (10, 28), (16, 0xe400), (48, 0x0300)],
            (0x26, 0x09),
        ),
        (76, &TO_NO_UNIT, (0x26, 0x00)),
        (
            76,
            &[(2, 32), (10, 28), (16, 0xe400), (48, 0x0200), (50, 0x0018)],
            (0, 0),
        ),
    ];
    for (size, numbers, wanted) in lists {
        let list = list_of(alloc, size, numbers)?;
        let code = refusal(alloc, &list)?;
        assert_eq!(rt; code, wanted, "list of {size}");
    }
    Ok(())
}

/// List 7 without usage of its identifier, a unit with the name 3000000000000001h and blocks of
/// 512 bytes, and 8 blocks of it from 1 to 2. The first list has STR, priority, PAD and CAT.
#[test]
fn list_of_the_standard(rt: HostRuntime) -> Result<(), ParamFault> {
    let alloc = rt.alloc();
    let asked =
        b"\x07\x3e\0\x20\0\0\0\0\0\0\0\x1c\0\0\0\0\xe4\0\0\0\x01\x03\0\x08\x30\0\0\0\0\0\0\x01\0\0\0\0\0\0\0\0\0\0\0\0\x04\0\x02\0\x02\x01\0\x18\0\0\0\0\0\0\0\x08\0\0\0\0\0\0\0\x01\0\0\0\0\0\0\0\x02";
    let wanted =
        b"\x07\x18\0\x20\0\0\0\0\0\0\0\x1c\0\0\0\0\xe4\0\0\0\x01\x03\0\x08\x30\0\0\0\0\0\0\x01\0\0\0\0\0\0\0\0\0\0\0\0\0\0\x02\0\x02\0\0\x18\0\0\0\0\0\0\0\x08\0\0\0\0\0\0\0\x01\0\0\0\0\0\0\0\x02";
    let list = read_lid1(alloc, asked)?;
    let lengths = (list.units.len(), list.segments.len());
    assert!(rt; (list.id, list.usage, lengths) == (7, 3, (1, 1)));
    for unit in list.units.as_slice() {
        if unit.name.is_none() {
            return Err(ParamFault::OutOfMemory);
        }
    }
    assert!(rt; write_lid1(alloc, &list)?.as_slice() == wanted.as_slice());
    Ok(())
}
