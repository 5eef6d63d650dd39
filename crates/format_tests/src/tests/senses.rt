// Sense data of the fixed format.
use scsi_sense::Sense;

/// Each byte of the fixed format, by SPC-4.
#[test]
fn bytes_of_the_standard(rt: HostRuntime) {
    let invalid_field = [
        0x70, 0, 5, 0, 0, 0, 0, 0x0a, 0, 0, 0, 0, 0x24, 0, 0, 0, 0, 0,
    ];
    let token_expired = [
        0x70, 0, 5, 0, 0, 0, 0, 0x0a, 0, 0, 0, 0, 0x23, 0x07, 0, 0, 0, 0,
    ];
    let table = [
        (Sense::invalid_field_in_cdb(), invalid_field),
        (Sense::new(0x05, 0x23, 0x07), token_expired),
    ];
    for (sense, bytes) in table {
        assert!(rt; sense.to_bytes() == bytes && Sense::from_bytes(&bytes) == Some(sense));
    }
    // Descriptor format, a filemark, a further byte, and a byte too few.
    let mut descriptor = invalid_field;
    descriptor[0] = 0x72;
    let mut filemark = invalid_field;
    filemark[2] = 0x85;
    let others: [&[u8]; 4] = [&descriptor, &filemark, &invalid_field[..17], &[]];
    for bytes in others {
        assert!(rt; Sense::from_bytes(bytes).is_none());
    }
}
