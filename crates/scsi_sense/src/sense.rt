ghost use Rattle.std.specs.Prelude.{◌≡◌, ◌≢◌, ◌≤◌, IfSome, IfNone};
ghost use Rattle.scsi_sense.specs.SenseCode.{SenseCode};
ghost use Rattle.scsi_sense.specs.SenseBytes.{sense_bytes};

use std::marker::Model;

/// A sense (SPC-4, Fixed format sense data): a key of at most 15, an additional sense code and its
/// qualifier.
#[derive(Debug, Clone, Copy, PartialEq, Eq)]
pub struct Sense {
    key: u8,
    asc: u8,
    ascq: u8,
}

impl Model for Sense {
    ghost use Rattle.std.specs.Prelude.{◌≤◌};
    ghost use Rattle.scsi_sense.specs.SenseCode.{SenseCode};

    ghost Value = { SenseCode };

    ghost view = { λ s. record { key = s.key; asc = s.asc; ascq = s.ascq } };

    ghost invariant = { λ s. s.key ≤ 15 };

    ghost inverse = { λ v. record { key = v.key; asc = v.asc; ascq = v.ascq } };
}

impl Sense {
    /// The sense of this key, additional sense code and qualifier.
    pub fn new(key: u8, asc: u8, ascq: u8) -> Sense
        requires { key ≤ 15 }
        ensures { result ≡ record { key = key; asc = asc; ascq = ascq } }
    {
        Sense { key, asc, ascq }
    }

    /// SENSE KEY, at most 15.
    pub fn key(self) -> u8
        ensures value { result ≡ self.key }
        ensures small { result ≤ 15 }
    {
        self.key
    }

    /// ADDITIONAL SENSE CODE.
    pub fn asc(self) -> u8
        ensures { result ≡ self.asc }
    {
        self.asc
    }

    /// ADDITIONAL SENSE CODE QUALIFIER.
    pub fn ascq(self) -> u8
        ensures { result ≡ self.ascq }
    {
        self.ascq
    }

    /// The sense in fixed format (SPC-4, Fixed format sense data): response code 70h, and 10
    /// additional bytes.
    pub fn to_bytes(self) -> [u8; 18]
        ensures { result ≡ sense_bytes self }
    {
        let Sense { key, asc, ascq } = self;
        [
            0x70, 0, key, 0, 0, 0, 0, 0x0a, 0, 0, 0, 0, asc, ascq, 0, 0, 0, 0,
        ]
    }

    /// The sense that is spelled by all these bytes, if there is one.
    pub fn from_bytes(bytes: &[u8]) -> Option<Sense>
        ensures spelled { IfSome result (λ s. bytes.now ≡ sense_bytes s) }
        ensures none { IfNone result ((s : SenseCode) → s.key ≤ 15 → bytes.now ≢ sense_bytes s) }
    {
        if bytes.len() != 18 || bytes[2] > 15 {
            return None;
        }
        let sense = Sense::new(bytes[2], bytes[12], bytes[13]);
        (bytes == sense.to_bytes().as_slice()).then_some(sense)
    }
}
