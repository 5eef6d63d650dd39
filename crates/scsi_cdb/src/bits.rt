ghost use Rattle.std.specs.Prelude.{⊤, ◌≡◌, ◌==◌, ◌<◌, ◌/◌, ◌%◌, [], ◌∷◌, not, codes};

use bitflags::{Flag, Flags, bitflag_items};

/// The CONTROL byte, the last one of a CDB (SAM-5, CONTROL byte).
#[derive(Clone, Copy, PartialEq, Eq, Debug)]
pub struct Control(u8);

bitflag_items! {
    impl Control: u8 {
        const NACA = 0x04;
    }
}

impl Flags for Control {
    type Bits = u8;

    ghost exact = { ⊤ };

    ghost table = { (codes "NACA", 0x04) ∷ [] };

    ghost set_of = { λ c. c.0 };

    fn flags<'a>() -> &'a [Flag<Control>] {
        Control::FLAGS
    }

    fn bits(&self) -> u8 {
        self.0
    }

    fn from_bits_retain(bits: u8) -> Control {
        Control(bits)
    }
}

/// Byte 1 of a CDB: which of these bits a command has depends on its operation code.
#[derive(Clone, Copy, PartialEq, Eq, Debug)]
pub struct Options(u8);

bitflag_items! {
    impl Options: u8 {
        const EVPD = 0x01;
        const DESC = 0x01;
        const ANCHOR = 0x01;
        const SERVICE_ACTION = 0x1f;
        const PROTECT = 0xe0;
    }
}

impl Flags for Options {
    type Bits = u8;

    ghost exact = { ⊤ };

    ghost table = { (codes "EVPD", 0x01) ∷ (codes "DESC", 0x01) ∷ (codes "ANCHOR", 0x01)
        ∷ (codes "SERVICE_ACTION", 0x1f) ∷ (codes "PROTECT", 0xe0) ∷ [] };

    ghost set_of = { λ o. o.0 };

    fn flags<'a>() -> &'a [Flag<Options>] {
        Options::FLAGS
    }

    fn bits(&self) -> u8 {
        self.0
    }

    fn from_bits_retain(bits: u8) -> Options {
        Options(bits)
    }
}

/// NACA is asked for: a contingent allegiance, which is not supported.
pub fn has_naca(control: u8) -> bool
    ensures { result ≡ (control / 4 % 2 == 1) }
{
    Control(control).contains(Control::NACA)
}

/// EVPD in INQUIRY, DESC in REQUEST SENSE.
pub fn has_lowest(byte: u8) -> bool
    ensures { result ≡ (byte / 1 % 2 == 1) }
{
    Options(byte).contains(Options::EVPD)
}

/// The service action, where the operation code has service actions.
pub fn service_action(byte: u8) -> u8
    ensures { result ≡ byte % 32 }
{
    Options(byte).intersection(Options::SERVICE_ACTION).bits()
}

/// RDPROTECT or WRPROTECT is not 0.
pub fn has_protect(byte: u8) -> bool
    ensures { result ≡ not (byte / 32 % 8 == 0) }
{
    Options(byte).intersects(Options::PROTECT)
}

/// The scope of a reservation command.
pub fn scope(byte: u8) -> u8
    ensures scope { result ≡ byte / 16 % 16 }
    ensures small { result < 16 }
{
    byte >> 4
}

/// The type of a reservation.
pub fn kind(byte: u8) -> u8
    ensures kind { result ≡ byte / 1 % 16 }
    ensures small { result < 16 }
{
    byte & 0x0f
}
