// Telecommand packets of document 01: the layout that reader and writer share.
#![tactic(auto)]

ghost use Rattle.std.specs.Prelude.{◌≡◌};
ghost use Rattle.tc.specs.Layout.{flag_of, method_of, value_by};

pub mod places;

// The category of every TC.
pub const CATEGORY: u16 = 12;

// The octets before the application data, and all that stand around it: those and the error control.
pub const HEAD: usize = 10;

pub const AROUND: usize = 12;

// The methods of error control.
#[derive(Clone, Copy)]
pub enum Method {
    // Checksum flag 0: the ISO checksum.
    Iso,
    // Checksum flag 1: the CRC.
    Crc,
}

// What a TC packet carries besides its application data.
#[derive(Clone, Copy)]
pub struct Fields {
    pub apid: u16,
    pub count: u16,
    pub checksum: u8,
    pub ack: u8,
    pub kind: u8,
    pub subtype: u8,
    pub pad: u8,
}

// The checksum flag of a method.
impl From<Method> for u16 {
    ghost from_gives = { λ method flag. flag ≡ flag_of method };

    fn from(method: Method) -> u16 {
        match method {
            Method::Iso => 0,
            Method::Crc => 1,
        }
    }
}

// The method that a checksum flag selects.
impl From<u16> for Method {
    ghost from_gives = { λ flag method. method ≡ method_of flag };

    fn from(flag: u16) -> Method {
        if flag == 1 { Method::Crc } else { Method::Iso }
    }
}

// Error control over some octets by a method, for the reader and the writer alike.
pub fn error_control(method: Method, octets: &[u8]) -> u16
    ensures { result ≡ value_by method octets.now }
{
    match method {
        Method::Iso => iso::checksum(octets),
        Method::Crc => crc::crc(crc::ALL_ONES, octets),
    }
}
