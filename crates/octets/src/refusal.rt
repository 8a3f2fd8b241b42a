// Why a call refuses. The rules and C programs name a refusal by its number.
ghost use Rattle.std.specs.Prelude.{◌≡◌};
ghost use Rattle.octets.specs.Refusal.{number_of, Numbered};

use std::error::Error;
use std::fmt;

// 22 is no refusal's number.
#[derive(Clone, Copy, Debug, PartialEq, Eq)]
pub enum Refusal {
    Cut = 1,
    LengthMalformed = 2,
    BlockTooLong = 3,
    NoComma = 4,
    BlockMalformed = 5,
    TooManyHeaders = 6,
    EqualNames = 7,
    NoContentLength = 8,
    BodyTooLong = 9,
    NoScgi = 10,
    HeadTooLong = 11,
    RequestLine = 12,
    Version = 13,
    Target = 14,
    FieldLine = 15,
    Host = 16,
    ContentFields = 17,
    TransferEncoding = 18,
    NoMount = 19,
    Lent = 20,
    NoRoom = 21,
    BodyDiffers = 23,
    ResponseMalformed = 24,
    Contradiction = 25,
}

impl Refusal {
    // The number that C programs know it by.
    pub fn number(self) -> u8
        ensures { result ≡ number_of self }
    {
        self as u8
    }
}

// A number that no refusal has.
#[derive(Clone, Copy, Debug, PartialEq, Eq)]
pub struct UnknownRefusal;

impl TryFrom<u8> for Refusal {
    type Error = UnknownRefusal;

    ghost try_from_gives = { Numbered };

    fn try_from(number: u8) -> Result<Self, UnknownRefusal> {
        Ok(match number {
            1 => Refusal::Cut,
            2 => Refusal::LengthMalformed,
            3 => Refusal::BlockTooLong,
            4 => Refusal::NoComma,
            5 => Refusal::BlockMalformed,
            6 => Refusal::TooManyHeaders,
            7 => Refusal::EqualNames,
            8 => Refusal::NoContentLength,
            9 => Refusal::BodyTooLong,
            10 => Refusal::NoScgi,
            11 => Refusal::HeadTooLong,
            12 => Refusal::RequestLine,
            13 => Refusal::Version,
            14 => Refusal::Target,
            15 => Refusal::FieldLine,
            16 => Refusal::Host,
            17 => Refusal::ContentFields,
            18 => Refusal::TransferEncoding,
            19 => Refusal::NoMount,
            20 => Refusal::Lent,
            21 => Refusal::NoRoom,
            23 => Refusal::BodyDiffers,
            24 => Refusal::ResponseMalformed,
            25 => Refusal::Contradiction,
            _ => return Err(UnknownRefusal),
        })
    }
}

impl fmt::Display for Refusal {
    fn fmt<W: fmt::Write>(&self, f: &mut fmt::Formatter<W>) -> fmt::Result {
        f.write_str(match self {
            Refusal::Cut => "the bytes end before the request does",
            Refusal::LengthMalformed => "netstring length malformed",
            Refusal::BlockTooLong => "block above 16,384 bytes",
            Refusal::NoComma => "no comma after the block",
            Refusal::BlockMalformed => "block malformed",
            Refusal::TooManyHeaders => "more than 128 headers",
            Refusal::EqualNames => "two headers with equal names",
            Refusal::NoContentLength =>
                "the first header is not CONTENT_LENGTH with 1 to 10 digits",
            Refusal::BodyTooLong => "stated body length above 1,048,576 or the mount's limit",
            Refusal::NoScgi => "no header SCGI with value 1",
            Refusal::HeadTooLong => "HTTP head above 8,192 bytes",
            Refusal::RequestLine => "request line malformed",
            Refusal::Version => "HTTP version other than 1.0 and 1.1",
            Refusal::Target => "target refused",
            Refusal::FieldLine => "field line refused, or more than 64 of them",
            Refusal::Host => "Host missing or repeated",
            Refusal::ContentFields =>
                "Content-Length repeated or not 1 to 10 digits, or Content-Type repeated",
            Refusal::TransferEncoding => "Transfer-Encoding present",
            Refusal::NoMount => "no mount fits the path",
            Refusal::Lent => "connection facts, site settings or mounts wrong, or no such edition",
            Refusal::NoRoom => "output or answer too short",
            Refusal::BodyDiffers => "body length differs from CONTENT_LENGTH",
            Refusal::ResponseMalformed => "script response head malformed",
            Refusal::Contradiction => "script response fields contradict each other or the method",
        })
    }
}

impl Error for Refusal {}

impl fmt::Display for UnknownRefusal {
    fn fmt<W: fmt::Write>(&self, f: &mut fmt::Formatter<W>) -> fmt::Result {
        f.write_str("no refusal has the number")
    }
}

impl Error for UnknownRefusal {}
