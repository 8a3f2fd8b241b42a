// Decimal numbers of ten and of eleven digits. 02 §2: "a decimal number read has at most 10 digits: a longer one is 8 in SCGI, 17 in HTTP,
// 20 in the port. This comes before 9".
use crate::gateway_cases::{EXAMPLE, show_bytes, show_each};
use crate::gateway_lent::show_sites;
use crate::scgi_cases::{show_reads, show_writes};
use printing::{Answer, line};
use scgi::spool::{Ending, spool};

// Zeros in front count; a number above the limit is 9 in ten digits and 8 in eleven.
const READS: &[&[u8]] = &[
    b"33:CONTENT_LENGTH\00000000003\0SCGI\01\0,abc",
    b"34:CONTENT_LENGTH\000000000003\0SCGI\01\0,abc",
    b"33:CONTENT_LENGTH\00001048577\0SCGI\01\0,",
    b"33:CONTENT_LENGTH\09999999999\0SCGI\01\0,",
    b"34:CONTENT_LENGTH\000001048577\0SCGI\01\0,",
    b"34:CONTENT_LENGTH\099999999999\0SCGI\01\0,",
    b"88:CONTENT_LENGTH\000000000000000000000000000000000000000000000000000000000000000003\0SCGI\01\0,abc",
];

// Eleven digits, and two equal names: 7. Without SCGI: 8, and with ten digits 10.
const ORDER: &[&[u8]] = &[
    b"40:CONTENT_LENGTH\000000000003\0SCGI\01\0A\0\0A\0\0,",
    b"27:CONTENT_LENGTH\000000000003\0,",
    b"26:CONTENT_LENGTH\00000000003\0,",
];

const WRITES: &[(&[u8], &[u8])] = &[
    (b"CONTENT_LENGTH\00000000003\0SCGI\01\0", b"abc"),
    (b"CONTENT_LENGTH\000000000003\0SCGI\01\0", b"abc"),
    (b"CONTENT_LENGTH\09999999999\0SCGI\01\0", b""),
    (b"CONTENT_LENGTH\099999999999\0SCGI\01\0", b""),
];

// A request between two others.
const SPOOLS: &[&[u8]] = &[
    b"24:CONTENT_LENGTH\00\0SCGI\01\0,33:CONTENT_LENGTH\00000000003\0SCGI\01\0,abc24:CONTENT_LENGTH\00\0SCGI\01\0,",
    b"24:CONTENT_LENGTH\00\0SCGI\01\0,34:CONTENT_LENGTH\000000000003\0SCGI\01\0,abc24:CONTENT_LENGTH\00\0SCGI\01\0,",
];

// The value is trimmed first; 16 before 17 and 17 before 18, 19 and 9.
const REQUESTS: &[&[u8]] = &[
    b"POST /jobs HTTP/1.0\r\nContent-Length: 00000000005\r\n\r\nhello",
    b"POST /jobs HTTP/1.0\r\nContent-Length: 9999999999\r\n\r\nhello",
    b"POST /jobs HTTP/1.0\r\nContent-Length: 99999999999\r\n\r\nhello",
    b"POST /jobs HTTP/1.1\r\nContent-Length: 99999999999\r\n\r\nhello",
    b"POST /jobsx HTTP/1.0\r\nTransfer-Encoding: a\r\nContent-Length: 00000000005\r\n\r\nhello",
];

// 20 in the port, as every number above 65535 and every leading zero is.
const PORTS: &[&[u8]] = &[
    b"SERVER_SOFTWARE\0g\0SERVER_PORT\09999999999\0",
    b"SERVER_SOFTWARE\0g\0SERVER_PORT\010000000080\0",
    b"SERVER_SOFTWARE\0g\0SERVER_PORT\00000000080\0",
    b"SERVER_SOFTWARE\0g\0SERVER_PORT\000000000080\0",
];

// How many requests there are before the end, the place after them, and the end.
fn show_spool(rt: &impl Print, bytes: &[u8]) {
    let r = spool(bytes, &mut [0u64; 4]);
    let end = match r.ending {
        Ending::Whole => Ok("whole"),
        Ending::Cut => Ok("cut"),
        Ending::Full => Ok("full"),
        Ending::Refused(e) => Err(e),
    };
    line(
        rt,
        format_args!("spool {} {}, {}", r.count, r.next, Answer(end)),
    );
}

pub fn all(rt: &impl Print) {
    show_reads(rt, READS);
    show_reads(rt, ORDER);
    show_writes(rt, WRITES);
    for &bytes in SPOOLS {
        show_spool(rt, bytes);
    }
    show_bytes(
        rt,
        EXAMPLE,
        b"POST /jobs HTTP/1.0\r\nContent-Length: \t0000000005 \r\n\r\nhello",
    );
    show_each(rt, EXAMPLE, REQUESTS);
    show_sites(rt, PORTS);
}
