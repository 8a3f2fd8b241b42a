// The SCGI reader and writer.
use printing::{Answer, Refused, Told, line};
use scgi::read::read;
use scgi::write::write;

// "Bytes to check against", and the examples of the SCGI text of 2008.
const READS: &[&[u8]] = &[
    b"",
    b"0",
    b"05",
    b":",
    b"16385",
    b"0:,",
    b"0:x",
    b"70:CONTENT_LENGTH\027\0SCGI\01\0REQUEST_METHOD\0POST\0REQUEST_URI\0/deepthought\0,What is the answer to life?",
    b"70:CONTENT_LENGTH\027\0SCGI\01\0REQUEST_METHOD\0POST\0REQUEST_URI\0/deepthought\0,What is the answer to life",
    b"70:CONTENT_LENGTH\027\0SCGI\01\0REQUEST_METHOD\0POST\0REQUEST_URI\0/deepthought\0,What is the answer to life?x",
    b"12:hello world!,",
];

// Which fault comes first.
const ORDER: &[&[u8]] = &[
    b"016385",
    b"16384x",
    b"163840",
    b"12,",
    b"3:A\0b",
    b"3:A\0b,",
    b"3:A\0b;",
    b"1:\0,",
    b"24:CONTENT_LENGTH\00\0SCGI\01\0,",
    b"24:CONTENT_LENGTH\00\0SCGI\02\0,",
    b"24:SCGI\01\0CONTENT_LENGTH\00\0,",
    b"24:CONTENT_LENGTH\0x\0SCGI\01\0,",
    b"41:CONTENT_LENGTH\0x\0CONTENT_LENGTH\00\0SCGI\01\0,",
    b"31:CONTENT_LENGTH\000000001\0SCGI\01\0,x",
    b"30:CONTENT_LENGTH\01048576\0SCGI\01\0,",
    b"30:CONTENT_LENGTH\01048577\0SCGI\01\0,",
    b"43:CONTENT_LENGTH\018446744073709551616\0SCGI\01\0,",
];

// Blocks, each with a body.
const WRITES: &[(&[u8], &[u8])] = &[
    (
        b"CONTENT_LENGTH\027\0SCGI\01\0REQUEST_METHOD\0POST\0REQUEST_URI\0/deepthought\0",
        b"What is the answer to life?",
    ),
    (b"CONTENT_LENGTH\00\0SCGI\01\0", b""),
    (b"", b""),
    (b"A", b""),
    (b"A\01\0A\02\0", b""),
    (b"SCGI\01\0", b""),
    (b"CONTENT_LENGTH\09999999\0", b""),
    (b"CONTENT_LENGTH\00\0", b"x"),
    (b"CONTENT_LENGTH\00\0SCGI\01\0", b"x"),
    (
        b"CONTENT_LENGTH\087\0SCGI\01\0",
        b"012345678901234567890123456789012345678901234567890123456789012345678901234567890123456",
    ),
];

// The places of block and body, and the bytes used.
fn request(s: &[u8]) -> Answer<Told<5>> {
    Answer(read(s).map(|r| Told(
        "request",
        [r.block.start, r.block.len, r.body.start, r.body.len, r.used],
    )))
}

// What the reader gives.
pub fn show_reads(rt: &impl Print, cases: &[&[u8]]) {
    for &s in cases {
        line(rt, request(s));
    }
}

// Writes into 110 bytes, and reads what was written.
pub fn show_writes(rt: &impl Print, cases: &[(&[u8], &[u8])]) {
    for &(block, body) in cases {
        let mut out = [120u8; 110];
        match write(block, body, &mut out) {
            Ok(n) => line(rt, format_args!("wrote {n}, {}", request(&out))),
            Err(e) => line(rt, Refused(e)),
        }
    }
}

pub fn all(rt: &impl Print) {
    show_reads(rt, READS);
    show_reads(rt, ORDER);
    show_writes(rt, WRITES);
}
