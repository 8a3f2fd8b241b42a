// The reader for bytes that come in runs. 02 §5: "Whatever the cutting .. the refusal, the block, the body bytes in order and the used count
// equal those of 01's reader over the joined bytes taken".
use printing::{Answer, Shown, Told, line};
use socket::reader::Socket;

// The example of the SCGI text, cut in its digits, behind its colon, in its block, before its comma, behind it, in its body, before its
// last byte and nowhere.
const EXAMPLE: &[(&[u8], &[u8])] = &[
    (
        b"7",
        b"0:CONTENT_LENGTH\027\0SCGI\01\0REQUEST_METHOD\0POST\0REQUEST_URI\0/deepthought\0,What is the answer to life?",
    ),
    (
        b"70:",
        b"CONTENT_LENGTH\027\0SCGI\01\0REQUEST_METHOD\0POST\0REQUEST_URI\0/deepthought\0,What is the answer to life?",
    ),
    (
        b"70:CONTENT_LENGTH\027\0SCGI\01\0REQ",
        b"UEST_METHOD\0POST\0REQUEST_URI\0/deepthought\0,What is the answer to life?x",
    ),
    (
        b"70:CONTENT_LENGTH\027\0SCGI\01\0REQUEST_METHOD\0POST\0REQUEST_URI\0/deepthought\0",
        b",What is the answer to life?xyz",
    ),
    (
        b"70:CONTENT_LENGTH\027\0SCGI\01\0REQUEST_METHOD\0POST\0REQUEST_URI\0/deepthought\0,",
        b"What is the answer to life?",
    ),
    (
        b"70:CONTENT_LENGTH\027\0SCGI\01\0REQUEST_METHOD\0POST\0REQUEST_URI\0/deepthought\0,What is the",
        b" answer to life?",
    ),
    (
        b"70:CONTENT_LENGTH\027\0SCGI\01\0REQUEST_METHOD\0POST\0REQUEST_URI\0/deepthought\0,What is the answer to life",
        b"?70",
    ),
    (
        b"70:CONTENT_LENGTH\027\0SCGI\01\0REQUEST_METHOD\0POST\0REQUEST_URI\0/deepthought\0,What is the answer to life?70",
        b"",
    ),
];

// No body: the end comes with the comma.
const NO_BODY: &[(&[u8], &[u8])] = &[
    (b"24:CONTENT_LENGTH\00\0SCGI\01\0", b","),
    (b"24:CONTENT_LENGTH\00\0SCGI\01\0,x", b""),
];

// Each refusal: 2 and 3 at the digit, 4 to 10 at the comma's place. Nothing is stored for the first two.
const REFUSALS: &[(&[u8], &[u8])] = &[
    (b"", b":"),
    (b"0", b"5:"),
    (b"1", b"6385"),
    (b"0", b":x"),
    (b"3:A\0", b"b,"),
    (b"6:A\0\0A\0", b"\0,body"),
    (b"0:", b","),
    (b"23:CONTENT_LENGTH\01048577\0", b","),
    (b"17:CONTENT_LENGTH", b"\00\0,"),
];

// 129 headers.
const TOO_MANY: &[(&[u8], &[u8])] = &[(
    b"387:A\0\0A\0\0A\0\0A\0\0A\0\0A\0\0A\0\0A\0\0A\0\0A\0\0A\0\0A\0\0A\0\0A\0\0A\0\0A\0\0A\0\0A\0\0A\0\0A\0\0A\0\0A\0\0A\0\0A\0\0A\0\0A\0\0A\0\0A\0\0A\0\0A\0\0A\0\0A\0\0A\0\0A\0\0A\0\0A\0\0A\0\0A\0\0A\0\0A\0\0A\0\0A\0\0A\0\0A\0\0A\0\0A\0\0A\0\0A\0\0A\0\0A\0\0A\0\0A\0\0A\0\0A\0\0A\0\0A\0\0A\0\0A\0\0A\0\0A\0\0A\0\0A\0\0A\0\0A\0\0A\0\0",
    b"A\0\0A\0\0A\0\0A\0\0A\0\0A\0\0A\0\0A\0\0A\0\0A\0\0A\0\0A\0\0A\0\0A\0\0A\0\0A\0\0A\0\0A\0\0A\0\0A\0\0A\0\0A\0\0A\0\0A\0\0A\0\0A\0\0A\0\0A\0\0A\0\0A\0\0A\0\0A\0\0A\0\0A\0\0A\0\0A\0\0A\0\0A\0\0A\0\0A\0\0A\0\0A\0\0A\0\0A\0\0A\0\0A\0\0A\0\0A\0\0A\0\0A\0\0A\0\0A\0\0A\0\0A\0\0A\0\0A\0\0A\0\0A\0\0A\0\0A\0\0A\0\0A\0\0A\0\0A\0\0,",
)];

// A run, with a buffer: the answer, the bytes of the body and those after the end, the state, which is handed back.
fn show(rt: &impl Print, s: Socket, run: &[u8], block: &mut [u8]) -> Socket {
    let t = s.feed(run, block);
    let answer = Answer(
        t.answer
            .map(|r| Told("request", [r.block_len, r.body_len, r.used])),
    );
    let counts = Told("counts", [t.body, t.after]);
    let next = t.state;
    let state = Told(
        "state",
        [
            next.stage,
            next.refusal,
            next.digits,
            next.len,
            next.stored,
            next.body,
            next.seen,
        ],
    );
    line(rt, format_args!("{answer} {counts} {state}"));
    next
}

// The bytes in two runs, one of no bytes, and one more; then the first bytes of the buffer, which was full of x.
fn show_cut(rt: &impl Print, first: &[u8], second: &[u8]) {
    let mut block = [120u8; 16384];
    let mut s = Socket::fresh();
    for run in [first, b"", second, b"24:"] {
        s = show(rt, s, run, &mut block);
    }
    line(rt, Shown(block.get(..80).unwrap_or(&block)));
}

// A request byte by byte, and the answer.
fn byte_by_byte(rt: &impl Print) {
    let mut block = [120u8; 16384];
    let mut s = Socket::fresh();
    for &b in b"70:CONTENT_LENGTH\027\0SCGI\01\0REQUEST_METHOD\0POST\0REQUEST_URI\0/deepthought\0,What is the answer to life?"
    {
        s = s.feed(&[b], &mut block).state;
    }
    show(rt, s, b"", &mut block);
}

// "a shorter one is 21 first, after the end too, takes no bytes, changes nothing and ends nothing"
fn short_buffers(rt: &impl Print) {
    let mut block = [120u8; 16384];
    let mut short = [120u8; 16383];
    let mut s = show(rt, Socket::fresh(), b"24:CONTENT_LEN", &mut block);
    s = show(rt, s, b"GTH\00\0SCGI\01\0,", &mut short);
    s = show(rt, s, b"GTH\00\0SCGI\01\0,", &mut []);
    s = show(rt, s, b"GTH\00\0SCGI\01\0,", &mut block);
    s = show(rt, s, b"x", &mut short);
    show(rt, s, b"x", &mut block);
}

// States that did not come from a call.
fn other_states(rt: &impl Print) {
    let fresh = Socket::fresh();
    let states = [
        Socket { stage: 4, ..fresh },
        Socket {
            stage: 4,
            refusal: 1,
            ..fresh
        },
        Socket {
            stage: 4,
            refusal: 2,
            len: 7,
            ..fresh
        },
        Socket {
            stage: 4,
            refusal: 10,
            len: 7,
            ..fresh
        },
        Socket {
            stage: 4,
            refusal: 11,
            len: 7,
            ..fresh
        },
        Socket {
            stage: 4,
            refusal: 21,
            len: 7,
            ..fresh
        },
        Socket {
            stage: 4,
            refusal: 256,
            len: 7,
            ..fresh
        },
        Socket {
            stage: 5,
            refusal: 2,
            len: 7,
            ..fresh
        },
        Socket {
            stage: 3,
            refusal: 2,
            digits: 99999,
            len: 99999,
            stored: 99999,
            body: 9999999,
            seen: 9999999,
        },
    ];
    let mut block = [120u8; 16384];
    for s in states {
        show(rt, s, b"1", &mut block);
    }
}

pub fn all(rt: &impl Print) {
    for cases in [EXAMPLE, NO_BODY, REFUSALS, TOO_MANY] {
        for &(first, second) in cases {
            show_cut(rt, first, second);
        }
    }
    byte_by_byte(rt);
    short_buffers(rt);
    other_states(rt);
}
