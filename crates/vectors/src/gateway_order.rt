// The order of the gateway's refusals: 20; 11 or 1; 12; 13; 14; 15; 16; 17; 18; 19; 9; 1 for a short body; 21.
// Each pair of neighbours has a request with both faults, which gives the earlier number, and one with the later fault alone.
use crate::gateway_cases::{EXAMPLE, Lent, show, show_each, show_into};
use crate::gateway_lent::SMALL;
use octets::copy::put;

// 1 and 12, the end of the head one byte short.
const CUT_FIRST: &[&[u8]] = &[b"A\r\n\r", b"A\r\n\r\n"];

// 12 and 13; 13 and 14; 14 and 15.
const LINE_ORDER: &[&[u8]] = &[
    b"G@T /jobs HTTP/2.0\r\n\r\n",
    b"GET /jobs HTTP/2.0\r\n\r\n",
    b"GET /jobs/%2F HTTP/1.2\r\n\r\n",
    b"GET /jobs/%2F HTTP/1.0\r\n\r\n",
    b"GET /jobs/.. HTTP/1.0\r\nJob_Id: 1\r\n\r\n",
    b"GET /jobs HTTP/1.0\r\nJob_Id: 1\r\n\r\n",
];

// 15 and 16; 16 and 17; 17 and 18; 18 and 19.
const FIELD_ORDER: &[&[u8]] = &[
    b"POST /jobs HTTP/1.1\r\n A: 1\r\n\r\n",
    b"POST /jobs HTTP/1.1\r\nA: 1\r\n\r\n",
    b"POST /jobs HTTP/1.1\r\nContent-Length: x\r\n\r\n",
    b"POST /jobs HTTP/1.1\r\nHost: q\r\nContent-Length: x\r\n\r\n",
    b"POST /jobs HTTP/1.0\r\nTransfer-Encoding: a\r\nContent-Length: x\r\n\r\n",
    b"POST /jobs HTTP/1.0\r\nTransfer-Encoding: a\r\nContent-Length: 0\r\n\r\n",
    b"POST /jobsx HTTP/1.0\r\nTransfer-Encoding: a\r\n\r\n",
    b"POST /jobsx HTTP/1.0\r\n\r\n",
];

// The order is that of the numbers, not of the lines: 15, 16 and 17 in lines after those of a later number.
const NOT_BY_LINES: &[&[u8]] = &[
    b"POST /jobs HTTP/1.1\r\nHost: q\r\nHost: q\r\nContent-Length: x\r\nJob_Id: 1\r\n\r\n",
    b"POST /jobs HTTP/1.1\r\nContent-Length: x\r\nHost: q\r\nHost: q\r\n\r\n",
    b"POST /jobs HTTP/1.0\r\nTransfer-Encoding: a\r\nContent-Type: a\r\nContent-Type: b\r\n\r\n",
];

// 19 and 9; 9 and 1.
const BODY_ORDER: &[&[u8]] = &[
    b"POST /jobsx HTTP/1.0\r\nContent-Length: 1048577\r\n\r\n",
    b"POST /jobs HTTP/1.0\r\nContent-Length: 1048577\r\n\r\n",
    b"POST /jobs HTTP/1.0\r\nContent-Length: 1048576\r\n\r\n",
];

// 1 and 21; and 19 and 21.
const ROOM_LAST: &[&[u8]] = &[
    b"POST /jobs HTTP/1.0\r\nContent-Length: 5\r\n\r\nhell",
    b"POST /jobs HTTP/1.0\r\nContent-Length: 5\r\n\r\nhello",
    b"POST /jobsx HTTP/1.0\r\nContent-Length: 5\r\n\r\nhello",
];

// Under connection facts without REMOTE_ADDR.
fn show_wrong(rt: &impl Print, http: &[u8]) {
    show(
        rt,
        Lent {
            facts: b"",
            ..SMALL
        },
        http,
    );
}

// 20 and 11; 20 and 1. The 8,192 bytes without an end of the head are a bad first line too: 11 and 12.
fn lent_first(rt: &impl Print) {
    let long = [65u8; 8192];
    show_wrong(rt, &long);
    show(rt, EXAMPLE, &long);
    show_wrong(rt, b"");
    show(rt, EXAMPLE, b"");
    show_wrong(rt, b"GET /jobs HTTP/1.0\r\n\r\n");
}

// 11 and 12, the end of the head one byte late; and in its last place, where 12 is left.
fn head_end_first(rt: &impl Print) {
    let mut late = [65u8; 8193];
    put(&mut late, 8189, b"\r\n\r\n");
    show(rt, EXAMPLE, &late);
    show(rt, EXAMPLE, &late[1..]);
}

pub fn all(rt: &impl Print) {
    lent_first(rt);
    head_end_first(rt);
    for cases in [CUT_FIRST, LINE_ORDER, FIELD_ORDER, NOT_BY_LINES, BODY_ORDER] {
        show_each(rt, EXAMPLE, cases);
    }
    for &http in ROOM_LAST {
        // Into no room at all.
        show_into(rt, EXAMPLE, http, &mut []);
    }
}
