// What a mount's value may be: pool, `;`, limit. 02 §13: "with a limit of 0 to 1,048,576 under §2's digit rule; without `;` the old limit
// holds. An empty pool, a second `;` or a bad limit is 20. In the gateway step 9 is given above the winning mount's limit".
use crate::gateway_lent::{GET_JOBS, show_mounts};
use crate::scgi_cases::show_writes;
use octets::copy::put;

// Each way to 20, on a mount that wins and on one that loses.
const BAD_VALUES: &[&[u8]] = &[
    b"/jobs\0;\0/x\0p\0",
    b"/jobs\0;5\0/x\0p\0",
    b"/jobs\0p;\0/x\0p\0",
    b"/jobs\0p;5;\0/x\0p\0",
    b"/jobs\0p;5;6\0/x\0p\0",
    b"/jobs\0p;;5\0/x\0p\0",
    b"/jobs\0p;x\0/x\0p\0",
    b"/jobs\0p; 5\0/x\0p\0",
    b"/jobs\0p;5 \0/x\0p\0",
    b"/jobs\0p;+5\0/x\0p\0",
    b"/jobs\0p;1048577\0/x\0p\0",
    b"/jobs\0p;9999999999\0/x\0p\0",
    b"/jobs\0p;00000000005\0/x\0p\0",
    b"/jobs\0p;99999999999\0/x\0p\0",
];

// The pool is named without the limit, whatever its digits.
const GOOD_VALUES: &[&[u8]] = &[
    b"/jobs\0app;0\0/x\0p;1\0",
    b"/jobs\0app;1048576\0/x\0p;0001048576\0",
    b"/jobs\05;6\0/x\0 =,;0000000000\0",
];

// A body of five bytes: accepted at the limit, 9 above it. A limit of 0 takes empty bodies only.
const BODIES: &[&[u8]] = &[
    b"/jobs\0app;6\0",
    b"/jobs\0app;5\0",
    b"/jobs\0app;4\0",
    b"/jobs\0app;0\0",
    b"/jobs\0app;0000000005\0",
    b"/jobs\0app;0000000004\0",
];

// The limit is that of the longest mount that fits, smaller or larger than that of a shorter one.
const WINNERS: &[&[u8]] = &[
    b"/jobs\0app;5\0/jobs/7\0late;4\0",
    b"/jobs\0app;4\0/jobs/7\0late;5\0",
    b"/jobs/7\0late;5\0/jobs\0app;4\0",
    b"/jobs/7\0late\0/jobs\0app;4\0",
    b"/jobs\0app\0/jobs/7\0late;4\0",
    b"/jobs\0app;5\0/jobs/77\0late;4\0",
];

// 17, 18 and 19 before 9; 9 before 1.
const ORDER: &[&[u8]] = &[
    b"POST /jobs HTTP/1.0\r\nContent-Length: 00000000005\r\n\r\nhello",
    b"POST /jobs HTTP/1.0\r\nTransfer-Encoding: a\r\nContent-Length: 5\r\n\r\nhello",
    b"POST /jobsx HTTP/1.0\r\nContent-Length: 5\r\n\r\nhello",
    b"POST /jobs HTTP/1.0\r\nContent-Length: 5\r\n\r\nhell",
];

// Bodies of 1,048,576 bytes and of one more, stated alone: 1 within the limit, and 9.
const LARGE_BODIES: &[&[u8]] = &[
    b"POST /jobs HTTP/1.0\r\nContent-Length: 1048576\r\n\r\n",
    b"POST /jobs HTTP/1.0\r\nContent-Length: 1048577\r\n\r\n",
];

const LARGEST: &[&[u8]] = &[
    b"/jobs\0app\0",
    b"/jobs\0app;1048576\0",
    b"/jobs\0app;1048575\0",
];

// 32 mounts, and 33, each with a limit.
const MOST_MOUNTS: &[&[u8]] = &[
    b"/a0\0p;0\0/a1\0p;1\0/a2\0p;2\0/a3\0p;3\0/a4\0p;4\0/a5\0p;5\0/a6\0p;6\0/a7\0p;7\0/b0\0p;0\0/b1\0p;1\0/b2\0p;2\0/b3\0p;3\0/b4\0p;4\0/b5\0p;5\0/b6\0p;6\0/b7\0p;7\0/c0\0p;0\0/c1\0p;1\0/c2\0p;2\0/c3\0p;3\0/c4\0p;4\0/c5\0p;5\0/c6\0p;6\0/c7\0p;7\0/d0\0p;0\0/d1\0p;1\0/d2\0p;2\0/d3\0p;3\0/d4\0p;4\0/d5\0p;5\0/d6\0p;6\0/jobs\0app;5\0",
    b"/a0\0p;0\0/a1\0p;1\0/a2\0p;2\0/a3\0p;3\0/a4\0p;4\0/a5\0p;5\0/a6\0p;6\0/a7\0p;7\0/b0\0p;0\0/b1\0p;1\0/b2\0p;2\0/b3\0p;3\0/b4\0p;4\0/b5\0p;5\0/b6\0p;6\0/b7\0p;7\0/c0\0p;0\0/c1\0p;1\0/c2\0p;2\0/c3\0p;3\0/c4\0p;4\0/c5\0p;5\0/c6\0p;6\0/c7\0p;7\0/d0\0p;0\0/d1\0p;1\0/d2\0p;2\0/d3\0p;3\0/d4\0p;4\0/d5\0p;5\0/d6\0p;6\0/d7\0p;7\0/jobs\0app;5\0",
];

// The writer keeps 1,048,576, as the reader does in scgi_cases: 23 is behind 9.
const WRITES: &[(&[u8], &[u8])] = &[
    (b"CONTENT_LENGTH\01048576\0SCGI\01\0", b""),
    (b"CONTENT_LENGTH\01048577\0SCGI\01\0", b""),
];

// The body of five bytes.
const HELLO: &[&[u8]] = &[b"POST /jobs/7 HTTP/1.0\r\nContent-Length: 5\r\n\r\nhello"];

// A mount wins, and then it loses.
const JOBS_AND_X: &[&[u8]] = &[GET_JOBS, b"GET /x HTTP/1.0\r\n\r\n"];

// Mounts of 4,097 bytes, and of 4,096, with limits.
fn largest_mounts(rt: &impl Print) {
    let mut s = [47u8; 4097];
    put(&mut s, 4079, b"x\0p;5\0/jobs\0app;5\0");
    show_mounts(rt, &[&s, &s[1..]], HELLO);
}

pub fn all(rt: &impl Print) {
    show_mounts(rt, BAD_VALUES, JOBS_AND_X);
    show_mounts(rt, GOOD_VALUES, JOBS_AND_X);
    show_mounts(rt, BODIES, HELLO);
    show_mounts(
        rt,
        &[b"/jobs\0app;0\0"],
        &[b"POST /jobs HTTP/1.0\r\nContent-Length: 0\r\n\r\n"],
    );
    show_mounts(rt, WINNERS, HELLO);
    show_mounts(rt, &[b"/jobs\0app;4\0"], ORDER);
    show_mounts(
        rt,
        &[b"/jobs\0app;5\0"],
        &[b"POST /jobs HTTP/1.0\r\nContent-Length: 5\r\n\r\nhell"],
    );
    show_mounts(rt, LARGEST, LARGE_BODIES);
    largest_mounts(rt);
    show_mounts(rt, MOST_MOUNTS, HELLO);
    show_writes(rt, WRITES);
}
