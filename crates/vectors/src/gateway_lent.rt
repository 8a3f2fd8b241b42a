// What the gateway is lent: each way to 20, and what is no breach.
use crate::gateway_cases::{Lent, show, show_each};

// A client, a server and a mount, in few bytes.
pub const SMALL: Lent<'static> = Lent {
    facts: b"REMOTE_ADDR\01\0",
    site: b"SERVER_NAME\0q\0SERVER_PORT\080\0SERVER_SOFTWARE\0g\0",
    mounts: b"/jobs\0app\0",
};

// A request that the mount fits.
pub const GET_JOBS: &[u8] = b"GET /jobs HTTP/1.0\r\n\r\n";

// Unknown names are ignored, but no name may stand twice; AUTH_TYPE and REMOTE_USER are there both or not at all.
const FACTS: &[&[u8]] = &[
    b"REMOTE_ADDR\01\0",
    b"X\0\0REMOTE_ADDR\01\0CONTENT_LENGTH\0x\0",
    b"X\0\0REMOTE_ADDR\01\0X\0\0",
    b"REMOTE_ADDR\01",
    b"REMOTE_ADDR\01\0\0\0",
    b"REMOTE_ADDR\0\0",
    b"remote_addr\01\0",
    b"REMOTE_ADDR\01\0AUTH_TYPE\0a\0",
    b"REMOTE_ADDR\01\0REMOTE_USER\0u\0",
    b"REMOTE_ADDR\01\0AUTH_TYPE\0\0REMOTE_USER\0u\0",
    b"REMOTE_ADDR\01\0AUTH_TYPE\0a\0REMOTE_USER\0\0",
    b"REMOTE_ADDR\01\0AUTH_TYPE\0a\0REMOTE_USER\0u\0",
    b"REMOTE_ADDR\01\0SERVER_NAME\0\0",
    b"REMOTE_ADDR\01\0SERVER_NAME\0qq\0",
];

// A name that the facts hold is not judged in the settings; each of the three must be found.
const SETTINGS: &[&[u8]] = &[
    b"SERVER_PORT\080\0SERVER_SOFTWARE\0g\0",
    b"SERVER_NAME\0\0SERVER_PORT\080\0SERVER_SOFTWARE\0g\0",
    b"SERVER_PORT\080\0",
    b"SERVER_SOFTWARE\0g\0",
    b"SERVER_PORT\080\0SERVER_SOFTWARE\0\0",
    b"SERVER_PORT\080\0SERVER_SOFTWARE\0g",
    b"SERVER_PORT\080\0SERVER_SOFTWARE\0g\0SERVER_PORT\080\0",
    b"SERVER_PORT\080\0SERVER_SOFTWARE\0g\0AUTH_TYPE\0a\0",
];

// 1 to 65535 in digits without a leading zero.
const PORTS: &[&[u8]] = &[
    b"SERVER_SOFTWARE\0g\0SERVER_PORT\01\0",
    b"SERVER_SOFTWARE\0g\0SERVER_PORT\065535\0",
    b"SERVER_SOFTWARE\0g\0SERVER_PORT\065536\0",
    b"SERVER_SOFTWARE\0g\0SERVER_PORT\00\0",
    b"SERVER_SOFTWARE\0g\0SERVER_PORT\0080\0",
    b"SERVER_SOFTWARE\0g\0SERVER_PORT\0\0",
    b"SERVER_SOFTWARE\0g\0SERVER_PORT\08a\0",
    b"SERVER_SOFTWARE\0g\0SERVER_PORT\018446744073709551617\0",
];

// Each name begins with a slash and does not end with one; each pool has a byte.
const MOUNT_NAMES: &[&[u8]] = &[
    b"/jobs\0app\0",
    b"/jobs\0app\0jobs\0app\0",
    b"/jobs\0app\0/\0app\0",
    b"/jobs\0app\0/x/\0app\0",
    b"/jobs\0app\0/x\0\0",
    b"/jobs\0app\0/jobs\0app\0",
    b"/jobs\0app\0/x\0app",
    b"/jobs\0app\0//x\0app\0",
];

// 32 mounts, and 33.
const MOST_MOUNTS: &[&[u8]] = &[
    b"/a0\0p\0/a1\0p\0/a2\0p\0/a3\0p\0/a4\0p\0/a5\0p\0/a6\0p\0/a7\0p\0/b0\0p\0/b1\0p\0/b2\0p\0/b3\0p\0/b4\0p\0/b5\0p\0/b6\0p\0/b7\0p\0/c0\0p\0/c1\0p\0/c2\0p\0/c3\0p\0/c4\0p\0/c5\0p\0/c6\0p\0/c7\0p\0/d0\0p\0/d1\0p\0/d2\0p\0/d3\0p\0/d4\0p\0/d5\0p\0/d6\0p\0/jobs\0app\0",
    b"/a0\0p\0/a1\0p\0/a2\0p\0/a3\0p\0/a4\0p\0/a5\0p\0/a6\0p\0/a7\0p\0/b0\0p\0/b1\0p\0/b2\0p\0/b3\0p\0/b4\0p\0/b5\0p\0/b6\0p\0/b7\0p\0/c0\0p\0/c1\0p\0/c2\0p\0/c3\0p\0/c4\0p\0/c5\0p\0/c6\0p\0/c7\0p\0/d0\0p\0/d1\0p\0/d2\0p\0/d3\0p\0/d4\0p\0/d5\0p\0/d6\0p\0/d7\0p\0/jobs\0app\0",
];

// Connection facts, beside the small settings.
pub fn show_facts(rt: &impl Print, cases: &[&[u8]]) {
    for &facts in cases {
        show(rt, Lent { facts, ..SMALL }, GET_JOBS);
    }
}

// Settings, beside facts that hold the server's name.
pub fn show_sites(rt: &impl Print, cases: &[&[u8]]) {
    for &site in cases {
        show(
            rt,
            Lent {
                facts: b"REMOTE_ADDR\01\0SERVER_NAME\0q\0",
                site,
                ..SMALL
            },
            GET_JOBS,
        );
    }
}

// Each of the requests under each of the mounts.
pub fn show_mounts(rt: &impl Print, cases: &[&[u8]], requests: &[&[u8]]) {
    for &mounts in cases {
        show_each(rt, Lent { mounts, ..SMALL }, requests);
    }
}

pub fn all(rt: &impl Print) {
    show_facts(rt, FACTS);
    show_sites(rt, SETTINGS);
    show_sites(rt, PORTS);
    show_mounts(rt, MOUNT_NAMES, &[GET_JOBS]);
    show_mounts(rt, MOST_MOUNTS, &[GET_JOBS]);
}
