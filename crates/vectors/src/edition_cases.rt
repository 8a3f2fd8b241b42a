// Script response heads under both editions. 02 §9: "Under the draft edition a Location with any other method, compared byte by byte,
// is 25; all else, and the whole RFC edition, stays as in 01".
use crate::response_cases::show_by;
use editions::edition::Edition;

// GET and HEAD, and four methods that are neither.
const METHODS: &[&[u8]] = &[b"GET", b"HEAD", b"POST", b"get", b"GET ", b""];

// Serve, redirect, redirect with document, document without Status and with it.
const ROWS: &[&[u8]] = &[
    b"Location: /x\n\n",
    b"Location: http://q/x\r\n\r\n",
    b"Location: a:b\nStatus: 301\nContent-Type: t\n\nx",
    b"Content-Type: t\n\nx",
    b"Status: 302\nContent-Type: t\n\nx",
];

// Methods near to GET and HEAD: all 25 with a Location under the draft.
const NEAR_METHODS: &[&[u8]] = &[b"GE", b"GETS", b" GET", b"GET\0", b"HEA", b"HEADS", b"Head"];

// Letter case of the name aside; the whole name, and in the head alone.
const NAMES: &[(&[u8], &[u8])] = &[
    (b"POST", b"location: /x\n\n"),
    (b"POST", b"X: y\nLOCATION: a:b\n\n"),
    (b"POST", b"Locations: /x\nContent-Type: t\n\n"),
    (b"POST", b"Content-Type: t\n\nLocation: /x\n\n"),
];

// 24 stays 24, before and behind a Location.
const MALFORMED: &[(&[u8], &[u8])] = &[
    (b"POST", b"Location: /x\nbad line\n\n"),
    (b"POST", b"bad line\nLocation: /x\n\n"),
];

// 25 whatever the method: no row, a bad value, two of one name.
const CONTRADICTIONS: &[(&[u8], &[u8])] = &[
    (b"POST", b"X: y\n\n"),
    (b"GET", b"Location: /..\n\n"),
    (b"GET", b"Location: /x\nlocation: /x\n\n"),
];

// Under the RFC edition, and under the draft.
fn show_both(rt: &impl Print, method: &[u8], s: &[u8]) {
    show_by(rt, Edition::Rfc, method, s);
    show_by(rt, Edition::Draft, method, s);
}

pub fn all(rt: &impl Print) {
    for &s in ROWS {
        for &method in METHODS {
            show_both(rt, method, s);
        }
    }
    for &method in NEAR_METHODS {
        show_by(rt, Edition::Draft, method, b"Location: /x\n\n");
    }
    for cases in [NAMES, MALFORMED, CONTRADICTIONS] {
        for &(method, s) in cases {
            show_both(rt, method, s);
        }
    }
}
