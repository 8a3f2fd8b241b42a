// Script response heads under the RFC edition: each row of the table, each way to 24 and to 25, and the limits.
use editions::edition::{Edition, respond_by};
use printing::{Answer, Told, line};
use response::table::Action;

// Each row, with both line ends.
const ROWS: &[&[u8]] = &[
    b"Location: /jobs/7\n\n",
    b"Location: //host/x\r\n\r\n",
    b"Location: http://q.example/\n\n",
    b"X_Y: 1\nLocation:\thttp://q.example/ \r\n\n",
    b"Status: 303 See Other\nLocation: http://q/\nContent-Type: text/plain\n\nhi",
    b"Status: 308\nLocation: a+-.1:x\nContent-Type: a\n\n",
    b"Content-Type: text/html\r\n\nbody",
    b"content-type: text/html\n\r\n",
    b"Status: 200\nContent-Type: a\n\nx",
    b"Status: 404  Gone\r\nContent-Type: a\r\n\r\n",
    b"Status: 599\nContent-Type: a\n\n",
    b"A: 1\nContent-Type: a\nB: 2\n\n\n\n",
];

// Each way to 24; a 24 later in the head comes before a 25.
const MALFORMED: &[&[u8]] = &[
    b"",
    b"Content-Type: a",
    b"Content-Type: a\n",
    b"Content-Type: a\n\r",
    b"HTTP/1.1 200 OK\nContent-Type: a\n\n",
    b"Content-Type: a\r\r\n\n",
    b"A: x\ry\nContent-Type: a\n\n",
    b"A: \x01\nContent-Type: a\n\n",
    b"Content-Type: a\n b\n\n",
    b"Content-Type : a\n\n",
    b": a\n\n",
    b"Content-Type:\nbad line\n\n",
];

// Each way to 25 of one field.
const CONTRADICTIONS_OF_FIELDS: &[&[u8]] = &[
    b"\n",
    b"Content-Type: a\ncontent-type: a\n\n",
    b"Location: /\nLocation: /\n\n",
    b"Status: 200\nStatus: 200\nContent-Type: a\n\n",
    b"Status: 199\nContent-Type: a\n\n",
    b"Status: 600\nContent-Type: a\n\n",
    b"Status: 20\nContent-Type: a\n\n",
    b"Status: 2000\nContent-Type: a\n\n",
    b"Status: 200OK\nContent-Type: a\n\n",
    b"Status: 200\tOK\nContent-Type: a\n\n",
    b"Status:\nContent-Type: a\n\n",
    b"Content-Type:\n\n",
    b"Location: \n\n",
    b"Location: /a%2Fb\n\n",
    b"Location: /..\n\n",
    b"Location: 1http://q/\n\n",
    b"Location: http\n\n",
    b"Location: http:\n\n",
    b"Location: ht_tp:x\n\n",
    b"Location: http:a b\n\n",
    b"Location: :x\n\n",
];

// Each way past the four rows.
const CONTRADICTIONS_OF_ROWS: &[&[u8]] = &[
    b"A: 1\n\n",
    b"Status: 200\n\n",
    b"Location: /\nA: 1\n\n",
    b"Location: /\n\nbody",
    b"Location: /\nStatus: 302\n\n",
    b"Location: /\nContent-Type: a\n\n",
    b"Location: http://q/\n\nbody",
    b"Location: http://q/\nStatus: 302\n\n",
    b"Location: http://q/\nContent-Type: a\n\n",
    b"Location: http://q/\nStatus: 304\nContent-Type: a\n\n",
    b"Location: http://q/\nStatus: 200\nContent-Type: a\n\n",
];

// 64 lines, and 65; two bytes of body behind them.
const MOST_LINES: &[&[u8]] = &[
    b"Content-Type: a\nA:\nA:\nA:\nA:\nA:\nA:\nA:\nA:\nA:\nA:\nA:\nA:\nA:\nA:\nA:\nA:\nA:\nA:\nA:\nA:\nA:\nA:\nA:\nA:\nA:\nA:\nA:\nA:\nA:\nA:\nA:\nA:\nA:\nA:\nA:\nA:\nA:\nA:\nA:\nA:\nA:\nA:\nA:\nA:\nA:\nA:\nA:\nA:\nA:\nA:\nA:\nA:\nA:\nA:\nA:\nA:\nA:\nA:\nA:\nA:\nA:\nA:\nA:\n\nhi",
    b"Content-Type: a\nA:\nA:\nA:\nA:\nA:\nA:\nA:\nA:\nA:\nA:\nA:\nA:\nA:\nA:\nA:\nA:\nA:\nA:\nA:\nA:\nA:\nA:\nA:\nA:\nA:\nA:\nA:\nA:\nA:\nA:\nA:\nA:\nA:\nA:\nA:\nA:\nA:\nA:\nA:\nA:\nA:\nA:\nA:\nA:\nA:\nA:\nA:\nA:\nA:\nA:\nA:\nA:\nA:\nA:\nA:\nA:\nA:\nA:\nA:\nA:\nA:\nA:\nA:\nA:\n\nhi",
];

fn action_word(action: Action) -> &'static str {
    match action {
        Action::Serve => "serve",
        Action::Redirect => "redirect",
        Action::RedirectDocument => "redirect with document",
        Action::Document => "document",
    }
}

// The action, its status, then start and length of the Location and of the body.
pub fn show_by(rt: &impl Print, edition: Edition, method: &[u8], s: &[u8]) {
    line(
        rt,
        Answer(respond_by(edition, method, s).map(|a| Told(
            action_word(a.action),
            [
                a.status as usize,
                a.location.start,
                a.location.len,
                a.body.start,
                a.body.len,
            ],
        ))),
    );
}

// Under the RFC edition, with a method for which the draft refuses a Location.
fn show(rt: &impl Print, s: &[u8]) {
    show_by(rt, Edition::Rfc, b"POST", s);
}

// One field line and the empty line, which ends at 8,192: no 24, and the head has no row. Then the empty line ends one byte later.
fn longest_heads(rt: &impl Print) {
    let mut s = [97u8; 8192];
    s[1] = 58;
    s[8190] = 10;
    s[8191] = 10;
    show(rt, &s);
    let mut s = [97u8; 8193];
    s[1] = 58;
    s[8191] = 10;
    s[8192] = 10;
    show(rt, &s);
}

pub fn all(rt: &impl Print) {
    for cases in [
        ROWS,
        MALFORMED,
        CONTRADICTIONS_OF_FIELDS,
        CONTRADICTIONS_OF_ROWS,
        MOST_LINES,
    ] {
        for &s in cases {
            show(rt, s);
        }
    }
    longest_heads(rt);
}
