// The parts of an HTTP head.
use http_head::fields::{Field, field_line, field_lines};
use http_head::head::head_end;
use http_head::lines::line_end;
use http_head::request_line::request_line;
use octets::kinds::Kind;
use octets::span::Span;
use printing::{Answer, Or, Told, line};
use targets::target::target;

const HEADS: &[&[u8]] = &[
    b"",
    b"a\r\n\r",
    b"\r\n\r\n",
    b"GET / HTTP/1.1\r\n\r\n",
    b"GET / HTTP/1.1\r\nA: 1\r\n\r\nrest\r\n\r\n",
    b"GET / HTTP/1.1\n\nA: 1\r\r\n\n",
];

// 12 before 13; the target is judged elsewhere.
const LINES: &[&[u8]] = &[
    b"GET /x HTTP/1.1",
    b"GET / HTTP/1.0",
    b"GET  HTTP/1.1",
    b"GET /\t HTTP/1.1",
    b"",
    b"GET /",
    b"GET / HTTP/1.1 ",
    b" GET / HTTP/1.1",
    b"G@T / HTTP/1.1",
    b"ABCDEFGHIJKLMNOPQRSTUVWXYZABCDEF / HTTP/1.1",
    b"ABCDEFGHIJKLMNOPQRSTUVWXYZABCDEFG / HTTP/1.1",
    b"GET / HTTP/1.10",
    b"GET / http/1.1",
    b"GET / HTTP/1.2",
    b"GET / HTTP/2.0",
    b"G@T / HTTP/2.0",
];

const TARGETS: &[&[u8]] = &[
    b"/",
    b"/jobs/7?x=1",
    b"/a//b/",
    b"/%41%c3",
    b"/a%252Fb",
    b"/a?%2F",
    b"/...",
    b"",
    b"a",
    b"/a%2Fb",
    b"/a b",
    b"/%00",
    b"/%7f",
    b"/a%2",
    b"/a?%zz",
    b"/.",
    b"/..",
    b"/a/%2e%2E/x",
    b"////////////////////////////////////////////////////////////////",
    b"/////////////////////////////////////////////////////////////////",
];

const FIELDS: &[(Kind, &[u8])] = &[
    (Kind::Name, b"Host: q.example"),
    (Kind::Name, b"A:"),
    (Kind::Name, b"A: \t x y \t"),
    (Kind::Name, b"A: b:c"),
    (Kind::Name, b"A: \xe9"),
    (Kind::Name, b"Job-Id: 1"),
    (Kind::Name, b"Job_Id: 1"),
    (Kind::Token, b"Job_Id: 1"),
    (Kind::Name, b" A: 1"),
    (Kind::Name, b"\tA: 1"),
    (Kind::Name, b"A : 1"),
    (Kind::Name, b": 1"),
    (Kind::Name, b"A"),
    (Kind::Name, b"A: \x01"),
    (Kind::Name, b"A: x\ry"),
];

// Heads without their CR LF CR LF.
const FIELDS_OF_HEADS: &[&[u8]] = &[
    b"GET / HTTP/1.1",
    b"GET / HTTP/1.1\r\nA: 1\r\nB: 2",
    b"GET / HTTP/1.1\r\nA: 1\r\n B: 2",
    b"GET / HTTP/1.1\r\nA: 1\nB: 2",
];

const NOWHERE: Span = Span { start: 0, len: 0 };

fn show_lines(rt: &impl Print) {
    for &s in HEADS {
        line(rt, Answer(head_end(s).map(|n| Told("head", [n]))));
    }
    for &s in LINES {
        line(
            rt,
            Answer(request_line(s).map(|l| Told(
                "line",
                [
                    l.method_len,
                    l.target.start,
                    l.target.len,
                    usize::from(l.minor),
                ],
            ))),
        );
    }
    for &s in TARGETS {
        let mut path = [0u8; 4096];
        line(
            rt,
            Answer(target(s, &mut path).map(|t| Told("path", [t.path_len, t.decoded_len]))),
        );
    }
}

pub fn all(rt: &impl Print) {
    show_lines(rt);
    for &(kind, s) in FIELDS {
        line(
            rt,
            Or(
                field_line(kind, s).map(|f| Told("field", [f.name.len, f.value.len])),
                "malformed",
            ),
        );
    }
    for &head in FIELDS_OF_HEADS {
        let mut places = [Field {
            name: NOWHERE,
            value: NOWHERE,
        }; 64];
        line(
            rt,
            Answer(field_lines(head, line_end(head, 0), &mut places).map(|n| Told("fields", [n]))),
        );
    }
}
