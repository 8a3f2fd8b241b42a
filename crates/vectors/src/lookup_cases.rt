// Looking names up in one block and in two: the place, and the value as that part of the block.
use headers::lookup::{find, value};
use headers::setting::{Held, find_setting, setting};
use octets::span::Span;
use printing::{Answer, Or, Shown, Told, line};

// Blocks, each with a name.
const FINDS: &[(&[u8], &[u8])] = &[
    (b"A\01\0B\0\0A\02\0", b"A"),
    (b"A\01\0B\0\0A\02\0", b"B"),
    (b"A\01\0B\0\0A\02\0", b"C"),
    (b"A\01\0B\0\0A\02\0", b""),
    (b"A\01\0B\0\0A\02\0", b"A\0"),
    (b"", b"A"),
    (b"A\01", b"A"),
    (b"A\01\0\02\0", b"A"),
];

// First blocks, each with a second and a name.
const SETTINGS: &[(&[u8], &[u8], &[u8])] = &[
    (b"A\01\0", b"A\022\0B\03\0", b"A"),
    (b"A\0\0", b"A\022\0B\03\0", b"A"),
    (b"A\01\0", b"A\022\0B\03\0", b"B"),
    (b"A\01\0", b"A\022\0B\03\0", b"C"),
    (b"A\01\0", b"B", b"A"),
    (b"A", b"B\03\0", b"B"),
];

// A place, behind the name of its block.
fn place(block: &'static str, at: Span) -> Told<2> {
    Told(block, [at.start, at.len])
}

fn held(held: Held) -> Told<2> {
    match held {
        Held::First(at) => place("first", at),
        Held::Second(at) => place("second", at),
    }
}

// The place, and the value.
fn show_find(rt: &impl Print, block: &[u8], name: &[u8]) {
    let found = Answer(find(block, name).map(|p| Or(p.map(|at| place("at", at)), "absent")));
    line(
        rt,
        format_args!("{found}, value `{}`", Shown(value(block, name))),
    );
}

fn show_setting<'a>(rt: &impl Print, first: &'a [u8], second: &'a [u8], name: &[u8]) {
    let found = Answer(find_setting(first, second, name).map(|p| Or(p.map(held), "absent")));
    line(
        rt,
        format_args!("{found}, value `{}`", Shown(setting(first, second, name))),
    );
}

pub fn all(rt: &impl Print) {
    for &(block, name) in FINDS {
        show_find(rt, block, name);
    }
    for &(first, second, name) in SETTINGS {
        show_setting(rt, first, second, name);
    }
}
