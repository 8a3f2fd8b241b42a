// The variables of a request's fields.
ghost use Rattle.std.specs.Prelude.{◌≡◌, [], ◌∷◌, ◌++◌, map, ◌+◌, ◌≤◌, ◌<◌, length, IfSome};
ghost use Rattle.octets.specs.Compare.{lower_of};
ghost use Rattle.octets.specs.Lists.{is_in};
ghost use Rattle.octets.specs.Copy.{Wrote};
ghost use Rattle.variables.specs.Fields.{not_passed, separator};
ghost use Rattle.variables.specs.Variables.{variable_byte, http_name};
ghost use Rattle.variables.specs.FieldVariables.{low_name, names_before, RepeatsFrom, RepeatAt, added_at, added_after};
ghost use Rattle.variables.specs.FieldVariables.{variable_from, variable_alone, variable_if, fields_bytes};
ghost use Rattle.variables.specs.Writer.{Fits, Appended};

use crate::writer::Writer;
use octets::compare::{same_letters, upper};
use request::stored::Fields;

// The names of the fields that are not passed.
const NOT_PASSED: [&[u8]; 7] = [
    b"authorization",
    b"proxy-authorization",
    b"proxy",
    b"connection",
    b"keep-alive",
    b"content-length",
    b"content-type",
];

// Whether fields of a name are not passed.
fn not_passed(name: &[u8]) -> bool
    ensures { result ≡ is_in (map lower_of name.now) not_passed }
{
    NOT_PASSED.iter().any(|n| same_letters(name, n))
}

// Whether a field before number k has its name. The nearest first, since fields of one name mostly stand beside each other.
fn seen_before(fields: Fields, k: usize) -> bool
    requires { k < length fields.places.now }
    ensures { result ≡ is_in (low_name fields.entry.head.now fields.entry.places.now k)
        (names_before fields.entry.head.now fields.entry.places.now k) }
{
    let name = fields.name(k);
    for j in (0..k).rev() {
        if fields.has_name(j, name) {
            return true;
        }
    }
    false
}

// The first field whose name one before it has, letter case aside. Most requests have no name twice.
// Compiled for itself: among the writes the comparison of names has some 6 % more instructions.
#[inline(never)]
pub fn names_repeat(fields: Fields) -> Option<usize>
    ensures { RepeatsFrom fields.entry.head.now fields.entry.places.now result
        × IfSome result (RepeatAt fields.entry.head.now fields.entry.places.now) }
{
    for k in 0..fields.places.len() {
        if seen_before(fields, k) {
            return Some(k);
        }
    }
    None
}

// A byte of a field's name in the name of its variable.
fn variable_byte(b: u8) -> u8
    ensures { result ≡ variable_byte (lower_of b) }
{
    if b == b'-' { b'_' } else { upper(b) }
}

// Writes a field's name as its variable has it, and gives the place after it.
fn put_name(out: &mut [u8], at: usize, name: &[u8]) -> usize
    requires { at + length name.now ≤ length out.old }
    ensures { Wrote out.old at (map variable_byte (map lower_of name.now)) out.new result }
{
    // An index for two slices: of what is written by way of `iter_mut` a proof knows nothing.
    for i in 0..name.len() {
        out[at + i] = variable_byte(name[i]);
    }
    at + name.len()
}

// Writes the name of a field's variable, and a NUL.
fn put_http_name(name: &[u8], w: &mut Writer)
    requires { w.old.at + length name.now + 6 ≤ length w.old.out.now }
    ensures { Appended w.old w.new (http_name (map lower_of name.now) ++ 0 ∷ []) }
{
    w.text(b"HTTP_");
    w.at = put_name(w.out, w.at, name);
    w.text(b"\0");
}

// What stands between two values of a name: a worker splits cookies at semicolons, other values at commas.
fn separator(name: &[u8]) -> [u8; 2]
    ensures { result ≡ separator (map lower_of name.now) }
{
    if same_letters(name, b"cookie") {
        *b"; "
    } else {
        *b", "
    }
}

// Writes what the field with number j adds to the value of a name: what stands between two values, and its own.
fn put_added(fields: Fields, j: usize, name: &[u8], between: &[u8], w: &mut Writer)
    requires { (j < length fields.places.now)
        × Fits w.old (added_at fields.head.now fields.places.now (map lower_of name.now) between.now j) }
    ensures { Appended w.old w.new (added_at fields.entry.head.now fields.entry.places.now (map lower_of name.now) between.now j) }
{
    if fields.has_name(j, name) {
        w.text(between);
        w.bytes(fields.value(j));
    }
}

// Writes what the fields after number k add to its value.
fn put_later(fields: Fields, k: usize, w: &mut Writer)
    requires { (k < length fields.places.now) × Fits w.old (added_after fields.head.now fields.places.now k) }
    ensures { Appended w.old w.new (added_after fields.entry.head.now fields.entry.places.now k) }
{
    let name = fields.name(k);
    let between = separator(name);
    for j in k + 1..fields.places.len() {
        put_added(fields, j, name, &between, w);
    }
}

// Writes the variable that the field with number k makes: its value is joined with those of the later ones of its name.
fn put_field(fields: Fields, k: usize, w: &mut Writer)
    requires { (k < length fields.places.now) × Fits w.old (variable_from fields.head.now fields.places.now k) }
    ensures { Appended w.old w.new (variable_from fields.entry.head.now fields.entry.places.now k) }
{
    put_http_name(fields.name(k), w);
    w.bytes(fields.value(k));
    put_later(fields, k, w);
    w.text(b"\0");
}

// Writes the variable of the field with number k where no other field has its name.
fn put_alone(fields: Fields, k: usize, w: &mut Writer)
    requires { (k < length fields.places.now) × Fits w.old (variable_alone fields.head.now fields.places.now k) }
    ensures { Appended w.old w.new (variable_alone fields.entry.head.now fields.entry.places.now k) }
{
    put_http_name(fields.name(k), w);
    w.value(fields.value(k));
}

// Writes the variable of the field with number k, if it makes one. repeat is there if two of the names are the same, and the names of the
// fields before that number differ, so none of these is looked for among those before it.
fn put_new(fields: Fields, k: usize, repeat: Option<usize>, w: &mut Writer)
    requires { (k < length fields.places.now) × RepeatsFrom fields.head.now fields.places.now repeat
        × Fits w.old (variable_if fields.head.now fields.places.now k) }
    ensures { Appended w.old w.new (variable_if fields.entry.head.now fields.entry.places.now k) }
{
    if not_passed(fields.name(k)) {
        return;
    }
    match repeat {
        None => put_alone(fields, k, w),
        Some(first) => {
            if k < first || !seen_before(fields, k) {
                put_field(fields, k, w);
            }
        }
    }
}

// Writes one variable for each name of the passed fields, by first appearance.
// repeat is for speed: known before, it lets each field be written with no comparison where no name is there twice, and else the fields
// before the first that repeats a name without a second look at those before them.
pub fn put_fields(fields: Fields, repeat: Option<usize>, w: &mut Writer)
    requires { RepeatsFrom fields.head.now fields.places.now repeat × Fits w.old (fields_bytes fields.head.now fields.places.now) }
    ensures { Appended w.old w.new (fields_bytes fields.entry.head.now fields.entry.places.now) }
{
    for k in 0..fields.places.len() {
        put_new(fields, k, repeat, w);
    }
}
