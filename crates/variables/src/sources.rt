// What the variables of a request are made of.
use http_head::fields::Field;
use lent::places::SettingPlaces;
use request::read::{FieldPlaces, LinePlaces};

// What is lent, and where the values stand in it.
#[derive(Clone, Copy)]
pub struct Sources<'a> {
    pub facts: &'a [u8],
    pub site: &'a [u8],
    pub head: &'a [u8],
    // Where the fields stand in the head.
    pub places: &'a [Field],
    // The decoded path, at the front of a buffer.
    pub path: &'a [u8],
    pub settings: SettingPlaces,
    pub line: LinePlaces,
    pub fields: FieldPlaces,
    // How long the mount's name is, with which the decoded path begins.
    pub name: usize,
}
