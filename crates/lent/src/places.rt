// Where the values stand that connection facts and site settings give.
use headers::setting::Held;
use octets::span::Span;

// AUTH_TYPE and REMOTE_USER, in the connection facts.
#[derive(Clone, Copy, Debug, PartialEq, Eq)]
pub struct Auth {
    pub auth_type: Span,
    pub remote_user: Span,
}

// The places of all values. Connection facts are the first of the two blocks, site settings the second.
#[derive(Clone, Copy, Debug, PartialEq, Eq)]
pub struct SettingPlaces {
    pub auth: Option<Auth>, // none where both are absent
    pub addr: Span, // REMOTE_ADDR, in the connection facts
    pub name: Held, // SERVER_NAME
    pub port: Held, // SERVER_PORT
    pub software: Held, // SERVER_SOFTWARE
}
