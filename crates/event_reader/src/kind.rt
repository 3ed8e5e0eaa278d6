//! What kind of event a line tells.

ghost use Rattle.std.specs.Prelude.{◌≡◌};
ghost use Rattle.event_reader.specs.Bodies.{kind_text};
ghost use Rattle.event_reader.specs.Readings.{IsReading};

// What a message carries.
#[derive(Clone, Copy, PartialEq, Eq)]
pub enum Content {
    Value,
    Label,
    Endpoint,
}

// What happens.
#[derive(Clone, Copy, PartialEq, Eq)]
pub enum Kind {
    Start,
    Send(Content),
    Recv(Content),
    Test,
    Set,
    Show,
    Host,
}

// The kind that has this word.
pub fn kind_of(word: &[u8]) -> Option<Kind>
    ensures { IsReading (λ _. Unit {0}) kind_text word.now result }
{
    if word == b"start".as_slice() {
        Some(Kind::Start)
    } else if word == b"send".as_slice() {
        Some(Kind::Send(Content::Value))
    } else if word == b"pick".as_slice() {
        Some(Kind::Send(Content::Label))
    } else if word == b"give".as_slice() {
        Some(Kind::Send(Content::Endpoint))
    } else if word == b"recv".as_slice() {
        Some(Kind::Recv(Content::Value))
    } else if word == b"branch".as_slice() {
        Some(Kind::Recv(Content::Label))
    } else if word == b"gain".as_slice() {
        Some(Kind::Recv(Content::Endpoint))
    } else if word == b"test".as_slice() {
        Some(Kind::Test)
    } else if word == b"set".as_slice() {
        Some(Kind::Set)
    } else if word == b"show".as_slice() {
        Some(Kind::Show)
    } else if word == b"host".as_slice() {
        Some(Kind::Host)
    } else {
        None
    }
}
