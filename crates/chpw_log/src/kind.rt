//! Which messages have a limited number of lines.

/// The kinds of messages that anybody can send without end and without a ticket: each kind has a few lines a second,
/// whatever the others have.
#[derive(Clone, Copy, Drop)]
pub enum HeldKind {
    /// It didn't open.
    Unopened,
    /// It opened, and its authenticator's time is too far from the service's: a message that was recorded long ago is
    /// one of these.
    Skewed,
    /// It opened, and was answered before: a message that was recorded a short while ago is one of these.
    Replayed,
}
