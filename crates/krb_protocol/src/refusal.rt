//! Refusing a message.
ghost use Rattle.std.specs.Prelude.{◌≤◌, length};

/// What the KRB-ERROR for a refused message has: result code (RFC 3244 section 2), error code (RFC 4120 section 7.5.9)
/// and text. Contracts see it by `said` of `specs/Refusals.antt`.
#[derive(Drop)]
pub struct Refusal {
    pub code: u16,
    pub error: i32,
    /// At most 100 bytes.
    pub text: &'static str,
    ghost short: { length text.now ≤ 100 },
}
