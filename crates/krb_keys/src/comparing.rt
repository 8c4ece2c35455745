//! Comparing checksums and keys.
ghost use Rattle.std.specs.Prelude.{◌≡◌, ◌↔◌, length};
ghost use Rattle.std.specs.Str.{bytes_eq};

/// Whether two texts are the same, for a checksum or a key that a sender must not find out byte by byte: texts of the
/// same length are read to their end, wherever they differ, and there is a single test after the last byte. What the
/// compiler makes of it isn't claimed, nor is anything about time.
pub fn are_equal(one: &[u8], other: &[u8]) -> bool
    ensures value { result ≡ bytes_eq one.now other.now }
{
    one.len() == other.len() && differences(one, other) == 0
}

// The bits in which some byte differs from the one at its place in the other text.
fn differences(one: &[u8], other: &[u8]) -> u8
    requires length { length one.now ≡ length other.now }
    ensures none { result ≡ 0 ↔ one.now ≡ other.now }
{
    let mut differences = 0;
    let mut rest = one;
    let mut others = other;
    while let ([byte, more @ ..], [another, further @ ..]) = (rest, others) {
        differences |= *byte ^ *another;
        rest = more;
        others = further;
    }
    differences
}
