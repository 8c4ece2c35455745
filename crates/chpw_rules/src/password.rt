//! What a policy asks of a password.
ghost use Rattle.std.specs.Prelude.{◌≡◌};
ghost use Rattle.std.specs.List.{list_any};
ghost use Rattle.chpw_rules.specs.Passwords.{class_count as class_count_of, class_of, facts_of, is_of_class};

/// What a policy judges a password by.
#[derive(Clone, Copy, Drop)]
pub struct Facts {
    /// Bytes; `u32::MAX` where there are more, far above what any policy asks.
    pub length: u32,
    /// The classes of which there is a byte, 0 to 5: `a` to `z`; `A` to `Z`; `0` to `9`; ASCII
    /// punctuation; every other byte.
    pub classes: u8,
}

/// The length of a password in bytes and the number of its character classes.
pub fn password_facts(password: &[u8]) -> Facts
    ensures value { result ≡ facts_of password.now }
{
    Facts {
        length: u32::try_from(password.len()).unwrap_or(u32::MAX),
        classes: class_count(password),
    }
}

#[derive(Clone, Copy, Drop)]
enum Class {
    Lower,
    Upper,
    Digit,
    Punctuation,
    Other,
}

impl Class {
    fn of(byte: u8) -> Class
        ensures value { result ≡ class_of byte }
    {
        match byte {
            b'a'..=b'z' => Class::Lower,
            b'A'..=b'Z' => Class::Upper,
            b'0'..=b'9' => Class::Digit,
            0x21..=0x2f | 0x3a..=0x40 | 0x5b..=0x60 | 0x7b..=0x7e => Class::Punctuation,
            _ => Class::Other,
        }
    }

    fn has(self, byte: u8) -> bool
        ensures value { result ≡ is_of_class self byte }
    {
        match (Class::of(byte), self) {
            (Class::Lower, Class::Lower)
            | (Class::Upper, Class::Upper)
            | (Class::Digit, Class::Digit)
            | (Class::Punctuation, Class::Punctuation)
            | (Class::Other, Class::Other) => true,
            _ => false,
        }
    }

    // Whether a byte of the password is of this class.
    fn is_in(self, password: &[u8]) -> bool
        ensures value { result ≡ list_any (is_of_class self) password.now }
    {
        password.iter().any(|byte| self.has(*byte))
    }
}

fn class_count(password: &[u8]) -> u8
    ensures value { result ≡ class_count_of password.now }
{
    u8::from(Class::Lower.is_in(password))
        + u8::from(Class::Upper.is_in(password))
        + u8::from(Class::Digit.is_in(password))
        + u8::from(Class::Punctuation.is_in(password))
        + u8::from(Class::Other.is_in(password))
}
