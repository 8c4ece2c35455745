//! What all types of a message have in common: which elements spell their values.

ghost use Rattle.std.specs.Prelude.{◌≡◌, true};
ghost use Rattle.krb_codec.specs.Shapes.{Shape, Value};
ghost use Rattle.krb_codec.specs.Grammar.{is_legal};

/// A type with its element.
pub trait Element: Sized {
    /// Which elements spell values of the type.
    ghost shape: { Shape };

    /// The value that an element spells.
    ghost value: { Self → Value shape };

    /// They are single elements, whose optional fields can be distinguished from what follows them.
    ghost legal: { is_legal shape ≡ true };
}
