//! Laws of the definitions alone: of spellings (specs `Laws`), of times and flags (`PrimitiveLaws`).

ghost use Rattle.krb_codec.specs.Laws.{FaultsWithin, NoPrefix, OneText, OneValue, TextSpells};
ghost use Rattle.krb_codec.specs.PrimitiveLaws.{FlagsAreBits, TextsHaveOneTime, TimesAreInverse, TimesHaveOneText, TimesHaveTexts};

/// The text of a value that fits spells it, a text spells one value, and no spelling is a proper
/// prefix of another one of its type.
pub fn spellings()
    ensures text { TextSpells }
    ensures one_value { OneValue }
    ensures one_text { OneText }
    ensures no_prefix { NoPrefix }
{}

/// The place of a text's first fault is within the text, or at its end.
pub fn faults()
    ensures { FaultsWithin }
{}

/// `time_to_seconds` and `seconds_to_time` are inverse to each other: seconds in the years 0 to 9999
/// have one text, and a text that spells a time spells one.
pub fn times()
    ensures inverse { TimesAreInverse }
    ensures texts { TimesHaveTexts }
    ensures one_text { TimesHaveOneText }
    ensures one_time { TextsHaveOneTime }
{}

/// Bit i of the flags is bit i of the BIT STRING, where bit 0 is the highest of either.
pub fn flags()
    ensures { FlagsAreBits }
{}
