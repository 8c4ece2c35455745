//! Words of a case.

/// The number that a word spells; 0 for none and for another word.
pub fn number(word: Option<&str>) -> u32 {
    word.unwrap_or("").parse().unwrap_or(0)
}

/// The text before the first space, and what follows it.
pub fn first_word(text: &str) -> (&str, &str) {
    text.split_once(' ').unwrap_or((text, ""))
}
