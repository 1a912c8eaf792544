//! Numbers written in decimal digits.

/// Parses a number: one or more digits from 0 to 9 and nothing else, at most `u64::MAX`.
pub fn number(word: &str) -> Option<u64> {
    if word.bytes().any(|byte| !byte.is_ascii_digit()) {
        return None;
    }
    word.parse::<u64>().ok()
}
