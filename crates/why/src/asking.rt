// Words of the arguments as numbers.
use std::env::{Env, FillError};

// What a word counts as that is missing, is no number in decimal, or is above this: no payload has so many objects, blocks or bytes.
const LAST: u32 = u32::MAX;

// Digits alone: `parse` would take a sign, too.
fn number_of(word: &[u8]) -> u32 {
    match str::from_utf8(word) {
        Ok(digits) if word.iter().all(|b| b.is_ascii_digit()) => digits.parse().unwrap_or(LAST),
        _ => LAST,
    }
}

// Which argument is a part, from 0 on, of a question; the program's own name is the first.
fn argument(question: u32, part: u32) -> usize {
    3 * (question as usize) + part as usize + 1
}

// Whether a question has its first word.
pub fn begins<E: Env>(env: &E, question: u32) -> bool {
    let mut word = [0u8; 4096];
    match env.arg(argument(question, 0), &mut word) {
        Err(FillError::NotPresent) => false,
        _ => true,
    }
}

// A part of a question as a number.
pub fn number<E: Env>(env: &E, question: u32, part: u32) -> u32 {
    let mut word = [0u8; 4096];
    match env.arg(argument(question, part), &mut word) {
        Ok(n) => number_of(&word[..n]),
        Err(_) => LAST,
    }
}
