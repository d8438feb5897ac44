//! Why words ask for nothing.

ghost use Rattle.std.specs.Prelude.{◌≡◌, ◌<◌, ℕ, IfOk, List, map, string_bytes};
ghost use Rattle.clap.specs.Words.{HasKind};
ghost use Rattle.pdb_words.specs.CommandLine.{parse_faults};
ghost use Rattle.pdb_words.specs.Faults.{IsCauseOfWordFault, IsMistakeOrMemory, IsPlainlySaid, plain_byte, unreadable_word, version_line};

use arrayvec::ArrayString;
use clap::error::ErrorKind;
use itoa::Buffer;
use std::alloc::{AllocError, Global};
use thiserror::Error;

/// Why words ask for nothing.
#[derive(Debug, Drop, Error)]
pub enum WordFault {
    /// They ask for help, which is this text.
    #[error("{0}")]
    Help(String),
    /// They ask for the version.
    #[error("pdb_cli 0.2.0")]
    Version,
    /// They are no command, as this text explains.
    #[error("{0}")]
    Mistake(String),
    /// Memory was refused.
    #[error("no memory")]
    Memory,
}

/// What is said where the version is asked for.
pub fn version_line() -> &'static str
    ensures { result.now ≡ version_line }
{
    "pdb_cli 0.2.0\n"
}

/// What is said of a word that is no UTF-8 text, behind its number.
const UNREADABLE: &str =
    " is no UTF-8 text\n\nUsage: pdb_cli [COMMAND]\n\nFor more information, try '--help'.\n";

/// What is said of a word that is no UTF-8 text, in the form of any other mistake: that of this number, from 1.
pub fn unreadable_word(place: usize) -> ArrayString<128>
    ensures { result.bytes ≡ unreadable_word place }
{
    let mut text = ArrayString::new();
    text.push_str("error: word ");
    text.push_str(Buffer::new().format(place));
    text.push_str(UNREADABLE);
    text
}

/// The fault that `clap` found, with its text.
pub(crate) fn fault_by(alloc: Global, error: clap::Error) -> WordFault
    ensures cause { (words : List (List ℕ)) → HasKind (parse_faults words) error
        → IsCauseOfWordFault words result }
    ensures plain { IsPlainlySaid result }
{
    let Ok(text) = format!(in alloc; "{error}") else {
        return WordFault::Memory;
    };
    match error.kind() {
        ErrorKind::OutOfMemory => WordFault::Memory,
        ErrorKind::DisplayHelp => WordFault::Help(text),
        ErrorKind::DisplayVersion => WordFault::Version,
        _ => mistake(alloc, Ok(text)),
    }
}

/// What is said of a word that writes no mask, in the form of any other mistake.
pub(crate) fn wrong_mask_text(alloc: Global, word: &str) -> Result<String, AllocError> {
    let before = format!(in alloc; "error: invalid value '{word}' for '<MASK>': ")?;
    let behind = "\n\nFor more information, try '--help'.\n";
    if !word.is_empty() && word.bytes().all(|b| b.is_ascii_digit()) {
        return format!(in alloc; "{before}{word} is not in 0..=4294967295{behind}");
    }
    let wanted = if word.starts_with("tiles:") {
        "tiles are numbers from 0 to 31, or ranges of them, none twice, with commas between, as tiles:1,2,5-8"
    } else if word.starts_with("0x") {
        "hexadecimal digits write a number up to 0xffffffff, as 0x1e"
    } else {
        "a mask is a number from 0 to 4294967295, as 30 or 0x1e, or its tiles, as tiles:1,2,3,4"
    };
    format!(in alloc; "{before}{wanted}{behind}")
}

/// What is said of a word that writes no goal, in the form of any other mistake.
pub(crate) fn wrong_goal_text(alloc: Global, word: &str) -> Result<String, AllocError> {
    format!(in alloc;
        "error: invalid value '{word}' for '--goal <first|last>'\n\nFor more information, try '--help'.\n"
    )
}

/// What is said of a count of parts that isn't odd, in the form of any other mistake.
pub(crate) fn even_count_text(alloc: Global, count: u16) -> Result<String, AllocError> {
    format!(in alloc;
        "error: invalid value '{count}' for '<K>': a bound has an odd number of parts\n\nFor more information, try '--help'.\n"
    )
}

/// The mistake that a text explains, where there was memory for it, with `?` for each byte that is neither LF nor printable
/// ASCII, so that no word of the user's moves a terminal.
#[tactic(auto, using(crate::proofs::TextLemmas::all_plain))]
pub(crate) fn mistake(alloc: Global, text: Result<String, AllocError>) -> WordFault
    ensures kind { IsMistakeOrMemory result }
    ensures plain { IsPlainlySaid result }
{
    let Ok(text) = text else {
        return WordFault::Memory;
    };
    match plain_text(alloc, text.as_str()) {
        Ok(text) => WordFault::Mistake(text),
        Err(_) => WordFault::Memory,
    }
}

/// The text with `?` for such bytes.
fn plain_text(alloc: Global, text: &str) -> Result<String, AllocError>
    ensures { IfOk result (λ plain. string_bytes plain ≡ map plain_byte text.now) }
{
    let mut plain = String::new(alloc);
    for byte in text.as_bytes() {
        plain.push(char::from(plain_byte(*byte)))?;
    }
    Ok(plain)
}

/// What is shown for a byte.
fn plain_byte(byte: u8) -> u8
    ensures shown { result ≡ plain_byte byte }
    ensures ascii { result < 128 }
{
    if byte == b'\n' || b' ' <= byte && byte <= b'~' {
        byte
    } else {
        b'?'
    }
}
