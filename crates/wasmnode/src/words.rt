ghost use Rattle.std.specs.Prelude.{◌≡◌, ◌++◌, ◌∷◌, [], ◌==◌, not, length, filter, map, string_bytes, IfOk, OnOk, OnErr, IfErr};
ghost use Rattle.wasmnode.specs.Words.{caps_of, command_of};
ghost use Rattle.wasmnode.specs.Commands.{Reads, IsChecking};

use crate::options::Options;
use std::alloc::{AllocError, Global};
use thiserror::Error;

/// What the program is told to do.
#[derive(Clone, Copy, Debug, PartialEq, Eq)]
pub enum Command {
    Serial,
    Check,
}

/// Why words give no command.
#[derive(Clone, Copy, Debug, PartialEq, Eq, Error)]
pub enum WordsFault {
    #[error("the words are none that the program takes")]
    Usage,
    #[error("out of memory")]
    NoMemory,
}

/// Adds a part of the list that isn't empty.
fn keep_part(alloc: Global, caps: &mut Vec<String>, part: &str) -> Result<(), AllocError>
    ensures { OnOk result (map string_bytes caps.new.items
        ≡ map string_bytes caps.old.items ++ filter (λ p. not (length p == 0)) (part.now ∷ [])) }
{
    if part.is_empty() {
        return Ok(());
    }
    let part = String::from_str(alloc, part)?;
    caps.push(part)?;
    Ok(())
}

/// The capabilities in a list with commas.
fn caps_of(alloc: Global, text: &str) -> Result<Vec<String>, AllocError>
    ensures { IfOk result (λ caps. map string_bytes caps.items ≡ caps_of text.now) }
{
    let mut caps = Vec::new(alloc);
    let mut rest = text;
    while let Some((part, later)) = rest.split_once(',') {
        keep_part(alloc, &mut caps, part)?;
        rest = later;
    }
    keep_part(alloc, &mut caps, rest)?;
    Ok(caps)
}

/// The options of `check` with this list of capabilities.
fn with_caps(alloc: Global, text: &str) -> Result<Options, AllocError>
    ensures caps { IfOk result (λ options. map string_bytes options.caps.items ≡ caps_of text.now) }
    ensures counts { IfOk result (λ options. (options.keep ≡ 64) × (options.recent ≡ 32)) }
{
    let mut options = Options::standard(alloc);
    options.caps = caps_of(alloc, text)?;
    Ok(options)
}

/// The command that the words give, with its options. Want of memory comes only from a list of
/// capabilities.
pub fn read_words(alloc: Global, words: &[String]) -> Result<(Command, Options), WordsFault>
    ensures reads { Reads result (command_of (map string_bytes words.now)) }
    ensures counts { IfOk result (λ c. (c.1.keep ≡ 64) × (c.1.recent ≡ 32)) }
{
    match words {
        [word] => {
            if word.as_str() == "serial" {
                return Ok((Command::Serial, Options::standard(alloc)));
            }
            if word.as_str() == "check" {
                return Ok((Command::Check, Options::standard(alloc)));
            }
            Err(WordsFault::Usage)
        }
        [word, option, text] => {
            if word.as_str() == "check" && option.as_str() == "--caps" {
                return match with_caps(alloc, text.as_str()) {
                    Ok(options) => Ok((Command::Check, options)),
                    Err(_) => Err(WordsFault::NoMemory),
                };
            }
            Err(WordsFault::Usage)
        }
        _ => Err(WordsFault::Usage),
    }
}
