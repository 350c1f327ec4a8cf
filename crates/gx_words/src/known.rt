// The program's own look at the words.
ghost use Rattle.std.specs.Prelude.{◌≡◌, string_bytes};
ghost use Rattle.std.specs.List.{list_all, list_any};
ghost use Rattle.gx_words.specs.Command.{is_joined, is_known, is_option, is_threads};

use crate::number::number;

// Whether the word is this text with a number behind.
fn is_joined(text: &[u8], word: &[u8]) -> bool
    ensures { result ≡ is_joined text.now word.now }
{
    match word.strip_prefix(text) {
        Some(digits) => number(digits).is_some(),
        None => false,
    }
}

fn is_option(alone: &[u8], before: &[u8], word: &[u8]) -> bool
    ensures { result ≡ is_option alone.now before.now word.now }
{
    word == alone || is_joined(before, word)
}

fn is_known(word: &[u8]) -> bool
    ensures { result ≡ is_known word.now }
{
    word == b"--trace".as_slice()
        || word == b"--threads".as_slice()
        || is_option(b"--seed", b"--seed=", word)
        || is_option(b"--turns", b"--turns=", word)
        || is_option(b"--gen", b"--gen=", word)
        || number(word).is_some()
}

/// Whether each word may stand in a command.
pub fn are_known(words: &[String]) -> bool
    ensures { result ≡ list_all (λ w. is_known (string_bytes w)) words.now }
{
    words.iter().all(|word| is_known(word.as_str().as_bytes()))
}

/// Whether one of the words is the one that asks for threads.
pub fn has_threads(words: &[String]) -> bool
    ensures { result ≡ list_any (λ w. is_threads (string_bytes w)) words.now }
{
    words
        .iter()
        .any(|word| is_threads(word.as_str().as_bytes()))
}

fn is_threads(word: &[u8]) -> bool
    ensures { result ≡ is_threads word.now }
{
    word == b"--threads".as_slice()
}
