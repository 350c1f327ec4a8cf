// The words: those of `gx`, and before them which append is refused.
ghost use Rattle.std.specs.Prelude.{◌≡◌, ◌≤◌, ◌↔◌, Err, IfNone, IfOk, IfSome, IsTrue, codes};
ghost use Rattle.gx_judge.specs.Refusing as of;
ghost use Rattle.gx_judge.specs.declared.asked.Append.{Append as OneAppend};
ghost use Rattle.gx_judge.specs.declared.asked.Asked.{Asked as AllAsked};
ghost use Rattle.gx_words.specs.declared.command.WordsFault.TheVariants as words_fault;
ghost use Rattle.gx_words.specs.declared.options.Options.{Options as AllOptions};

use gx_words::{Options, WordsFault, read_words};
use std::alloc::Global;

/// An append to a node's journal, by its number from 1.
#[derive(Clone, Copy)]
pub struct Append {
    pub node: u8,
    pub call: u64,
}

/// What the words ask for: what they ask `gx` for, and which append is refused.
#[derive(Clone, Copy)]
pub struct Asked {
    pub options: Options,
    pub refused: Option<Append>,
}

/// Reads the words of the command line behind the program's name.
pub fn read_asked(alloc: Global, words: &[String]) -> Result<Asked, WordsFault>
    ensures read { IfOk result (of.IsAsked words.now) }
    ensures turns { IfOk result (λ asked. asked.options.turns ≤ 10000000) }
    ensures refused { result ≡ Err words_fault.Usage → (asked : AllAsked) → of.IsAsked words.now asked → ⊥ }
{
    match read_words(alloc, words) {
        Ok(options) => Ok(Asked {
            options,
            refused: None,
        }),
        Err(WordsFault::Usage) => read_refusing(alloc, words),
        Err(WordsFault::OutOfMemory) => Err(WordsFault::OutOfMemory),
    }
}

// Reads words that begin with the append that is refused, where they aren't those of `gx`.
fn read_refusing(alloc: Global, words: &[String]) -> Result<Asked, WordsFault>
    ensures read { IfOk result (of.IsAsked words.now) }
    ensures turns { IfOk result (λ asked. asked.options.turns ≤ 10000000) }
    ensures refused { result ≡ Err words_fault.Usage → (append : OneAppend) (options : AllOptions) → of.AreRefusing words.now append options → ⊥ }
{
    let [first, text, others @ ..] = words else {
        return Err(WordsFault::Usage);
    };
    if !is_refuse(first.as_str()) {
        return Err(WordsFault::Usage);
    }
    let Some(append) = append_of(text.as_str()) else {
        return Err(WordsFault::Usage);
    };
    match read_words(alloc, others) {
        Ok(options) => Ok(Asked {
            options,
            refused: Some(append),
        }),
        Err(fault) => Err(fault),
    }
}

fn is_refuse(word: &str) -> bool
    ensures { IsTrue result ↔ (word.now ≡ codes "--refuse") }
{
    word == "--refuse"
}

// The append that a text names.
fn append_of(text: &str) -> Option<Append>
    ensures some { IfSome result (of.IsAppendText text.now) }
    ensures none { IfNone result ((append : OneAppend) → of.IsAppendText text.now append → ⊥) }
{
    let (node, call) = text.split_once('.')?;
    let Ok(node) = node.parse::<u8>() else {
        return None;
    };
    let Ok(call) = call.parse::<u64>() else {
        return None;
    };
    if node > 16 || call == 0 {
        return None;
    }
    Some(Append { node, call })
}
