// The bytes of the script that the words ask for.
ghost use Rattle.std.specs.Prelude.{◌≡◌, None};
ghost use Rattle.gx_words.specs.Asked.{HasBytes};

use crate::options::Options;
use gx_ids::OutOfMemory;
use gx_outside::{ReadFault, Source, read_up_to};
use gx_work::generate;
use std::alloc::Global;

// The most bytes of a script.
const LIMIT: usize = 16_777_216;

/// Why there are no bytes.
pub enum NoBytes {
    ReadFault,
    TooLarge,
    OutOfMemory,
}

/// Generates the bytes where the words ask for generated work, and reads nothing then; else reads the source to its end.
pub fn script_bytes<S: Source>(
    alloc: Global,
    options: Options,
    source: &mut S,
) -> Result<Vec<u8>, NoBytes>
    ensures has { HasBytes options.work (S.left source.old) (S.left source.new) (S.fault_count source.old) (S.fault_count source.new) result }
    ensures unread { (options.work ≡ None → ⊥) → source.new ≡ source.old }
{
    match options.work {
        Some(number) => match generate(alloc, number) {
            Ok(bytes) => Ok(bytes),
            Err(OutOfMemory) => Err(NoBytes::OutOfMemory),
        },
        None => source_bytes(alloc, source),
    }
}

fn source_bytes<S: Source>(alloc: Global, source: &mut S) -> Result<Vec<u8>, NoBytes>
    ensures { HasBytes None (S.left source.old) (S.left source.new) (S.fault_count source.old) (S.fault_count source.new) result }
{
    match read_up_to(alloc, source, LIMIT + 1) {
        Ok(bytes) => {
            if bytes.len() > LIMIT {
                Err(NoBytes::TooLarge)
            } else {
                Ok(bytes)
            }
        }
        Err(ReadFault::Failed) => Err(NoBytes::ReadFault),
        Err(ReadFault::OutOfMemory) => Err(NoBytes::OutOfMemory),
    }
}
