// The words of the generator.
ghost use Rattle.std.specs.Prelude.{◌≡◌, IfOk};
ghost use Rattle.rand_core.specs.Steps.{first_words};
ghost use Rattle.rand_xoshiro.specs.Xoshiro256.{plus_plus};
ghost use Rattle.gx_work.specs.Text.{seeded, words_of};

use gx_ids::Mem;
use rand_core::SeedableRng;
use rand_core::utils::NextWord;
use rand_xoshiro::Xoshiro256PlusPlus;
use std::alloc::Global;

#[tactic(auto, unfolding(crate::specs::Text::seeded))]
fn generator(number: u64) -> Xoshiro256PlusPlus
    ensures { result ≡ seeded number }
{
    Xoshiro256PlusPlus::seed_from_u64(number)
}

fn drawn(alloc: Global, mut generator: Xoshiro256PlusPlus, count: usize) -> Mem<Vec<u64>>
    ensures { IfOk result (λ words. words.items ≡ first_words plus_plus count generator) }
{
    let mut words = Vec::new(alloc);
    for _word in 0..count {
        let word = generator.next_word();
        words.push(word)?;
    }
    Ok(words)
}

/// The words that the work of a number is made of.
#[tactic(auto, unfolding(crate::specs::Text::words_of))]
pub fn words_of(alloc: Global, number: u64) -> Mem<Vec<u64>>
    ensures { IfOk result (λ words. words.items ≡ words_of number) }
{
    drawn(alloc, generator(number), 2400)
}
