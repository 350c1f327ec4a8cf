//! The sum of the balances of generated work.
ghost use Rattle.std.specs.Prelude.{ℕ, List};
ghost use Rattle.gx_law_sums.specs.Sums.{EndsWithTheSum, KeepsTheSum};
ghost use Rattle.gx_work.specs.Work.{drawn_script, work_script};

/// Transfers make and lose no money, whatever words are drawn. In each legal history a reader that has written nothing sees, at any point, no
/// account until the load has committed, and from then on 64 whose balances sum to 6400; so does whoever is in no transaction at the end.
/// PostgreSQL manual 13.2: a snapshot holds what had committed, of each transaction all or nothing.
pub fn transfers_keep_the_sum()
    ensures { (words : List ℕ) → KeepsTheSum (drawn_script words) }
{}

/// So it is of generated work, whatever its number.
pub fn generated_work_keeps_the_sum()
    ensures { (number : ℕ) → KeepsTheSum (work_script number) }
{}

/// So the table that a run of generated work ends with, of which `--gen` tells the rows and the sum, is empty or has 64 rows that sum to 6400.
pub fn final_accounts_keep_the_sum()
    ensures { (number : ℕ) → EndsWithTheSum (work_script number) }
{}
