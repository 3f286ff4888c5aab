// All entries of a table, by one test of each.
ghost use Rattle.std.specs.Prelude.{◌≡◌, Bool, ℕ, ◌<◌};
ghost use Rattle.valid.specs.Parts.{all_below};

// Whether a test holds of each of the numbers below n. None is branched on: that costs less than a branch that is guessed wrong.
pub fn all_below<F: Fn(usize) -> bool>(n: usize, valid: F) -> bool
    requires { (i : ℕ) → i < n → F.pre valid i }
    ensures { (good : ℕ → Bool) → ((i : ℕ) (r : Bool) → i < n → F.post valid i r → r ≡ good i) → result ≡ all_below good n }
{
    let mut all = true;
    for i in 0..n {
        all &= valid(i);
    }
    all
}
