//! What holds of the grammar of numbers. A law's function does nothing: its contract is the law.

ghost use Rattle.std.specs.Prelude.{◌≡◌, ℕ, ℤ, List};
ghost use Rattle.leb.specs.Number.{Sign, Spells};

/// No spelling of a number begins another one's: bytes begin with one number at most, which ends at
/// one place.
pub fn one_number()
    ensures { (s : Sign) (bits : ℕ) (bytes : List ℕ) (v w : ℤ) (rest more : List ℕ) →
        Spells s bits bytes v rest → Spells s bits bytes w more → (v ≡ w) × (rest ≡ more) }
{}
