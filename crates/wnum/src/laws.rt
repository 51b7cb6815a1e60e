//! Laws of the definitions that the contracts here cite. The functions do nothing: each one's
//! contract is the law.
ghost use Rattle.std.specs.Prelude.{◌≡◌, ◌^◌, ◌<◌, ℕ};
ghost use Rattle.wnum.specs.Representation.{signed, from_signed, ibits, from_ibits};

/// The signed interpretation loses nothing: `from_signed` gives the number back.
pub fn signed_is_invertible()
    ensures { (N i : ℕ) → i < 2 ^ N → from_signed N (signed N i) ≡ i }
{}

/// Nor do the binary digits: `from_ibits` gives the number back.
pub fn digits_are_invertible()
    ensures { (N i : ℕ) → i < 2 ^ N → from_ibits (ibits N i) ≡ i }
{}
