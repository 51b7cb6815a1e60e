//! Why an amount, a name or a request is refused.
ghost use Rattle.std.specs.Prelude.{◌≡◌, codes};
ghost use Rattle.quant.specs.Fault.{number_of, name_of};

use thiserror::Error;

/// A refusal of this crate.
#[derive(Clone, Copy, Debug, PartialEq, Eq, Error)]
pub enum QuantFault {
    /// The bytes spell no amount.
    #[error("not an amount")]
    BadQuantity,
    /// The amount, or the whole of a pod's request, is above its limit.
    #[error("an amount above its limit")]
    TooLarge,
    /// The bytes are no name, or no text where a text is asked for.
    #[error("not a name")]
    BadName,
}

impl QuantFault {
    /// The fault's number, as messages and statuses tell it.
    pub fn number(self) -> u8
        ensures { result ≡ number_of self }
    {
        match self {
            QuantFault::BadQuantity => 1,
            QuantFault::TooLarge => 2,
            QuantFault::BadName => 3,
        }
    }

    /// The fault's name, as messages tell it.
    pub fn name(self) -> &'static str
        ensures { result.now ≡ name_of self }
    {
        match self {
            QuantFault::BadQuantity => "BadQuantity",
            QuantFault::TooLarge => "TooLarge",
            QuantFault::BadName => "BadName",
        }
    }
}
