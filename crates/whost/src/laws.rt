//! What holds of this crate's definitions. The functions do nothing: their contracts are the laws.
ghost use Rattle.whost.specs.Calls.{CallsAgree};
ghost use Rattle.whost.specs.Refused.{OneImage};

/// Calls of one export from one image, with the same records and fuel, have one outcome and leave
/// one store.
pub fn calls_agree()
    ensures { CallsAgree }
{
    wmach::one_outcome();
}

/// A module has one image at most, and one that has an image is refused for want of memory alone.
pub fn one_image()
    ensures { OneImage }
{
    wmach::one_outcome();
}
