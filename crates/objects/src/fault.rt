//! Why an object doesn't tell what a script says of it.
ghost use Rattle.std.specs.Prelude.{◌≡◌};
ghost use Rattle.objects.specs.LeftOut.{why_text};
ghost use Rattle.objects.specs.declared.fault.ObjectFault.TheVariants as faults;

use std::alloc::AllocError;

/// Why a text of the API gives no amount.
#[derive(Clone, Copy)]
pub(crate) enum QuantityFault {
    /// The text is no quantity.
    NotAQuantity,
    /// The exponent has more than two digits.
    FarExponent,
    /// The quantity is below 0.
    Negative,
    /// The amount is above its limit.
    TooLarge,
}

/// Why something of a line or an object is refused.
#[derive(Clone, Copy)]
pub(crate) enum Why {
    /// The line has more than 2 MiB.
    LongLine,
    /// The line is no JSON.
    NotJson,
    /// The line is an event of the watch of a type that isn't known.
    UnknownEvent,
    /// The object is a list of objects.
    IsList,
    /// The field has another type than the API gives it, or is missing where it has to be there.
    BadField,
    /// The field's text is no name or text of a script.
    BadName,
    /// The field's amount is refused.
    Quantity(QuantityFault),
    /// The field has more items than any object of the API can hold.
    TooMany,
    /// The pod asks for resources as a whole, beside its containers.
    PodResources,
    /// What the pod asks for in all is above the limit of a request.
    TooLarge,
}

impl Why {
    // As it is told, in front of the field's name.
    pub(crate) fn text(self) -> &'static str
        ensures { result.now ≡ why_text self }
    {
        match self {
            Why::LongLine => "a line of more than 2 MiB",
            Why::NotJson => "no JSON",
            Why::UnknownEvent => "an event of another type",
            Why::IsList => "a list, whose items are to stand on lines of their own",
            Why::BadField => "a field of another type: ",
            Why::BadName => "not a name or text of a script: ",
            Why::Quantity(QuantityFault::NotAQuantity) => "no quantity: ",
            Why::Quantity(QuantityFault::FarExponent) => "an exponent of more than two digits: ",
            Why::Quantity(QuantityFault::Negative) => "an amount below 0: ",
            Why::Quantity(QuantityFault::TooLarge) => "an amount above its limit: ",
            Why::TooMany => "too many items: ",
            Why::PodResources => "resources of the whole pod",
            Why::TooLarge => "what it asks for in all",
        }
    }
}

/// Why a line or an object doesn't tell what a script says of a node or a pod. Of several faults
/// the first is told.
#[derive(Clone, Copy)]
pub(crate) enum ObjectFault {
    /// Something is refused, in the field of this name, or in none.
    Refused(Why, &'static str),
    /// No memory was left.
    NoMemory,
}

impl From<AllocError> for ObjectFault {
    ghost from_gives = { λ _ fault. fault ≡ faults.NoMemory };

    fn from(_refused: AllocError) -> Self {
        ObjectFault::NoMemory
    }
}
