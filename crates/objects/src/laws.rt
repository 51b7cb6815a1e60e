//! What holds of each object, whatever it says. The functions do nothing: their contracts are the
//! laws.
ghost use Rattle.objects.specs.Enough.{CountsEnough, CountsTheSame, CountsWhatIsAsked};
ghost use Rattle.objects.specs.More.{MoreCountsNoLess};
ghost use Rattle.objects.specs.Parts.{CountsParts};
ghost use Rattle.objects.specs.Shown.{NamesAreTexts};

/// What is left out is named in texts in quotation marks, with a comma and a space before each, in
/// which no byte is a control character, a quotation mark or a backslash, or above ASCII. So they
/// are the items of an array of JSON on one line, whatever names an object has.
#[tactic(auto, using(crate::proofs::Shown::names_are_texts))]
pub fn left_out_is_named_in_texts()
    ensures { NamesAreTexts }
{}

/// What a pod takes of its node is never less than what it asked for while it waited, whatever its
/// status says by then, so what a bind was granted for is enough once it is told; and just that
/// where its status says nothing, nor the pod of its resources as a whole, or wherever both say no
/// more than it asked for.
pub fn what_stands_counts_enough()
    ensures enough { CountsEnough }
    ensures same { CountsTheSame }
    ensures asked { CountsWhatIsAsked }
{}

/// A pod on a node always counts for something, whatever it and its status say, and for no less
/// than any part of it that can be read, beside its overhead: than its containers ask for or hold
/// together with the init containers that go on running, than each init container, and than it asks
/// for or holds as a whole. Above the most that a line can say it counts for that.
#[tactic(auto, using(crate::proofs::Parts::counts_parts))]
pub fn what_stands_counts_its_parts()
    ensures { CountsParts }
{}

/// Of two pods with one status, the one that asks for no less never counts for less: with more
/// containers or init containers, in any place, or with more of a resource for one of them, for its
/// overhead or as a whole; but for a first container, since a pod without one counts as the most.
#[tactic(auto, using(crate::proofs::More::more_counts_no_less))]
pub fn more_never_counts_less()
    ensures { MoreCountsNoLess }
{}
