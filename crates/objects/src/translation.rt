//! From a line of the API to a script's.
ghost use Rattle.std.specs.Prelude.{◌≡◌, ◌≤◌, [], length, IfOk};
ghost use Rattle.quant.specs.declared.event.Event.{Event};
ghost use Rattle.objects.specs.Sayable.{IsVersion};
ghost use Rattle.objects.specs.Site.{site_of};
ghost use Rattle.objects.specs.Standing.{IsCounted};
ghost use Rattle.objects.specs.Told.{told};
ghost use Rattle.objects.specs.Translation.{Spells, IsTranslation};
ghost use Rattle.objects.specs.inside.Said.{IsSaid};

use crate::fault::ObjectFault;
use crate::left_out::{Names, put_refused, told_names};
use crate::line::write_line;
use crate::site::Site;
use crate::told::line_told;
use quant::{Event, Version};
use std::alloc::{AllocError, Global};

/// The most bytes of a line of the API. A longer one may be a pod on a node, and is told as
/// `uncounted`: an API server keeps objects of up to 1.5 MiB, but spells some characters of them
/// with six bytes each.
pub const MAX_OBJECT: usize = 2_097_152;

/// What a line of the API gives a script.
#[derive(Drop)]
pub struct Translation {
    /// The script's line, without its newline. It is empty where the object gives none.
    pub line: Vec<u8>,
    /// What is left out: items of an array of JSON, texts in quotation marks with a comma and a
    /// space between them, 256 at most and one more that says that there are others. Where the line
    /// is empty they say why.
    pub left_out: Vec<u8>,
    /// Whether the line may be a pod on a node that no line of a script can count. Then `line` is
    /// empty, and whoever goes on without ending takes the pod's node for full.
    pub uncounted: bool,
}

/// What a line of the API gives a script, as the event of a version from 1 to 10^18. The line is
/// one object in JSON, of a node or a pod, or one event of a watch as the API server streams it:
/// `ADDED`, `MODIFIED` or `DELETED`, and the object; a `BOOKMARK` gives nothing. `site` says whose
/// pods are to be placed by the script's reader. A pod is called by its namespace and its name, as
/// `default/web-1`, or by its uid where `by_uid` is set or the other is no name of a script, as one
/// of more than 63 bytes.
///
/// - A node gives its row: its name, what of `allocatable` a row tells, its labels, its taints, and
///   whether it takes new pods.
/// - A pod that stands on a node and hasn't ended gives its place. It counts for what it asks or
///   holds there, and for the most that a line can say where that can't be read, so that a node is
///   never filled over its room by what this call couldn't read.
/// - A pod that waits gives its row, unless another scheduler is to place it, it is being deleted,
///   or asks for what no row tells, as for labels of its node. Then `MODIFIED` gives that it is
///   gone, since it may have waited before.
/// - `DELETED` gives that the object is gone, and so does `MODIFIED` of a pod that has ended.
/// - An object of another kind and a line of nothing but spaces give no line.
/// - Anything else may be a pod on a node, and is told as `uncounted`: a line of more than 2 MiB or
///   that is no JSON, a list, an object without a kind whose shape isn't certain, and a pod that
///   stands on a node and that no line can call by a name.
///
/// What isn't told of an object is named in `left_out`: the first 256 names, and that there are
/// others.
///
/// Errors: `AllocError`, which may come in place of any other answer.
pub fn translate(
    alloc: Global,
    line: &[u8],
    site: &Site<'_>,
    by_uid: bool,
    version: Version,
) -> Result<Translation, AllocError>
    requires { IsVersion version }
    ensures told { IfOk result (IsTranslation (told (site_of site.now) by_uid version line.now)) }
    ensures short { IfOk result (λ translation. length translation.left_out.items ≤ 100000) }
    ensures counted { IsCounted version line.now (told (site_of site.now) by_uid version line.now) }
{
    let mut out = Names::new(alloc);
    let (event, uncounted) = told(alloc, &mut out, line, site, by_uid, version)?;
    let line = spelled(alloc, event)?;
    let left_out = told_names(alloc, &out)?;
    Ok(Translation {
        line,
        left_out,
        uncounted,
    })
}

// The event that is told by a line, and whether the line may be a pod on a node that can't be
// counted.
#[tactic(auto, unfolding(crate::specs::Told::told))]
fn told(
    alloc: Global,
    out: &mut Names,
    line: &[u8],
    site: &Site<'_>,
    by_uid: bool,
    version: Version,
) -> Result<(Option<Event>, bool), AllocError>
    requires { out.old.bytes.items ≡ [] }
    ensures { IfOk result (λ found. told (site_of site.now) by_uid version line.now
        ≡ record { event = found.0; left_out = out.new.bytes.items; uncounted = found.1 }) }
{
    match line_told(alloc, out, line, site, by_uid, version) {
        Ok(event) => Ok((event, false)),
        Err(ObjectFault::NoMemory) => Err(AllocError),
        Err(ObjectFault::Refused(why, field)) => {
            out.bytes.clear();
            put_refused(out, why, field);
            if out.is_whole {
                Ok((None, true))
            } else {
                Err(AllocError)
            }
        }
    }
}

// The line that tells an event, and the empty one where there is none.
fn spelled(alloc: Global, event: Option<Event>) -> Result<Vec<u8>, AllocError>
    requires { IsSaid event }
    ensures { IfOk result (λ line. Spells event line.items) }
{
    match event {
        Some(event) => write_line(alloc, &event),
        None => Ok(Vec::new(alloc)),
    }
}
