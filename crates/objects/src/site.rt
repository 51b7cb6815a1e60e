//! Whose pods a script is to place, what its rules read, and how an object is told to it.
ghost use Rattle.std.specs.Prelude.{◌≡◌, is_some};
ghost use Rattle.objects.specs.Site.{site_of};

use crate::change::Change;
use quant::Version;
use serde_json::Value;

/// Whose pods a script is to place, and what its rules read.
#[derive(Clone, Copy)]
pub struct Site<'a> {
    /// The scheduler whose pods are told. A pod that names none is for `default-scheduler`.
    pub scheduler: &'a str,
    /// The keys of the labels that the site's rules read, with commas between them. These labels of
    /// a pod or a node are told first, each of them or there is no row. Where none are named, what
    /// has more labels than a row holds has no row.
    pub labels: &'a str,
    /// Labels that are told beside an object's own, as a JSON object, where there are some. They are
    /// told before any other, each of them or there is no row, and one of the object's own under the
    /// key of one of them isn't told. They tell what a pod asks of nodes' labels, and where the
    /// volumes are that it claims: none of that keeps a pod back then.
    pub beside: Option<&'a Value>,
}

// Whether labels are told beside an object's own.
#[tactic(auto, using(crate::proofs::Items::some_of_map))]
pub(crate) fn has_beside(site: &Site<'_>) -> bool
    ensures { result ≡ is_some (site_of site.now).beside }
{
    site.beside.is_some()
}

// How an object is told: for which site, whether a pod is called by its uid, the version of the
// event that tells it, and what has come of the object.
#[derive(Clone, Copy)]
pub(crate) struct Telling<'a> {
    pub site: Site<'a>,
    pub by_uid: bool,
    pub version: Version,
    pub change: Change,
}
