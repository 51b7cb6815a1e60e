//! The row that a node's object gives.
ghost use Rattle.std.specs.Prelude.{◌≡◌, []};
ghost use Rattle.serde_json.specs.View.{view};
ghost use Rattle.objects.specs.inside.Answers.{Gives};
ghost use Rattle.objects.specs.inside.Members.{kept};
ghost use Rattle.objects.specs.inside.Puts.{WhenWhole};
ghost use Rattle.objects.specs.NodeRow.{node_parts, node_labels, node_row};
ghost use Rattle.objects.specs.Site.{site_of};

use crate::amounts::allocatable;
use crate::fault::ObjectFault;
use crate::labels::fill_labels;
use crate::left_out::Names;
use crate::reading::{flag_of, members_at, members_of, name_at, part_of, within};
use crate::site::Site;
use crate::taints::fill_taints;
use quant::{AtMost, Label, MAX_LABELS, MAX_TAINTS, Name, Node, Res, Taint};
use serde_json::Value;
use std::alloc::Global;

// Reads what a row has of a node's object but for its labels, unless a fault comes first: its name,
// what it has, and whether it takes no new pods. Its taints are put into an empty list.
#[tactic(auto, unfolding(crate::specs::NodeRow::node_parts))]
fn node_parts(
    taints: &mut AtMost<Taint, MAX_TAINTS>,
    meta: &Value,
    json: &Value,
) -> Result<(Name, Res, bool), ObjectFault>
    requires { taints.old ≡ [] }
    ensures { Gives (λ parts. (parts.0, parts.1, taints.new, parts.2)) result
        (node_parts (view meta.now) (view json.now)) }
{
    let name = name_at(meta, "name")?;
    let allocatable = allocatable(json)?;
    fill_taints(taints, within(json, "spec", "taints"))?;
    let unschedulable = flag_of(within(json, "spec", "unschedulable"), "unschedulable")?;
    Ok((name, allocatable, unschedulable))
}

// Fills an empty list with a node's labels, of which those that the site's rules read come first.
// Puts the names of what the row leaves out.
#[tactic(auto, unfolding(crate::specs::NodeRow::node_labels))]
fn fill_node_labels(
    labels: &mut AtMost<Label, MAX_LABELS>,
    out: &mut Names,
    meta: &Value,
    json: &Value,
    site: &Site<'_>,
) -> Result<(), ObjectFault>
    requires labels { labels.old ≡ [] }
    requires out { out.old.bytes.items ≡ [] }
    ensures { WhenWhole out.old out.new (Gives (λ _. kept labels.new out.new.bytes.items) result
        (node_labels (site_of site.now) (view meta.now) (view json.now))) }
{
    let found = members_at(meta, "labels")?;
    members_of(within(json, "status", "allocatable"), "allocatable")?;
    fill_labels(labels, out, found, site)
}

// The row of a node's object, in which the labels that the site's rules read come first, and beside
// it the names of what it leaves out, unless a fault comes first.
#[tactic(auto, unfolding(crate::specs::NodeRow::node_row))]
pub(crate) fn node_row(
    alloc: Global,
    json: &Value,
    site: &Site<'_>,
    out: &mut Names,
) -> Result<Node, ObjectFault>
    requires { out.old.bytes.items ≡ [] }
    ensures { WhenWhole out.old out.new (Gives (λ node. record { item = node; left_out = out.new.bytes.items }) result
        (node_row (site_of site.now) (view json.now))) }
{
    let meta = part_of(json, "metadata")?;
    let mut taints = AtMost::new(alloc);
    let (name, allocatable, unschedulable) = node_parts(&mut taints, meta, json)?;
    let mut labels = AtMost::new(alloc);
    fill_node_labels(&mut labels, out, meta, json, site)?;
    Ok(Node {
        name,
        allocatable,
        labels,
        taints,
        unschedulable,
    })
}
