//! The line of a script that tells an event.
ghost use Rattle.std.specs.Prelude.{◌≡◌, [], ◌∷◌, codes, decimal, IfOk, Ok, true};
ghost use Rattle.json.specs.Token.{key, string, number, begin_object, end_object};
ghost use Rattle.json.specs.Tree.{json_tokens};
ghost use Rattle.manifest.specs.Line.{meaning};
ghost use Rattle.manifest.specs.declared.command.Command.TheVariants as commands;
ghost use Rattle.quant.specs.declared.event.Event.TheVariants.{NodeSet, PodPending, PodBound};
ghost use Rattle.objects.specs.inside.Line.{line_json};
ghost use Rattle.objects.specs.inside.Events.{IsSayable};
ghost use Rattle.objects.specs.Translation.{is_one_line};
ghost use Rattle.objects.specs.inside.Added.{Adds};

use crate::line_field::{Field, put_object};
use json::Writer;
use quant::{Event, Name, Node, Pod, Request, Version};
use std::alloc::{AllocError, Global};

// The room that most lines need.
const ROOM: usize = 512;

// The line that tells an event, without its newline.
pub(crate) fn write_line(alloc: Global, event: &Event) -> Result<Vec<u8>, AllocError>
    requires { IsSayable event.now }
    ensures meaning { IfOk result (λ line. meaning line.items ≡ Ok (commands.Event event.now)) }
    ensures one_line { IfOk result (λ line. is_one_line line.items ≡ true) }
{
    let mut writer = Writer::new(Vec::with_capacity(alloc, ROOM)?);
    write_event(alloc, &mut writer, event)?;
    Ok(writer.into_inner())
}

// Writes the object that tells an event.
fn write_event(alloc: Global, writer: &mut Writer, event: &Event) -> Result<(), AllocError>
    ensures { Adds result writer.old writer.new (json_tokens (line_json event.now)) }
{
    match event {
        Event::NodeSet { version, node } => write_node(alloc, writer, *version, node),
        Event::NodeGone { version, name } => write_named(
            alloc, writer, "gone", *version, "name", name,
        ),
        Event::PodPending { version, pod } => write_pod(alloc, writer, *version, pod),
        Event::PodBound {
            version,
            uid,
            node,
            request,
        } => write_bound(alloc, writer, *version, uid, node, request),
        Event::PodGone { version, uid } => write_named(
            alloc, writer, "deleted", *version, "uid", uid,
        ),
    }
}

// Writes a node's row.
fn write_node(
    alloc: Global,
    writer: &mut Writer,
    version: Version,
    node: &Node,
) -> Result<(), AllocError>
    ensures { Adds result writer.old writer.new (json_tokens (line_json (NodeSet version node.now))) }
{
    put_object(
        alloc,
        writer,
        &[
            ("op", Field::Text("node")),
            ("v", Field::Number(version.0)),
            ("name", Field::Text(node.name.as_str())),
            ("cpu", Field::Cpu(node.allocatable.cpu)),
            ("mem", Field::Memory(node.allocatable.mem)),
            ("pods", Field::Number(u64::from(node.allocatable.pods))),
            ("labels", Field::Labels(node.labels.as_slice())),
            ("taints", Field::Taints(node.taints.as_slice())),
            ("unschedulable", Field::Flag(node.unschedulable)),
        ],
    )
}

// Writes the row of a pod that waits.
fn write_pod(
    alloc: Global,
    writer: &mut Writer,
    version: Version,
    pod: &Pod,
) -> Result<(), AllocError>
    ensures { Adds result writer.old writer.new (json_tokens (line_json (PodPending version pod.now))) }
{
    put_object(
        alloc,
        writer,
        &[
            ("op", Field::Text("pod")),
            ("v", Field::Number(version.0)),
            ("uid", Field::Text(pod.uid.as_str())),
            ("priority", Field::Signed(pod.priority)),
            ("containers", Field::Request(&pod.request)),
            ("labels", Field::Labels(pod.labels.as_slice())),
            (
                "tolerations",
                Field::Tolerations(pod.tolerations.as_slice()),
            ),
        ],
    )
}

// Writes a pod's place.
fn write_bound<'a>(
    alloc: Global,
    writer: &mut Writer,
    version: Version,
    uid: &'a Name,
    node: &'a Name,
    request: &Request,
) -> Result<(), AllocError>
    ensures { Adds result writer.old writer.new
        (json_tokens (line_json (PodBound version uid.now node.now request.now))) }
{
    put_object(
        alloc,
        writer,
        &[
            ("op", Field::Text("bound")),
            ("v", Field::Number(version.0)),
            ("uid", Field::Text(uid.as_str())),
            ("node", Field::Text(node.as_str())),
            ("cpu", Field::Cpu(request.cpu)),
            ("mem", Field::Memory(request.mem)),
        ],
    )
}

// Writes that something is gone, by its name under this key.
fn write_named<'a>(
    alloc: Global,
    writer: &mut Writer,
    op: &'a str,
    version: Version,
    under: &str,
    name: &'a Name,
) -> Result<(), AllocError>
    ensures { Adds result writer.old writer.new
        (begin_object ∷ key (codes "op") ∷ string op.now ∷ key (codes "v") ∷ number (decimal version.0)
        ∷ key under.now ∷ string name.now ∷ end_object ∷ []) }
{
    put_object(
        alloc,
        writer,
        &[
            ("op", Field::Text(op)),
            ("v", Field::Number(version.0)),
            (under, Field::Text(name.as_str())),
        ],
    )
}
