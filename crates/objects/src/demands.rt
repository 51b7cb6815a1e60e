//! What a pod asks for that no row tells: what it must have, and what it only wishes.
ghost use Rattle.std.specs.Prelude.{◌≡◌, ◌++◌, ◌&&◌, ℕ, not, List, [], map, codes, option_map, if◌then◌else◌};
ghost use Rattle.serde_json.specs.Data.{Data};
ghost use Rattle.serde_json.specs.Find.{as_object};
ghost use Rattle.serde_json.specs.View.{view, items_view, members_view};
ghost use Rattle.objects.specs.Demands.{each_item, array_gives, affinity, is_wished, has_spread, asks_spread, is_one_of, has_only, are_parts_if, is_read_kind, has_kinds, is_read_affinity, free, free_or_claimed, is_tied, volume, node_port, host_port, is_nothing, other_resources, object_gives, other_resource, resources_of, container, other_field, other_fields, fields_of, placement, demands, wishes};
ghost use Rattle.objects.specs.Reading.{said, field, is_given, has};
ghost use Rattle.objects.specs.LeftOut.{left_out, left_out_if};
ghost use Rattle.objects.specs.inside.Otherwise.{otherwise};
ghost use Rattle.objects.specs.inside.Puts.{Puts};

use crate::amounts::amount_of;
use crate::left_out::{Names, put_left_out, put_left_out_if};
use crate::quantity::Rounding;
use crate::reading::{field, has, is_given, spelled, within};
use crate::resource::Resource;
use itoa::Buffer;
use serde_json::{Map, Value};

// The kinds of affinity that are looked at.
const KINDS: [&str; 3] = ["nodeAffinity", "podAffinity", "podAntiAffinity"];

// The parts of each: what a pod must have, and what it can do without.
pub(crate) const REQUIRED: &str = "requiredDuringSchedulingIgnoredDuringExecution";

const PREFERRED: &str = "preferredDuringSchedulingIgnoredDuringExecution";

const PARTS: [&str; 2] = [REQUIRED, PREFERRED];

// The kinds of volumes that are claimed, a volume's name, and the kinds that tie a pod to no node.
const FREE_OR_CLAIMED: [&str; 12] = [
    "persistentVolumeClaim",
    "ephemeral",
    "name",
    "configMap",
    "secret",
    "emptyDir",
    "hostPath",
    "projected",
    "downwardAPI",
    "csi",
    "nfs",
    "image",
];

// So many of these are claimed.
const CLAIMED: usize = 2;

// The fields of a spec that are told or looked at, and those that tie a pod to no node: how its
// processes run, how they are known on the network, and in whose name and before whom.
const KNOWN: [&str; 41] = [
    "affinity",
    "containers",
    "initContainers",
    "nodeName",
    "nodeSelector",
    "overhead",
    "priority",
    "resourceClaims",
    "resources",
    "schedulerName",
    "schedulingGates",
    "tolerations",
    "topologySpreadConstraints",
    "volumes",
    "activeDeadlineSeconds",
    "ephemeralContainers",
    "hostIPC",
    "hostPID",
    "hostUsers",
    "os",
    "restartPolicy",
    "runtimeClassName",
    "securityContext",
    "shareProcessNamespace",
    "terminationGracePeriodSeconds",
    "dnsConfig",
    "dnsPolicy",
    "enableServiceLinks",
    "hostAliases",
    "hostNetwork",
    "hostname",
    "hostnameOverride",
    "readinessGates",
    "setHostnameAsFQDN",
    "subdomain",
    "automountServiceAccountToken",
    "imagePullSecrets",
    "preemptionPolicy",
    "priorityClassName",
    "serviceAccount",
    "serviceAccountName",
];

// Puts the names of what a pod's spec must have, where what it asks of nodes' labels and of volumes
// that it claims is told, or isn't.
#[tactic(auto, unfolding(crate::specs::Demands::demands))]
pub(crate) fn put_demands(out: &mut Names, spec: &Value, is_told: bool)
    ensures { Puts out.old out.new (demands is_told (view spec.now)) }
{
    put_placement(out, spec, is_told);
    put_volumes(out, spec, is_told);
    put_list::<Container>(out, spec, "containers", None);
    put_list::<Container>(out, spec, "initContainers", None);
    put_members(out, field(spec, "overhead"), None);
    put_fields(out, spec)
}

// Puts the names of what it must have of its node and of other pods, and of what it waits for.
#[tactic(auto, unfolding(crate::specs::Demands::placement))]
fn put_placement(out: &mut Names, spec: &Value, is_told: bool)
    ensures { Puts out.old out.new (placement is_told (view spec.now)
        ++ left_out_if (is_given (field (codes "schedulingGates") (view spec.now))) (codes "scheduling gates")
        ++ left_out_if (is_given (field (codes "resourceClaims") (view spec.now))) (codes "resource claims")) }
{
    let selector = field(spec, "nodeSelector");
    put_left_out_if(out, is_untold(selector, is_told), "node selector");
    let nodes = affinity(spec, "nodeAffinity", REQUIRED);
    put_left_out_if(out, is_untold(nodes, is_told), "required node affinity");
    let beside = asks(spec, "podAffinity", REQUIRED);
    put_left_out_if(out, beside, "required pod affinity");
    let apart = asks(spec, "podAntiAffinity", REQUIRED);
    put_left_out_if(out, apart, "required pod anti-affinity");
    let is_read = is_read_affinity(field(spec, "affinity"));
    put_left_out_if(out, !is_read, "affinity");
    put_left_out_if(out, asks_spread(spec, false), "required topology spread");
    let gates = is_given(field(spec, "schedulingGates"));
    put_left_out_if(out, gates, "scheduling gates");
    let claims = is_given(field(spec, "resourceClaims"));
    put_left_out_if(out, claims, "resource claims")
}

// Puts the names of what it can do without.
#[tactic(auto, unfolding(crate::specs::Demands::wishes))]
pub(crate) fn put_wishes(out: &mut Names, spec: &Value, is_told: bool)
    ensures { Puts out.old out.new (wishes is_told (view spec.now)) }
{
    let nodes = affinity(spec, "nodeAffinity", PREFERRED);
    put_left_out_if(out, is_untold(nodes, is_told), "preferred node affinity");
    let beside = asks(spec, "podAffinity", PREFERRED);
    put_left_out_if(out, beside, "preferred pod affinity");
    let apart = asks(spec, "podAntiAffinity", PREFERRED);
    put_left_out_if(out, apart, "preferred pod anti-affinity");
    put_left_out_if(out, asks_spread(spec, true), "preferred topology spread")
}

// Puts the names of the volumes that tie a pod to a node, but for those that are claimed, where
// their places are told.
fn put_volumes(out: &mut Names, spec: &Value, is_told: bool)
    ensures { Puts out.old out.new
        (array_gives (volume (if is_told then free_or_claimed else free)) (left_out (codes "volume ") [])
        (field (codes "volumes") (view spec.now))) }
{
    if is_told {
        put_list::<UnclaimedVolume>(out, spec, "volumes", Some("volume "))
    } else {
        put_list::<Volume>(out, spec, "volumes", Some("volume "))
    }
}

// Whether something is asked for that isn't told.
fn is_untold(value: Option<&Value>, is_told: bool) -> bool
    ensures { result ≡ (not is_told && is_given (option_map (λ v. view v.now) value.entry)) }
{
    !is_told && is_given(value)
}

// Whether something stands in a part of an affinity.
pub(crate) fn asks(spec: &Value, kind: &str, part: &str) -> bool
    ensures { result ≡ is_given (affinity kind.now part.now (view spec.now)) }
{
    is_given(affinity(spec, kind, part))
}

// A part of an affinity.
fn affinity<'a>(spec: &'a Value, kind: &str, part: &str) -> Option<&'a Value>
    ensures { option_map (λ value. view value.now) result ≡ affinity kind.now part.now (view spec.now) }
{
    within(field(spec, "affinity")?, kind, part)
}

// What stands in an array, one a place, of which each has names to put.
trait Listed {
    // The names that an item gives.
    ghost names: { Data → List ℕ };

    // Puts the names that an item gives.
    fn put(out: &mut Names, item: &Value)
        ensures { Puts out.old out.new (names (view item.now)) };
}

// Puts the names that the items of an array in a field give, or another where it is no array.
fn put_list<T: Listed>(out: &mut Names, object: &Value, key: &str, unread: Option<&str>)
    ensures { Puts out.old out.new
        (array_gives T.names (otherwise (option_map (λ s. s.now) unread.entry)) (field key.now (view object.now))) }
{
    let Some(value) = field(object, key) else {
        return;
    };
    if let Some(found) = value.as_array() {
        put_items::<T>(out, found.as_slice());
        return;
    }
    if let Some(what) = unread {
        put_left_out(out, what, b"")
    }
}

// Puts the names that items give.
fn put_items<T: Listed>(out: &mut Names, found: &[Value])
    ensures { Puts out.old out.new (each_item T.names (items_view found.now)) }
{
    for item in found {
        T::put(out, item);
    }
}

// Whether one of the spreads that a pod asks for is one that it can do without, or isn't.
fn asks_spread(spec: &Value, wished: bool) -> bool
    ensures { result ≡ asks_spread wished (field (codes "topologySpreadConstraints") (view spec.now)) }
{
    let Some(value) = field(spec, "topologySpreadConstraints") else {
        return false;
    };
    match value.as_array() {
        Some(found) => has_spread(found.as_slice(), wished),
        None => !wished,
    }
}

// Whether one of the spreads of an array is one that a pod can do without, or isn't.
fn has_spread(found: &[Value], wished: bool) -> bool
    ensures { result ≡ has_spread wished (items_view found.now) }
{
    for item in found {
        if is_wished(item) == wished {
            return true;
        }
    }
    false
}

// Whether a spread is one that a pod can do without.
fn is_wished(spread: &Value) -> bool
    ensures { result ≡ is_wished (view spread.now) }
{
    spelled(spread, "whenUnsatisfiable") == "ScheduleAnyway"
}

// Whether an affinity is of nothing but the kinds and the parts that are looked at.
fn is_read_affinity(value: Option<&Value>) -> bool
    ensures { result ≡ is_read_affinity (option_map (λ v. view v.now) value.entry) }
{
    let Some(value) = value else {
        return true;
    };
    let Some(members) = value.as_object() else {
        return false;
    };
    for (key, value) in members.iter() {
        if !is_read_kind(key.as_str(), value) {
            return false;
        }
    }
    true
}

// Whether a member of an affinity is of a kind that is looked at.
#[tactic(auto, unfolding(crate::specs::Demands::is_read_kind))]
fn is_read_kind(key: &str, value: &Value) -> bool
    ensures { result ≡ is_read_kind key.now (view value.now) }
{
    is_one_of(&KINDS, key) && are_parts_if(value)
}

// Whether a value has no member but the parts of an affinity.
fn are_parts_if(value: &Value) -> bool
    ensures { result ≡ are_parts_if (said (view value.now)) }
{
    if value.is_null() {
        return true;
    }
    match value.as_object() {
        Some(members) => has_only(members, &PARTS),
        None => false,
    }
}

// Whether an object's members have no names but these.
fn has_only(members: &Map<String, Value>, names: &[&str]) -> bool
    ensures { result ≡ has_only (map (λ name. name.now) names.now) (members_view members.now.entries) }
{
    for (key, _) in members.iter() {
        if !is_one_of(names, key.as_str()) {
            return false;
        }
    }
    true
}

// Whether a key is one of these names.
fn is_one_of(names: &[&str], key: &str) -> bool
    ensures { result ≡ is_one_of (map (λ name. name.now) names.now) key.now }
{
    for name in names {
        if *name == key {
            return true;
        }
    }
    false
}

// A volume.
struct Volume;

impl Listed for Volume {
    ghost names = { volume free };

    fn put(out: &mut Names, item: &Value) {
        put_volume(out, item, &FREE_OR_CLAIMED[CLAIMED..])
    }
}

// A volume, where the places of those that are claimed are told.
struct UnclaimedVolume;

impl Listed for UnclaimedVolume {
    ghost names = { volume free_or_claimed };

    #[tactic(auto, unfolding(crate::specs::Demands::free_or_claimed))]
    fn put(out: &mut Names, item: &Value) {
        put_volume(out, item, &FREE_OR_CLAIMED)
    }
}

// Puts the name of a volume that may tie a pod to a node, as one of other kinds than these may.
#[tactic(auto, unfolding(crate::specs::Demands::volume))]
fn put_volume(out: &mut Names, item: &Value, kinds: &[&str])
    ensures { Puts out.old out.new (volume (map (λ kind. kind.now) kinds.now) (view item.now)) }
{
    if is_tied(item, kinds) {
        put_left_out(out, "volume ", spelled(item, "name").as_bytes())
    }
}

// Whether a volume is of another kind than these.
fn is_tied(volume: &Value, kinds: &[&str]) -> bool
    ensures { result ≡ is_tied (map (λ kind. kind.now) kinds.now) (as_object (view volume.now)) }
{
    match volume.as_object() {
        Some(members) => !has_only(members, kinds),
        None => true,
    }
}

// A port of a container.
struct Port;

impl Listed for Port {
    ghost names = { host_port };

    #[tactic(auto, unfolding(crate::specs::Demands::host_port))]
    fn put(out: &mut Names, item: &Value) {
        if let Some(value) = field(item, "hostPort") {
            put_node_port(out, value.as_u64())
        }
    }
}

// Puts a port of the node itself, which 0 is not.
fn put_node_port(out: &mut Names, port: Option<u64>)
    ensures { Puts out.old out.new (node_port port) }
{
    match port {
        Some(0) => {}
        Some(n) => {
            let mut digits = Buffer::new();
            put_left_out(out, "host port ", digits.format(n).as_bytes())
        }
        None => put_left_out(out, "host port ", b""),
    }
}

// A container.
struct Container;

impl Listed for Container {
    ghost names = { container };

    #[tactic(auto, unfolding(crate::specs::Demands::container))]
    fn put(out: &mut Names, item: &Value) {
        put_list::<Port>(out, item, "ports", Some("host port "));
        put_resources(out, field(item, "resources"))
    }
}

// Puts the resources beyond CPU and memory that a container asks for or may use.
fn put_resources(out: &mut Names, resources: Option<&Value>)
    ensures { Puts out.old out.new (resources_of (option_map (λ v. view v.now) resources.entry)) }
{
    let Some(resources) = resources else {
        return;
    };
    let requests = field(resources, "requests");
    put_members(out, requests, None);
    put_members(out, field(resources, "limits"), requests)
}

// Puts the resources of a field that others don't have already.
fn put_members(out: &mut Names, value: Option<&Value>, others: Option<&Value>)
    ensures { Puts out.old out.new
        (object_gives (has (option_map (λ v. view v.now) others.entry)) (option_map (λ v. view v.now) value.entry)) }
{
    let Some(value) = value else {
        return;
    };
    match value.as_object() {
        Some(members) => put_other_resources(out, members, others),
        None => put_left_out(out, "resources", b""),
    }
}

// Puts the resources beyond CPU and memory that others don't have already.
fn put_other_resources(out: &mut Names, members: &Map<String, Value>, others: Option<&Value>)
    ensures { Puts out.old out.new
        (other_resources (has (option_map (λ v. view v.now) others.entry)) (members_view members.now.entries)) }
{
    for (key, value) in members.iter() {
        put_resource(out, key.as_str(), value, others);
    }
}

// Puts a resource beyond CPU and memory that others don't have already, unless it is nothing of it.
fn put_resource(out: &mut Names, key: &str, value: &Value, others: Option<&Value>)
    ensures { Puts out.old out.new
        (other_resource (has (option_map (λ v. view v.now) others.entry)) key.now (view value.now)) }
{
    if matches!(key, "cpu" | "memory") || has(others, key) || is_nothing(value) {
        return;
    }
    put_left_out(out, "resource ", key.as_bytes())
}

// Whether an amount is nothing.
#[tactic(auto, unfolding(crate::specs::Demands::is_nothing))]
fn is_nothing(value: &Value) -> bool
    ensures { result ≡ is_nothing (view value.now) }
{
    match amount_of(Some(value), Resource::Memory, Rounding::Up) {
        Ok(amount) => amount == 0,
        Err(_) => false,
    }
}

// Puts the fields of a spec that aren't known to tie a pod to no node, where something stands in
// them.
fn put_fields(out: &mut Names, spec: &Value)
    ensures { Puts out.old out.new (fields_of (as_object (view spec.now))) }
{
    let Some(members) = spec.as_object() else {
        return;
    };
    for (key, value) in members.iter() {
        put_other_field(out, key.as_str(), value);
    }
}

// Puts a field that isn't known, where something stands in it.
#[tactic(auto, unfolding(crate::specs::Demands::other_field))]
fn put_other_field(out: &mut Names, key: &str, value: &Value)
    ensures { Puts out.old out.new (other_field key.now (view value.now)) }
{
    if is_one_of(&KNOWN, key) || value.is_null() || !is_given(Some(value)) {
        return;
    }
    put_left_out(out, "field ", key.as_bytes())
}
