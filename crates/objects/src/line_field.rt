//! The fields of a line.
ghost use Rattle.std.specs.Prelude.{◌≡◌, [], ◌∷◌};
ghost use Rattle.json.specs.Json.{Json, array};
ghost use Rattle.json.specs.Token.{string};
ghost use Rattle.json.specs.Tree.{json_tokens};
ghost use Rattle.objects.specs.inside.Line.{cpu_text, effect_text, optional_effect_text, operator_text, label_json, taint_json, toleration_json, request_json, items_json};
ghost use Rattle.objects.specs.inside.Added.{Adds};
ghost use Rattle.objects.specs.inside.Fields.{field_json, fields_json};

use itoa::Buffer;
use json::Writer;
use quant::{Bytes, Cpu, Effect, Label, Operator, Request, Taint, Toleration};
use std::alloc::{AllocError, Global};

/// What a field of a line says.
#[derive(Clone, Copy)]
pub(crate) enum Field<'a> {
    /// A text.
    Text(&'a str),
    /// A number.
    Number(u64),
    /// A number that may be below 0.
    Signed(i32),
    /// Yes or no.
    Flag(bool),
    /// An amount of CPU.
    Cpu(Cpu),
    /// An amount of memory.
    Memory(Bytes),
    /// What a pod asks for, as the one container that asks for all of it.
    Request(&'a Request),
    /// A row's labels.
    Labels(&'a [Label]),
    /// A node's taints.
    Taints(&'a [Taint]),
    /// A pod's tolerations.
    Tolerations(&'a [Toleration]),
}

// An object of these fields.
pub(crate) fn put_object(
    alloc: Global,
    writer: &mut Writer,
    fields: &[(&str, Field<'_>)],
) -> Result<(), AllocError>
    ensures { Adds result writer.old writer.new (json_tokens (fields_json (λ f. f.0.now) (λ f. f.1) fields.now)) }
{
    writer.begin_object()?;
    for (name, field) in fields {
        writer.key(name)?;
        put_field(alloc, writer, field)?;
    }
    writer.end_object()
}

// What a field says.
fn put_field(alloc: Global, writer: &mut Writer, field: &Field<'_>) -> Result<(), AllocError>
    ensures { Adds result writer.old writer.new (json_tokens (field_json field.now)) }
{
    match field {
        Field::Text(text) => writer.string(text),
        Field::Number(n) => writer.u64(*n),
        Field::Signed(n) => writer.i64(i64::from(*n)),
        Field::Flag(flag) => writer.boolean(*flag),
        Field::Cpu(cpu) => put_cpu(alloc, writer, *cpu),
        Field::Memory(mem) => writer.quoted_u64(mem.0),
        Field::Request(request) => put_items(alloc, writer, &[**request]),
        Field::Labels(labels) => put_items(alloc, writer, labels),
        Field::Taints(taints) => put_items(alloc, writer, taints),
        Field::Tolerations(tolerations) => put_items(alloc, writer, tolerations),
    }
}

// Thousandths of a core, as the API spells them.
fn put_cpu(alloc: Global, writer: &mut Writer, cpu: Cpu) -> Result<(), AllocError>
    ensures { Adds result writer.old writer.new (string (cpu_text cpu) ∷ []) }
{
    let thousandths = cpu.0;
    let text = format!(in alloc; "{thousandths}m")?;
    writer.string(text.as_str())
}

// What stands in an array of a line, one a place.
pub(crate) trait Item {
    // As a line tells it.
    ghost json: { Self → Json };

    // Writes it.
    fn put(&self, alloc: Global, writer: &mut Writer) -> Result<(), AllocError>
        ensures { Adds result writer.old writer.new (json_tokens (json self.now)) };
}

// An array, with an item for each of these.
fn put_items<T: Item>(alloc: Global, writer: &mut Writer, items: &[T]) -> Result<(), AllocError>
    ensures { Adds result writer.old writer.new (json_tokens (array (items_json T.json items.now))) }
{
    writer.begin_array()?;
    for item in items {
        item.put(alloc, writer)?;
    }
    writer.end_array()
}

// An array of texts.
fn put_texts(writer: &mut Writer, items: &[&str]) -> Result<(), AllocError>
    ensures { Adds result writer.old writer.new
        (json_tokens (array (items_json (λ text. Json.string text.now) items.now))) }
{
    writer.begin_array()?;
    for text in items {
        writer.string(text)?;
    }
    writer.end_array()
}

impl Item for Request {
    ghost json = { request_json };

    fn put(&self, alloc: Global, writer: &mut Writer) -> Result<(), AllocError> {
        let thousandths = self.cpu.0;
        let cpu = format!(in alloc; "{thousandths}m")?;
        let mut digits = Buffer::new();
        put_texts(writer, &[cpu.as_str(), digits.format(self.mem.0)])
    }
}

impl Item for Label {
    ghost json = { label_json };

    fn put(&self, _alloc: Global, writer: &mut Writer) -> Result<(), AllocError> {
        put_texts(writer, &[self.key.as_str(), self.value.as_str()])
    }
}

impl Item for Taint {
    ghost json = { taint_json };

    fn put(&self, _alloc: Global, writer: &mut Writer) -> Result<(), AllocError> {
        put_texts(
            writer,
            &[
                self.key.as_str(),
                self.value.as_str(),
                effect_text(&self.effect),
            ],
        )
    }
}

impl Item for Toleration {
    ghost json = { toleration_json };

    fn put(&self, _alloc: Global, writer: &mut Writer) -> Result<(), AllocError> {
        put_texts(
            writer,
            &[
                self.key.as_str(),
                operator_text(&self.operator),
                self.value.as_str(),
                optional_effect_text(&self.effect),
            ],
        )
    }
}

// The name of a taint's effect.
fn effect_text(effect: &Effect) -> &str
    ensures { result.now ≡ effect_text effect.now }
{
    match effect {
        Effect::NoSchedule => "NoSchedule",
        Effect::PreferNoSchedule => "PreferNoSchedule",
        Effect::NoExecute => "NoExecute",
    }
}

// The name of a toleration's effect: none stands for every one.
fn optional_effect_text(effect: &Option<Effect>) -> &str
    ensures { result.now ≡ optional_effect_text effect.now }
{
    match effect {
        Some(effect) => effect_text(effect),
        None => "",
    }
}

// The name of a toleration's operator.
fn operator_text(operator: &Operator) -> &str
    ensures { result.now ≡ operator_text operator.now }
{
    match operator {
        Operator::Equal => "Equal",
        Operator::Exists => "Exists",
    }
}
