//! The buffer that a record is written into, field after field.
ghost use Rattle.std.specs.Prelude.{◌≡◌, ◌+◌, ◌*◌, ◌<◌, ◌≤◌, [], ◌∷◌, ◌++◌, drop, length, IfSome};
ghost use Rattle.std.specs.List.{AllByRecursion, flat_map};
ghost use Rattle.row_record.specs.KeyOrder.{in_key_order};
ghost use Rattle.row_record.specs.inside.Packed.{ArePacked};
ghost use Rattle.std.specs.Int.{cast_unsigned, w32};
ghost use Rattle.row_record.specs.Record.{number_field, text_field, mark_field, amounts_field, label_field, labels_field, labels_size, effect_code as defined_effect, operator_code as defined_operator, taint_field, taints_field, taints_size, toleration_field, tolerations_field, tolerations_size};

use crate::key_order::key_order;
use arrayvec::ArrayVec;
use byteorder::{ByteOrder, LittleEndian};
use quant::{Effect, Label, Operator, Res, Taint, Toleration, are_in_order};
use std::marker::Model;

/// The most bytes of a record.
pub const RECORD_SIZE: usize = 8_192;

/// The version that a record of version 2 begins with.
pub(crate) const SECOND_VERSION: u8 = 2;

/// The version that a record of version 3 begins with.
pub(crate) const THIRD_VERSION: u8 = 3;

// The byte of an effect. One that isn't given stands for every effect.
fn effect_code(effect: Option<Effect>) -> u8
    ensures { result ≡ defined_effect effect }
{
    match effect {
        None => 0,
        Some(Effect::NoSchedule) => 1,
        Some(Effect::PreferNoSchedule) => 2,
        Some(Effect::NoExecute) => 3,
    }
}

// The byte of an operator.
fn operator_code(operator: Operator) -> u8
    ensures { result ≡ defined_operator operator }
{
    match operator {
        Operator::Equal => 1,
        Operator::Exists => 2,
    }
}

/// A record: at most 8,192 bytes, all of whose room it has from the start. It is kilobytes large,
/// so it is written in place and not moved about.
#[derive(Drop)]
pub struct Record {
    bytes: ArrayVec<u8, RECORD_SIZE>,
}

impl Model for Record {
    ghost use Rattle.std.specs.Prelude.{List, ℕ, ◌≤◌, ◌<◌, length};
    ghost use Rattle.std.specs.List.{AllByRecursion};

    ghost Value = { List ℕ };

    ghost view = { λ r. r.bytes.items };

    ghost invariant = { λ r. (length r.bytes.items ≤ 8192) × AllByRecursion (λ byte. byte < 256) r.bytes.items };
}

impl Record {
    /// A record of no bytes.
    pub fn new() -> Record
        ensures { result ≡ [] }
    {
        Record {
            bytes: ArrayVec::new(),
        }
    }

    /// The bytes.
    pub fn as_bytes(&self) -> &[u8]
        ensures bytes { result.now ≡ self.now }
        ensures each { AllByRecursion (λ byte. byte < 256) self.now }
        ensures most { length self.now ≤ 8192 }
    {
        self.bytes.as_slice()
    }

    /// Takes all bytes out.
    pub(crate) fn clear(&mut self)
        ensures { self.new ≡ [] }
    {
        self.bytes.clear();
    }

    /// Makes it a record of version 2 that tells what one of version 1 does, whose bytes are
    /// copied: none is written anew.
    pub fn copy_as_second(&mut self, first: &Record)
        requires { 1 ≤ length first.now }
        ensures bytes { self.new ≡ 2 ∷ drop 1 first.now }
        ensures count { length self.new ≡ length first.now }
    {
        self.clear();
        self.put_byte(SECOND_VERSION);
        self.put(&first.as_bytes()[1..]);
    }

    /// Writes bytes behind those that stand already.
    pub(crate) fn put(&mut self, bytes: &[u8])
        requires { length self.old + length bytes.now ≤ 8192 }
        ensures { self.new ≡ self.old ++ bytes.now }
    {
        self.bytes.try_extend_from_slice(bytes).unwrap();
    }

    /// Writes one byte.
    pub(crate) fn put_byte(&mut self, byte: u8)
        requires { length self.old < 8192 }
        ensures field { self.new ≡ self.old ++ byte ∷ [] }
        ensures count { length self.new ≡ length self.old + 1 }
    {
        self.put(&[byte]);
    }

    /// Writes a number of 32 bits.
    #[tactic(auto, unfolding(crate::specs::Record::number_field))]
    pub(crate) fn put_u32(&mut self, number: u32)
        requires { length self.old + 4 ≤ 8192 }
        ensures field { self.new ≡ self.old ++ number_field 4 number }
        ensures count { length self.new ≡ length self.old + 4 }
    {
        let mut bytes = [0; 4];
        LittleEndian::write_u32(&mut bytes, number);
        self.put(&bytes);
    }

    /// Writes a number of 32 bits with a sign, as two's complement.
    pub(crate) fn put_i32(&mut self, number: i32)
        requires { length self.old + 4 ≤ 8192 }
        ensures field { self.new ≡ self.old ++ number_field 4 (cast_unsigned w32 number) }
        ensures count { length self.new ≡ length self.old + 4 }
    {
        self.put_u32(number.cast_unsigned());
    }

    /// Writes a number of 64 bits.
    #[tactic(auto, unfolding(crate::specs::Record::number_field))]
    pub(crate) fn put_u64(&mut self, number: u64)
        requires { length self.old + 8 ≤ 8192 }
        ensures field { self.new ≡ self.old ++ number_field 8 number }
        ensures count { length self.new ≡ length self.old + 8 }
    {
        let mut bytes = [0; 8];
        LittleEndian::write_u64(&mut bytes, number);
        self.put(&bytes);
    }

    /// Writes a mark.
    pub(crate) fn put_mark(&mut self, mark: bool)
        requires { length self.old < 8192 }
        ensures field { self.new ≡ self.old ++ mark_field mark }
        ensures count { length self.new ≡ length self.old + 1 }
    {
        self.put_byte(u8::from(mark));
    }

    /// Writes a text: its length and its bytes.
    pub(crate) fn put_text(&mut self, text: &[u8])
        requires short { length text.now ≤ 63 }
        requires room { length self.old + 64 ≤ 8192 }
        ensures field { self.new ≡ self.old ++ text_field text.now }
        ensures count { length self.new ≡ length self.old + 1 + length text.now }
    {
        self.put_byte(text.len() as u8);
        self.put(text);
    }

    /// Writes amounts.
    pub(crate) fn put_amounts(&mut self, amounts: &Res)
        requires { length self.old + 20 ≤ 8192 }
        ensures field { self.new ≡ self.old ++ amounts_field amounts.now }
        ensures count { length self.new ≡ length self.old + 20 }
    {
        self.put_u64(amounts.cpu.0);
        self.put_u64(amounts.mem.0);
        self.put_u32(amounts.pods);
    }

    /// Writes a label: its key and its value.
    pub(crate) fn put_label(&mut self, label: &Label)
        requires { length self.old + 128 ≤ 8192 }
        ensures field { self.new ≡ self.old ++ label_field label.now }
        ensures most { length self.new ≤ length self.old + 128 }
    {
        self.put_text(label.key.as_bytes());
        self.put_text(label.value.as_bytes());
    }

    /// Writes labels in rising order of their keys' bytes. They may be packed so already.
    pub(crate) fn put_labels(&mut self, labels: &[Label], packed: Option<&[u8]>)
        requires packed { IfSome packed (λ packed. ArePacked labels.now packed.now) }
        requires few { length labels.now ≤ 32 }
        requires room { length self.old + 4097 ≤ 8192 }
        ensures field { self.new ≡ self.old ++ labels_field labels.now }
        ensures count { length self.new ≡ length self.old + labels_size labels.now }
        ensures most { length self.new ≤ length self.old + 4097 }
    {
        self.put_byte(labels.len() as u8);
        self.put_counted(labels, packed);
    }

    // The same without their count.
    fn put_counted(&mut self, labels: &[Label], packed: Option<&[u8]>)
        requires packed { IfSome packed (λ packed. ArePacked labels.now packed.now) }
        requires few { length labels.now ≤ 32 }
        requires room { length self.old + 4096 ≤ 8192 }
        ensures fields { self.new ≡ self.old ++ flat_map label_field (in_key_order labels.now) }
        ensures most { length self.new ≤ length self.old + 4096 }
    {
        match packed {
            Some(packed) => self.put(packed),
            None => self.put_in_order(labels),
        }
    }

    // Writes labels in rising order of their keys' bytes, without their count.
    #[tactic(auto, using(crate::proofs::KeyOrderLemmas::as_they_stand))]
    fn put_in_order(&mut self, labels: &[Label])
        requires few { length labels.now ≤ 32 }
        requires room { length self.old + 4096 ≤ 8192 }
        ensures fields { self.new ≡ self.old ++ flat_map label_field (in_key_order labels.now) }
        ensures most { length self.new ≤ length self.old + 4096 }
    {
        if are_in_order(labels) {
            self.put_each(labels);
        } else {
            self.put_by_places(labels);
        }
    }

    // Writes labels as they stand.
    fn put_each(&mut self, labels: &[Label])
        requires few { length labels.now ≤ 32 }
        requires room { length self.old + 4096 ≤ 8192 }
        ensures fields { self.new ≡ self.old ++ flat_map label_field labels.now }
        ensures most { length self.new ≤ length self.old + 4096 }
    {
        for label in labels {
            self.put_label(label);
        }
    }

    // The same of labels that stand in any order.
    fn put_by_places(&mut self, labels: &[Label])
        requires few { length labels.now ≤ 32 }
        requires room { length self.old + 4096 ≤ 8192 }
        ensures fields { self.new ≡ self.old ++ flat_map label_field (in_key_order labels.now) }
        ensures most { length self.new ≤ length self.old + 4096 }
    {
        for place in key_order(labels).as_slice() {
            self.put_label(&labels[usize::from(*place)]);
        }
    }

    /// Writes a taint: its key, its value and its effect.
    pub(crate) fn put_taint(&mut self, taint: &Taint)
        requires { length self.old + 129 ≤ 8192 }
        ensures field { self.new ≡ self.old ++ taint_field taint.now }
        ensures most { length self.new ≤ length self.old + 129 }
    {
        self.put_text(taint.key.as_bytes());
        self.put_text(taint.value.as_bytes());
        self.put_byte(effect_code(Some(taint.effect)));
    }

    /// Writes taints in their order.
    pub fn put_taints(&mut self, taints: &[Taint])
        requires few { length taints.now ≤ 8 }
        requires room { length self.old + 1033 ≤ 8192 }
        ensures field { self.new ≡ self.old ++ taints_field taints.now }
        ensures count { length self.new ≡ length self.old + taints_size taints.now }
        ensures most { length self.new ≤ length self.old + 1033 }
    {
        self.put_byte(taints.len() as u8);
        for taint in taints {
            self.put_taint(taint);
        }
    }

    /// Writes a toleration: its key, its operator, its value and its effect.
    pub(crate) fn put_toleration(&mut self, toleration: &Toleration)
        requires { length self.old + 130 ≤ 8192 }
        ensures field { self.new ≡ self.old ++ toleration_field toleration.now }
        ensures most { length self.new ≤ length self.old + 130 }
    {
        self.put_text(toleration.key.as_bytes());
        self.put_byte(operator_code(toleration.operator));
        self.put_text(toleration.value.as_bytes());
        self.put_byte(effect_code(toleration.effect));
    }

    /// Writes tolerations in their order.
    pub fn put_tolerations(&mut self, tolerations: &[Toleration])
        requires few { length tolerations.now ≤ 16 }
        requires room { length self.old + 2081 ≤ 8192 }
        ensures field { self.new ≡ self.old ++ tolerations_field tolerations.now }
        ensures count { length self.new ≡ length self.old + tolerations_size tolerations.now }
        ensures most { length self.new ≤ length self.old + 2081 }
    {
        self.put_byte(tolerations.len() as u8);
        for toleration in tolerations {
            self.put_toleration(toleration);
        }
    }
}
