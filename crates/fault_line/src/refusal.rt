//! Why a plugin's module is refused, and the words that tell it.
ghost use Rattle.std.specs.Prelude.{◌≡◌, ◌+◌, ◌≤◌, ◌++◌, length};
ghost use Rattle.fault_line.specs.Refusal.{bin_text, where_text, type_text, instance_text, refusal_text};

use crate::message::{Message, push, push_fault, push_number};
use wcode::BinFault;
use whost::InstanceFault;
use wtype::TypeFault;

/// Why a module is refused.
#[derive(Clone, Copy)]
pub enum Refusal {
    /// The bytes spell no module.
    Undecoded(BinFault),
    /// The module is not accepted.
    Untyped(TypeFault),
    /// The module is accepted, and no instance of it can be made.
    NotReady(InstanceFault),
}

// Adds why bytes spell no module.
#[tactic(auto, using(crate::proofs::Lengths::bin_name_short, crate::proofs::Lengths::kind_name_short), unfolding(crate::specs::Refusal::bin_text))]
fn push_bin_fault(message: &mut Message, fault: BinFault)
    requires { length message.old.items + 100 ≤ 500 }
    ensures text { message.new.items ≡ message.old.items ++ bin_text fault }
    ensures len { length message.new.items ≤ length message.old.items + 100 }
{
    push_fault(message, fault.number(), fault.name());
    if let BinFault::Malformed { kind, place } = fault {
        push(message, b" ");
        push_fault(message, kind.number(), kind.name());
        push(message, b" at ");
        push_number(message, place as u64);
    }
}

// Adds where typing fails.
fn push_where(message: &mut Message, function: Option<usize>, place: usize)
    requires { length message.old.items + 54 ≤ 500 }
    ensures text { message.new.items ≡ message.old.items ++ where_text function place }
    ensures len { length message.new.items ≤ length message.old.items + 54 }
{
    if let Some(function) = function {
        push(message, b" function ");
        push_number(message, function as u64);
        push(message, b" at ");
        push_number(message, place as u64);
    } else {
        push(message, b" module");
    }
}

// Adds why a module isn't accepted.
#[tactic(auto, using(crate::proofs::Lengths::type_name_short), unfolding(crate::specs::Refusal::type_text))]
fn push_type_fault(message: &mut Message, fault: TypeFault)
    requires { length message.old.items + 90 ≤ 500 }
    ensures text { message.new.items ≡ message.old.items ++ type_text fault }
    ensures len { length message.new.items ≤ length message.old.items + 90 }
{
    push_fault(message, fault.number(), fault.name());
    if let TypeFault::Untyped { function, place } = fault {
        push_where(message, function, place);
    }
}

// Adds why no instance of a module can be made: of a start function that is cut off, by which trap.
#[tactic(auto, using(crate::proofs::Lengths::instance_name_short, crate::proofs::Lengths::trap_name_short), unfolding(crate::specs::Refusal::instance_text))]
fn push_instance_fault(message: &mut Message, fault: InstanceFault)
    requires { length message.old.items + 90 ≤ 500 }
    ensures text { message.new.items ≡ message.old.items ++ instance_text fault }
    ensures len { length message.new.items ≤ length message.old.items + 90 }
{
    push_fault(message, fault.number(), fault.name());
    if let InstanceFault::StartTrap(trap) = fault {
        push(message, b" ");
        push_fault(message, trap.number(), trap.name());
    }
}

/// Adds why a module is refused.
#[tactic(auto, unfolding(crate::specs::Refusal::refusal_text))]
pub fn push_refusal(message: &mut Message, refusal: Refusal)
    requires { length message.old.items + 120 ≤ 500 }
    ensures text { message.new.items ≡ message.old.items ++ refusal_text refusal }
    ensures len { length message.new.items ≤ length message.old.items + 120 }
{
    match refusal {
        Refusal::Undecoded(fault) => {
            push(message, b"refused decode ");
            push_bin_fault(message, fault);
        }
        Refusal::Untyped(fault) => {
            push(message, b"refused type ");
            push_type_fault(message, fault);
        }
        Refusal::NotReady(fault) => {
            push(message, b"refused instance ");
            push_instance_fault(message, fault);
        }
    }
}
