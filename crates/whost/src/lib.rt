//! Records in all versions, which are what the host functions of a module hand over about a pod and
//! a node; and instances, which are modules that are ready to be called with them.
//!
//! One record is `row_record`'s. An instance takes all its room when it is made; each of its calls
//! begins from one image, which `specs/Image.antt` says.
#![tactic(auto)]

mod fault;
mod instance;
mod instantiation;
mod laws;
mod records;
mod sight;

pub use fault::InstanceFault;
pub use instance::Instance;
pub use laws::{calls_agree, one_image};
pub use records::{Records, Versions};
pub use row_record::{
    RECORD_SIZE, Record, fields_stand, labels_are_in_order, node_record, node_record2,
    node_record3, numbers_are_read_back, pod_record, pod_record2, pod_record3,
};
pub use sight::Shows;
