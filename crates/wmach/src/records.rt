//! Which records the functions that a module imports hand over.

ghost use Rattle.std.specs.Prelude.{◌≡◌, ◌<◌, Some, length, slice_get, IfOk};
ghost use Rattle.wmodule.specs.Syntax.{module_of};
ghost use Rattle.wtype.specs.Accepted.{ImportsRight};
ghost use Rattle.wmach.specs.inside.Coded.{RecordsAgree};
ghost use Rattle.wmach.specs.Host.{imported_names};

use std::alloc::{AllocError, Global};
use wmodule::{Import, Module};
use wtype::host_number;

fn import_at(decoded: &Module, place: usize) -> &Import
    requires { place < length decoded.now.tables.imports.items }
    ensures { slice_get decoded.now.tables.imports.items place ≡ Some result.now }
{
    &decoded.tables().imports[place]
}

/// The record that each imported function hands over, in a module that imports host functions
/// alone: the number of the function.
pub fn records_of(alloc: Global, decoded: &Module) -> Result<Vec<usize>, AllocError>
    requires { ImportsRight (module_of decoded.now) }
    ensures { IfOk result (λ records. RecordsAgree (imported_names (module_of decoded.now).imports) records.items) }
{
    let count = decoded.tables().imports.len();
    let Ok(mut records) = Vec::with_capacity(alloc, count) else {
        return Err(AllocError);
    };
    for place in 0..count {
        let import = import_at(decoded, place);
        let Some(record) = host_number(import.module.as_slice(), import.name.as_slice()) else {
            unreachable!();
        };
        let Ok(()) = records.push(record) else {
            return Err(AllocError);
        };
    }
    Ok(records)
}
