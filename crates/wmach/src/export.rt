//! What of a module can be called.

ghost use Rattle.std.specs.Prelude.{◌≡◌};
ghost use Rattle.wmodule.specs.Syntax.{module_of};
ghost use Rattle.wmach.specs.Call.{called_function};

use wtype::Checked;

/// A function of a module that is called by name, or its start function.
#[derive(Clone, Copy)]
pub enum Export {
    Filter,
    Score,
    Start,
}

/// The function that is called, by its index, if it is there.
pub fn function_of(checked: &Checked, export: Export) -> Option<u32>
    ensures { result ≡ called_function (module_of checked.now.content) export }
{
    match export {
        Export::Filter => checked.filter(),
        Export::Score => checked.score(),
        Export::Start => checked.module().tables().start,
    }
}
