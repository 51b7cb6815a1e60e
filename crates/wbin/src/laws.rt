//! What holds of the grammar of modules. A law's function does nothing: its contract is the law.

ghost use Rattle.std.specs.Prelude.{◌≡◌, ℕ, List, Some};
ghost use Rattle.std.specs.List.{slice_get};
ghost use Rattle.wmodule.specs.declared.module.FunctionCode.{FunctionCode};
ghost use Rattle.wmodule.specs.declared.module.Tables.{Tables};
ghost use Rattle.wmodule.specs.Syntax.{ModuleSyntax, function_with, code_in, syntax_in};
ghost use Rattle.wmodule.specs.Grammar.{Spells};

/// Bytes spell one module at most.
pub fn one_module()
    ensures { (bytes : List ℕ) (m n : ModuleSyntax) → Spells bytes m → Spells bytes n → m ≡ n }
{}

/// The function at an index is that of the signature and the code there.
pub fn function_at_index()
    ensures { (bytes : List ℕ) (t : Tables) (i signature : ℕ) (code : FunctionCode) →
        slice_get t.signatures.items i ≡ Some signature → slice_get t.codes.items i ≡ Some code →
        slice_get (syntax_in bytes t).functions i ≡ Some (function_with signature (code_in bytes code)) }
{}
