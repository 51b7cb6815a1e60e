//! A module's segments: where they begin, and what they write.

ghost use Rattle.std.specs.Prelude.{◌≡◌, ◌+◌, ◌<◌, ◌≤◌, ◌↔◌, Some, length, slice_get, IsTrue};
ghost use Rattle.wmodule.specs.Syntax.{ElementSyntax, DataSyntax, module_of};
ghost use Rattle.wstore.specs.Segments.{offset_of};

use crate::constants::offset_at;
use wmodule::Module;

/// The offset of an element segment, and its functions.
pub fn elements_of(decoded: &Module, segment: usize) -> (u32, &[u32])
    requires { segment < length (module_of decoded.now).element_segments }
    ensures at { (s : ElementSyntax) → slice_get (module_of decoded.now).element_segments segment ≡ Some s →
        result.0 ≡ offset_of s.offset }
    ensures functions { (s : ElementSyntax) → slice_get (module_of decoded.now).element_segments segment ≡ Some s →
        result.1.now ≡ s.functions }
{
    let elements = &decoded.tables().element_segments[segment];
    (
        offset_at(decoded, elements.offset),
        elements.functions.as_slice(),
    )
}

/// The offset of a data segment, and its bytes.
pub fn data_of(decoded: &Module, segment: usize) -> (u32, &[u8])
    requires { segment < length (module_of decoded.now).data_segments }
    ensures at { (s : DataSyntax) → slice_get (module_of decoded.now).data_segments segment ≡ Some s →
        result.0 ≡ offset_of s.offset }
    ensures bytes { (s : DataSyntax) → slice_get (module_of decoded.now).data_segments segment ≡ Some s →
        result.1.now ≡ s.bytes }
{
    let data = decoded.tables().data_segments[segment];
    let bytes = &decoded.bytes()[data.contents.begin..data.contents.end];
    (offset_at(decoded, data.offset), bytes)
}

/// Whether as many from there on are within this size.
pub fn is_within(at: u32, count: usize, size: usize) -> bool
    ensures { IsTrue result ↔ (at + count ≤ size) }
{
    let at = at as usize;
    at <= size && count <= size - at
}
