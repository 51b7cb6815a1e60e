//! What instructions can read and write besides locals.

ghost use Rattle.std.specs.Prelude.{◌≡◌, true, length};
ghost use Rattle.wplain.specs.inside.Seen.{written};
ghost use Rattle.wplain.specs.Stores.{store_of};

use crate::execution::Write;
use wcode::Value;
use wmem::{Memory, PAGE_SIZE};

/// The bytes of the memory, of which a module without one has none, the globals and the table.
#[derive(Drop)]
pub struct Store {
    pub memory: Memory,
    pub globals: Vec<Value>,
    pub table: Vec<Option<u32>>,
}

/// How many bytes the memory has.
pub fn byte_size(memory: &Memory) -> usize
    ensures { result ≡ length memory.now.bytes }
{
    memory.size() as usize * PAGE_SIZE
}

/// Writes it, or tells that it can't be written.
pub fn apply(store: &mut Store, write: Write<'_>) -> bool
    ensures { result ≡ true → store_of store.new ≡ written (store_of store.old) write.entry }
{
    match write {
        Write::Nothing => true,
        Write::Global(x, v) => {
            if x < store.globals.len() {
                store.globals[x] = v;
                true
            } else {
                false
            }
        }
        Write::Number(base, offset, width, number) => {
            store.memory.store(base, offset, width, number).is_ok()
        }
        Write::Bytes(at, bytes) => store.memory.copy_in(at, bytes).is_ok(),
        Write::Pages(delta) => store.memory.grow(delta).is_some(),
    }
}
