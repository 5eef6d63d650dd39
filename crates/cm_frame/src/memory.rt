ghost use Rattle.std.specs.Prelude.{◌≡◌, ◌≤◌, [], IfOk, vec_capacity};

use cm_base::OutOfMemory;
use std::alloc::Global;

/// What gives memory for a long data-out.
pub trait Memory {
    /// An empty vector with room for so many bytes.
    fn room(&mut self, bytes: usize) -> Result<Vec<u8>, OutOfMemory>
        ensures empty { IfOk result (λ room. room.items ≡ []) }
        ensures room { IfOk result (λ room. bytes ≤ vec_capacity room) };
}

/// Memory that is taken when it is asked for.
impl Memory for Global {
    fn room(&mut self, bytes: usize) -> Result<Vec<u8>, OutOfMemory> {
        Ok(Vec::with_capacity(*self, bytes)?)
    }
}
