//! A text that grows within its room.

use rack::NoMemory;
use std::alloc::Global;
use std::marker::Model;

/// Bytes, with room for more.
#[derive(Debug, Drop)]
pub struct Text {
    bytes: Vec<u8>,
}

impl Model for Text {
    ghost use Rattle.lvm_text.specs.Written.{Written};
    ghost use Rattle.std.specs.Prelude.{◌-◌, vec_capacity, vec_len};

    ghost Value = { Written };

    ghost view = { λ text. record { bytes = text.bytes.items; spare = vec_capacity text.bytes - vec_len text.bytes } };
}

impl Text {
    ghost use Rattle.std.specs.Prelude.{◌≡◌, ◌≤◌, ◌+◌, ◌++◌, [], IfOk, length};

    /// An empty text with room for so many bytes.
    pub fn with_room(alloc: Global, bytes: usize) -> Result<Text, NoMemory>
        ensures empty { IfOk result (λ text. text.bytes ≡ []) }
        ensures room { IfOk result (λ text. bytes ≤ text.spare) }
    {
        match Vec::with_capacity(alloc, bytes) {
            Ok(bytes) => Ok(Text { bytes }),
            Err(_) => Err(NoMemory),
        }
    }

    /// Its bytes.
    pub fn as_slice(&self) -> &[u8]
        ensures { result.now ≡ self.now.bytes }
    {
        self.bytes.as_slice()
    }

    /// Takes its bytes away; their room stays.
    pub fn clear(&mut self)
        ensures empty { self.new.bytes ≡ [] }
        ensures room { self.new.spare ≡ self.old.spare + length self.old.bytes }
    {
        self.bytes.clear();
    }

    /// Appends bytes that there is room for; it takes no memory.
    pub fn append(&mut self, more: &[u8])
        requires { length more.now ≤ self.old.spare }
        ensures bytes { self.new.bytes ≡ self.old.bytes ++ more.now }
        ensures room { length self.old.bytes + self.old.spare ≤ length self.new.bytes + self.new.spare }
    {
        let _ = self.bytes.extend_from_slice(more);
    }
}
