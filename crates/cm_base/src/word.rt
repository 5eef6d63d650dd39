ghost use Rattle.std.specs.Prelude.{◌≡◌, ◌≢◌, ◌≤◌, ℕ, slice_index, decimal, IfOk, IfSome, IfNone};
ghost use Rattle.cm_base.specs.Numbers.{IsUpTo};

use crate::out_of_memory::OutOfMemory;
use crate::sequence::Bytes;
use std::alloc::Global;
use std::marker::Model;
use std::str;

/// One word of a command line. Contracts see its bytes.
#[derive(Drop)]
pub struct Word {
    bytes: Bytes,
}

impl Model for Word {
    ghost use Rattle.std.specs.Prelude.{List, ℕ};

    ghost Value = { List ℕ };

    ghost view = { λ w. w.bytes };
}

/// The number, 1 to `most`, that is spelled by bytes which begin with a digit other than 0.
fn number_of(bytes: &[u8], most: u32) -> Option<u32>
    requires low { 49 ≤ slice_index bytes.now 0 }
    requires high { slice_index bytes.now 0 ≤ 57 }
    ensures spelled { IfSome result (λ n. IsUpTo most n × (bytes.now ≡ decimal n)) }
    ensures other { IfNone result ((n : ℕ) → IsUpTo most n → bytes.now ≢ decimal n) }
{
    let Ok(text) = str::from_utf8(bytes) else {
        return None;
    };
    let Ok(number) = text.parse() else {
        return None;
    };
    if number == 0 || number > most {
        return None;
    }
    Some(number)
}

impl Word {
    /// The word of this text.
    pub fn from_text(alloc: Global, text: &str) -> Result<Word, OutOfMemory>
        ensures { IfOk result (λ word. word ≡ text.now) }
    {
        Ok(Word {
            bytes: Bytes::copy(alloc, text.as_bytes())?,
        })
    }

    /// Its bytes.
    pub fn as_slice(&self) -> &[u8]
        ensures { result.now ≡ self.now }
    {
        self.bytes.as_slice()
    }

    /// The number, 1 to `most`, that the word spells: decimal digits, without a sign or a leading zero. It takes no
    /// memory.
    pub fn number(&self, most: u32) -> Option<u32>
        ensures spelled { IfSome result (λ n. IsUpTo most n × (self.now ≡ decimal n)) }
        ensures other { IfNone result ((n : ℕ) → IsUpTo most n → self.now ≢ decimal n) }
    {
        let bytes = self.bytes.as_slice();
        if bytes.is_empty() || bytes[0] < b'1' || bytes[0] > b'9' {
            return None;
        }
        number_of(bytes, most)
    }
}
