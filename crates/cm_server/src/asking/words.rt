ghost use Rattle.std.specs.Prelude.{◌≡◌, ℕ, slice_get, Some, IfSome, IfNone, true, false, [], ◌≢◌};
ghost use Rattle.cm_server.specs.Words.{AreFolderWords, AreManageWords, AreRecordWords, AreServeWords, AreSessionWords, AreStoreWords, IsPlain};

use cm_base::Word;

/// Connections that may be asked for.
const MOST_SESSIONS: u32 = 256;

/// The word does not begin with `-`.
fn is_plain(word: &Word) -> bool
    ensures plain { result ≡ true → IsPlain word.now }
    ensures other { result ≡ false → slice_get word.now 0 ≡ Some 0x2d }
{
    !matches!(word.as_slice(), [b'-', ..])
}

/// How many connections the words ask for, where they are this verb, an address and a number.
fn sessions_of(words: &[Word], verb: &[u8]) -> Option<u32>
    ensures asked { IfSome result (λ n. AreSessionWords verb.now words.now n) }
    ensures other { IfNone result ((n : ℕ) → AreSessionWords verb.now words.now n → ⊥) }
{
    match words {
        [word, address, number] if word.as_slice() == verb && is_plain(address) => {
            number.number(MOST_SESSIONS)
        }
        _ => None,
    }
}

/// How many connections the words ask for, where they are this verb, an address, a number and a folder.
fn sessions_with_folder(words: &[Word], verb: &[u8]) -> Option<u32>
    ensures asked { IfSome result (λ n. AreFolderWords verb.now words.now n) }
    ensures other { IfNone result ((n : ℕ) → AreFolderWords verb.now words.now n → ⊥) }
{
    match words {
        [front @ .., folder] if !folder.as_slice().is_empty() && is_plain(folder) => {
            sessions_of(front, verb)
        }
        _ => None,
    }
}

/// How many connections the words ask for, where they are `serve ADDRESS SESSIONS`.
pub(crate) fn sessions_asked(words: &[Word]) -> Option<u32>
    ensures asked { IfSome result (λ n. AreServeWords words.now n) }
    ensures other { IfNone result ((n : ℕ) → AreServeWords words.now n → ⊥) }
{
    sessions_of(words, b"serve".as_slice())
}

/// How many connections the words ask for, where they are `serve ADDRESS SESSIONS FOLDER`.
pub(crate) fn sessions_to_record(words: &[Word]) -> Option<u32>
    ensures asked { IfSome result (λ n. AreRecordWords words.now n) }
    ensures other { IfNone result ((n : ℕ) → AreRecordWords words.now n → ⊥) }
{
    sessions_with_folder(words, b"serve".as_slice())
}

/// How many connections the words ask for, where they are `store ADDRESS SESSIONS FOLDER`.
pub(crate) fn sessions_to_store(words: &[Word]) -> Option<u32>
    ensures asked { IfSome result (λ n. AreStoreWords words.now n) }
    ensures other { IfNone result ((n : ℕ) → AreStoreWords words.now n → ⊥) }
{
    sessions_with_folder(words, b"store".as_slice())
}

/// The word names a file: it has a byte, and does not begin with `-`.
fn is_name(word: &Word) -> bool
    ensures named { result ≡ true → IsPlain word.now × (word.now ≢ []) }
    ensures other { result ≡ false → IsPlain word.now → word.now ≡ [] }
{
    !matches!(word.as_slice(), [] | [b'-', ..])
}

/// Whether the words are `manage ADDRESS FILE`.
pub(crate) fn ask_to_manage(words: &[Word]) -> bool
    ensures asked { result ≡ true → AreManageWords words.now }
    ensures other { result ≡ false → AreManageWords words.now → ⊥ }
{
    match words {
        [word, address, file] if word.as_slice() == b"manage".as_slice() && is_plain(address) => {
            is_name(file)
        }
        _ => false,
    }
}
