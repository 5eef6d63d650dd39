ghost use Rattle.std.specs.Prelude.{◌≡◌, ◌≢◌, ℕ, ◌≤◌, slice_index, decimal, IfSome, IfNone};
ghost use Rattle.copymgr.specs.declared.order.Order.{Order};
ghost use Rattle.copymgr.specs.Orders.{AreRounds, IsOrder, words_of};

use cm_base::Word;
use std::str;

/// What the words of the command line ask for.
#[derive(Debug, Drop, Clone, Copy, PartialEq, Eq)]
pub enum Order {
    /// `replay`: the trace from the input is played.
    Replay,
    /// `check`: the trace from the input is played, and its replies are compared with those behind it.
    Check,
    /// `copy`: the blocks of the job from the input are copied, by the replies behind it.
    Copy,
    /// `gen N`: the generated trace of so many rounds is played, 1 to 4096.
    Generate(u32),
}

/// Rounds that may be asked for.
const MOST_ROUNDS: u32 = 4096;

/// How many rounds a word asks for that begins with a digit other than 0.
fn spelled_rounds(word: &[u8]) -> Option<u32>
    requires low { 49 ≤ slice_index word.now 0 }
    requires high { slice_index word.now 0 ≤ 57 }
    ensures spelled { IfSome result (λ n. AreRounds n × (word.now ≡ decimal n)) }
    ensures other { IfNone result ((n : ℕ) → AreRounds n → word.now ≢ decimal n) }
{
    let Ok(text) = str::from_utf8(word) else {
        return None;
    };
    let Ok(rounds) = text.parse() else {
        return None;
    };
    if rounds == 0 || rounds > MOST_ROUNDS {
        return None;
    }
    Some(rounds)
}

/// How many rounds a word asks for: decimal digits, without a sign or a leading zero.
fn rounds(word: &[u8]) -> Option<u32>
    ensures spelled { IfSome result (λ n. AreRounds n × (word.now ≡ decimal n)) }
    ensures other { IfNone result ((n : ℕ) → AreRounds n → word.now ≢ decimal n) }
{
    if word.is_empty() || word[0] < b'1' || word[0] > b'9' {
        return None;
    }
    spelled_rounds(word)
}

/// What the words ask for, where the program knows them.
pub fn order_of(words: &[Word]) -> Option<Order>
    ensures known { IfSome result (λ order. IsOrder order × (words.now ≡ words_of order)) }
    ensures unknown { IfNone result ((order : Order) → IsOrder order → words.now ≢ words_of order) }
{
    match words {
        [word] if word.as_slice() == b"replay".as_slice() => Some(Order::Replay),
        [word] if word.as_slice() == b"check".as_slice() => Some(Order::Check),
        [word] if word.as_slice() == b"copy".as_slice() => Some(Order::Copy),
        [word, number] if word.as_slice() == b"gen".as_slice() => {
            Some(Order::Generate(rounds(number.as_slice())?))
        }
        _ => None,
    }
}
