ghost use Rattle.std.specs.Prelude.{◌≡◌, ◌↔◌, ℕ};
ghost use Rattle.copymgr.specs.declared.status.Status.{Status};
ghost use Rattle.copymgr.specs.Orders.{replay_words, check_words, copy_words, gen_words, AreRounds, AreUnknown};
ghost use Rattle.copymgr.specs.Ran.{HasReplayed, HasChecked, HasCopied};
ghost use Rattle.copymgr.specs.Generating.{HasGenerated};

use crate::generating::tell_rounds;
use crate::order::{Order, order_of};
use crate::status::Status;
use cm_base::{Sink, Source, Word};
use cm_frame::Memory;
use odx_host::copy_over;
use std::alloc::Global;
use trace_check::check;
use trace_replay::replay_with;

/// Does what the words say. `replay` plays a trace from the input and writes its reply records to the output.
/// `check` compares the replies to a trace, which stand behind it in the input, with those that it has, and writes `yes`
/// and a line feed where they are the same. `copy` reads a job from the input and copies its blocks: it writes its
/// requests to the output, and their replies stand behind the job in the input. `gen N` plays the generated trace of N
/// rounds, 1 to 4096, and writes what it did in eight lines; it reads nothing. Other words are Usage, and nothing is read or written. It waits where the input or the output
/// does, and nowhere else.
pub fn top<I: Source, O: Sink>(
    alloc: Global,
    words: &[Word],
    input: &mut I,
    output: &mut O,
) -> Status
    ensures usage { (result ≡ Status.Usage) ↔ AreUnknown words.now }
    ensures untouched { AreUnknown words.now → (input.new ≡ input.old) × (output.new ≡ output.old) }
    ensures replayed { words.now ≡ replay_words
        → HasReplayed (I.left input.old) (I.left input.new) (O.taken output.old) (O.taken output.new)
        (I.read_faults input.old) (I.read_faults input.new)
        (O.write_faults output.old) (O.write_faults output.new) result }
    ensures checked { words.now ≡ check_words
        → HasChecked (I.left input.old) (I.left input.new) (O.taken output.old) (O.taken output.new)
        (I.read_faults input.old) (I.read_faults input.new)
        (O.write_faults output.old) (O.write_faults output.new) result }
    ensures copied { words.now ≡ copy_words
        → HasCopied (I.left input.old) (I.left input.new) (O.taken output.old) (O.taken output.new)
        (I.read_faults input.old) (I.read_faults input.new)
        (O.write_faults output.old) (O.write_faults output.new) result }
    ensures generated { (rounds : ℕ) → AreRounds rounds → words.now ≡ gen_words rounds
        → (input.new ≡ input.old)
        × HasGenerated rounds (O.taken output.old) (O.taken output.new)
        (O.write_faults output.old) (O.write_faults output.new) result }
{
    let mut memory = alloc;
    top_with(alloc, &mut memory, words, input, output)
}

/// Does what [`top`] does, with long data-outs in `memory`.
pub fn top_with<M: Memory, I: Source, O: Sink>(
    alloc: Global,
    memory: &mut M,
    words: &[Word],
    input: &mut I,
    output: &mut O,
) -> Status
    ensures usage { (result ≡ Status.Usage) ↔ AreUnknown words.now }
    ensures untouched { AreUnknown words.now → (input.new ≡ input.old) × (output.new ≡ output.old) }
    ensures replayed { words.now ≡ replay_words
        → HasReplayed (I.left input.old) (I.left input.new) (O.taken output.old) (O.taken output.new)
        (I.read_faults input.old) (I.read_faults input.new)
        (O.write_faults output.old) (O.write_faults output.new) result }
    ensures checked { words.now ≡ check_words
        → HasChecked (I.left input.old) (I.left input.new) (O.taken output.old) (O.taken output.new)
        (I.read_faults input.old) (I.read_faults input.new)
        (O.write_faults output.old) (O.write_faults output.new) result }
    ensures copied { words.now ≡ copy_words
        → HasCopied (I.left input.old) (I.left input.new) (O.taken output.old) (O.taken output.new)
        (I.read_faults input.old) (I.read_faults input.new)
        (O.write_faults output.old) (O.write_faults output.new) result }
    ensures generated { (rounds : ℕ) → AreRounds rounds → words.now ≡ gen_words rounds
        → (input.new ≡ input.old)
        × HasGenerated rounds (O.taken output.old) (O.taken output.new)
        (O.write_faults output.old) (O.write_faults output.new) result }
{
    match order_of(words) {
        None => Status::Usage,
        Some(Order::Replay) => Status::from(replay_with(alloc, memory, input, output)),
        Some(Order::Check) => Status::from(check(alloc, input, output)),
        Some(Order::Copy) => Status::from(copy_over(alloc, input, output)),
        Some(Order::Generate(rounds)) => tell_rounds(alloc, memory, rounds, output),
    }
}
