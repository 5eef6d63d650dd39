ghost use Rattle.std.specs.Prelude.{◌≡◌, ℕ, List, [], map, All, true};
ghost use Rattle.cm_base.specs.Configuration.{Configuration};
ghost use Rattle.cm_base.specs.Fields.{AreBytes};
ghost use Rattle.cm_base.specs.declared.parsed.Parsed.TheVariants.{Whole};
ghost use Rattle.cm_frame.specs.Reading.{read_header};
ghost use Rattle.cmd_program.specs.Judging.{step};
ghost use Rattle.trace_replay.specs.ReplayState.{Shortage};
ghost use Rattle.trace_replay.specs.Played.{played, replies_that, is_busy_reply};
ghost use Rattle.trace_replay.specs.Replayed.{IsHistory};
ghost use Rattle.trace_replay.specs.Shortages.{may_lack};
ghost use Rattle.trace_replay.specs.Belonging.{RefusalsAreShown};
ghost use Rattle.trace_replay.specs.Ended.{ended, reply_to, IsKeptTo};

use cm_frame::one_spelling_law;

/// A trace that is played where memory is never refused has no reply BUSY.
pub fn quiet_law()
    ensures { (bytes : List ℕ) → replies_that is_busy_reply (played step bytes []).state ≡ 0 }
{}

/// What is played of any bytes, wherever memory is refused, is one legal history.
pub fn played_is_legal_law()
    ensures { (bytes : List ℕ) (shortages : List Shortage) → AreBytes bytes → IsHistory bytes (played step bytes shortages) }
{
    one_spelling_law();
}

/// The replies of a played trace are those of the commands that it ended, and each WRITE USING TOKEN without IMMED
/// among them ends as promised: once started it ends GOOD, unless the quota stopped a piece, memory was wanted, or its
/// Delete found no room.
pub fn played_writes_law()
    ensures replies { (bytes : List ℕ) (shortages : List Shortage) → map reply_to (ended step bytes shortages) ≡ (played step bytes shortages).state.replies }
    ensures writes { (bytes : List ℕ) (shortages : List Shortage) (config : Configuration) (used : ℕ)
        → AreBytes bytes → read_header bytes ≡ Whole config used → All (IsKeptTo config) (ended step bytes shortages) }
{
    one_spelling_law();
}

/// Wherever memory was refused, it was to a command that is answered BUSY or waits at the end of the trace.
pub fn shown_law()
    ensures { (bytes : List ℕ) (shortages : List Shortage) → may_lack step bytes shortages ≡ true → RefusalsAreShown step bytes shortages }
{}
