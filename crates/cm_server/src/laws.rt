ghost use Rattle.std.specs.Prelude.{◌<◌, List, []};
ghost use Rattle.cm_history.specs.declared.act.Entry.{Entry};
ghost use Rattle.cm_server.specs.Lawful.{AreLawful, WritesAreLawful};
ghost use Rattle.merged_history.specs.Merged.{RiseByActor, RiseBehind};

use cm_base::Config;
use cm_history::{History, count_law, token_law, write_law};
use cmd_program::conversation_law;

/// The laws on tokens, counts and writes hold of whatever entries there are, in any order: so of the one history of
/// [`serve`](crate::serve), of [`serve_with`](crate::serve_with), and of [`serve_stored`](crate::serve_stored), which goes
/// on from journals.
pub fn served_laws(config: &Config, history: &History, start: usize, until: usize)
    requires { start < until }
    ensures { AreLawful config.now history.now.entries start until }
{
    token_law(config, history, start);
    count_law(config, history, start, until);
    write_law(config, history, start);
}

/// Each WRITE USING TOKEN without IMMED of a conversation that was served ends as promised. It asks that the stamps of each
/// actor rise, as they do in the histories of [`serve`](crate::serve) and [`serve_with`](crate::serve_with), and in that of
/// [`serve_stored`](crate::serve_stored) behind the first entries, where a nexus of these is numbered behind theirs.
pub fn served_writes_law(config: &Config, history: &History)
    ensures served { RiseByActor history.now.entries → WritesAreLawful config.now [] history.now.entries }
    ensures stored { (first : List Entry) → RiseBehind first history.now.entries → WritesAreLawful config.now first history.now.entries }
{
    conversation_law(config, history);
}
