ghost use Rattle.round_counts.specs.Counts.{RoundsLaw};

use cm_frame::read_back_law;
use generator::well_formed_law;

/// Where memory is never refused, a generated trace is played to its end: each round is 12 items, 5 replies GOOD of 4182
/// bytes in all, and 7 acts, and no other reply comes.
pub fn rounds_law()
    ensures { RoundsLaw }
{
    read_back_law();
    well_formed_law();
}
