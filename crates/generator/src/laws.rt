ghost use Rattle.generator.specs.WellFormed.{HeaderIsRead, ItemsFit, TwelveEach};

use cm_frame::read_back_law;

/// A generated trace is a trace: its header and its items are those that the grammar of traces has.
pub fn well_formed_law()
    ensures header { HeaderIsRead }
    ensures items { ItemsFit }
    ensures count { TwelveEach }
{
    read_back_law();
}
