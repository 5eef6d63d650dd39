ghost use Rattle.config_text.specs.Lines.{IsLine};

/// The line of a place in a text.
pub(crate) fn line_at(text: &[u8], place: usize) -> usize
    ensures { IsLine text.now result }
{
    let mut line = 1;
    for index in 0..text.len() {
        if text[index] == b'\n' && index < place {
            line += 1;
        }
    }
    line
}
