ghost use Rattle.pr_keys.specs.Sound.{SoundLaw};

/// Whatever is done, at most 64 nexuses are registered, each once and by a key other than 0, and who
/// holds the reservation is one of them.
pub fn sound_law()
    ensures { SoundLaw }
{}
