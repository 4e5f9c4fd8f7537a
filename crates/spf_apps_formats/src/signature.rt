//! Signatures of files.
ghost use Rattle.std.specs.Prelude.{MatchOption};
ghost use Rattle.spf_apps_formats.specs.Signatures.{BeginsWith, DepartsAt};

/// The first offset at which a file doesn't go on with a text; none where it begins with the whole
/// text.
pub(crate) fn departure(text: &[u8], file: &[u8]) -> Option<usize>
    ensures { MatchOption result (BeginsWith text.now file.now) (DepartsAt text.now file.now) }
{
    for (offset, byte) in text.iter().enumerate() {
        if offset >= file.len() || file[offset] != *byte {
            return Some(offset);
        }
    }
    None
}
