ghost use Rattle.std.specs.Prelude.{◌≡◌, map, option_map};
ghost use Rattle.dj_pool.specs.trusted.Pool.{constant_at, takes_two};
ghost use Rattle.dj_pool.specs.Views.{constant_of};

use crate::pool::Entry;

/// The entry of an index; they count from 1.
pub(crate) fn entry_at<'a>(entries: &[Entry<'a>], index: u16) -> Option<Entry<'a>>
    ensures { option_map constant_of result ≡ constant_at (map constant_of entries.now) index }
{
    if index == 0 {
        return None;
    }
    let at = (index - 1) as usize;
    if at < entries.len() {
        Some(entries[at])
    } else {
        None
    }
}

/// Whether the entry takes two indexes.
pub(crate) fn is_wide(entry: &Entry<'_>) -> bool
    ensures { result ≡ takes_two (constant_of entry.now) }
{
    matches!(entry, Entry::Long(_) | Entry::Double(_))
}
