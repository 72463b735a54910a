ghost use Rattle.std.specs.Prelude.{◌≡◌, ◌+◌, ◌<◌, length, not, MatchOption, ◌&&◌};
ghost use Rattle.keys.specs.Same.{same};
ghost use Rattle.page_edits.specs.Edit.{falls, with_pair};
ghost use Rattle.pages.specs.Blank.{bytes_of};
ghost use Rattle.pages.specs.Page.{pairs_of};
ghost use Rattle.splits.specs.Plan.{has_room, plan};

use directory::{Leaf, low_bits};
use keys::{hash_of, same_key};
use pages::{PAGE, PairPage};

// A store makes no more splits.
const MAX_SPLITS: u32 = 10;

// A page at this depth is not split.
const MAX_DEPTH: u32 = 15;

// The least number of splits of the key's leaf, each of the half that the key falls in, after which the pair fits on its page
// beside those that stay there; none where no number does. The page is the leaf's, as it is before the splits.
pub fn plan(page: &PairPage, leaf: &Leaf, key: &[u8], value: &[u8]) -> Option<u32>
    ensures { result ≡ plan (pairs_of (bytes_of page.now.good)) key.now value.now leaf.now.depth }
{
    // Nearly always: then there is room beside those of them that stay, and which these are need not be known.
    if fits_beside_all(page, key, value) {
        return Some(0);
    }
    let hash = hash_of(key);
    let beside = room_beside(PAGE - 2, key, value)?;
    let most = MAX_SPLITS.min(MAX_DEPTH.saturating_sub(leaf.depth));
    let mut s = 0;
    'splits: loop {
        if s > most {
            break None;
        }
        let depth = leaf.depth + s;
        let low = low_bits(hash, depth);
        let mut room = beside;
        for k in 0..page.count() {
            let Some((other, old)) = page.parts(k) else {
                continue;
            };
            if !stays(other, key, depth, low) {
                continue;
            }
            let Some(left) = room_beside(room, other, old) else {
                s += 1;
                continue 'splits;
            };
            room = left;
        }
        break Some(s);
    }
}

// Whether there is room for the pair beside all pairs of the page.
fn fits_beside_all(page: &PairPage, key: &[u8], value: &[u8]) -> bool
    ensures { result ≡ has_room (with_pair (pairs_of (bytes_of page.now.good)) key.now value.now) }
{
    let count = page.count();
    room_beside(page.key_end(count) - (4 * count + 2), key, value).is_some()
}

// Whether the pair of another key stays on the key's page, which has these low bits at this depth. The key's own old pair
// does not: it is replaced.
fn stays(other: &[u8], key: &[u8], depth: u32, low: u32) -> bool
    ensures { result ≡ (falls depth low other.now && not (same other.now key.now)) }
{
    low_bits(hash_of(other), depth) == low && !same_key(other, key)
}

// The room that is left of this much, beside a pair: it takes its two offsets and its bytes.
fn room_beside(room: usize, key: &[u8], value: &[u8]) -> Option<usize>
    ensures { MatchOption result (room < 4 + (length key.now + length value.now)) (λ left. left + (4 + (length key.now + length value.now)) ≡ room) }
{
    room.checked_sub(4)?
        .checked_sub(key.len())?
        .checked_sub(value.len())
}
