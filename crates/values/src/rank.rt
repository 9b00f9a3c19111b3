// The ranks of the nodes by their keys, in one text for every kind of key.
ghost use Rattle.std.specs.Prelude.{◌≡◌, ◌≤◌, length, MatchBool, OnOk, OnErr};
ghost use Rattle.std.specs.List.{list_any};
ghost use Rattle.values.specs.Ranks.{Distinct, Ranking, Twice, one_each, rank_of, rank_table};

use crate::key::KeyOrder;
use base::refusal::Refusal;

// A network has at most 32 nodes, and each has a key.
const MOST_KEYS: usize = 32;

// Fills the table with the rank of each node, and 0 past the nodes.
pub fn rank_keys<K: KeyOrder>(keys: &[K], ranks: &mut [u8; 32]) -> Result<(), Refusal>
    ensures value { result ≡ one_each (length keys.now) }
    ensures ok { OnOk result (ranks.new ≡ rank_table K.precedes keys.now) }
    ensures err { OnErr result (ranks.new ≡ ranks.old) }
    ensures laws { OnOk result (Ranking K.precedes keys.now ranks.new) }
{
    if keys.is_empty() || keys.len() > MOST_KEYS {
        return Err(Refusal::NotOneEach);
    }
    *ranks = [0; 32];
    // By index: after a loop over `ranks.iter_mut().zip(keys)` no clause says what the places hold.
    for (i, key) in keys.iter().enumerate() {
        ranks[i] = count_before(keys, key);
    }
    Ok(())
}

// How many of the keys are before this one. A loop with a count: by `filter` and `count` a making takes longer, and a
// ring wave runs at 0.87 of the speed of plain Rust, not at 1.21.
fn count_before<K: KeyOrder>(keys: &[K], key: &K) -> u8
    requires { length keys.now ≤ 32 }
    ensures value { result ≡ rank_of K.precedes keys.now key.now }
{
    let mut count = 0;
    for other in keys {
        if other.before(key) {
            count += 1;
        }
    }
    count
}

// Whether two of the keys are equal. Each is compared with those before it, so that keys that are equal early are found
// early, however many follow.
pub fn any_equal<K: KeyOrder>(keys: &[K]) -> bool
    ensures value { MatchBool result (Twice keys.now) (Distinct keys.now) }
{
    for (place, key) in keys.iter().enumerate() {
        if contains_equal(&keys[..place], key) {
            return true;
        }
    }
    false
}

// Whether one of the keys is equal to this one. A loop: by `any` keys that all differ take half as long again.
fn contains_equal<K: KeyOrder>(keys: &[K], key: &K) -> bool
    ensures value { result ≡ list_any (λ other. K.matches other key.now) keys.now }
{
    for other in keys {
        if other.equals(key) {
            return true;
        }
    }
    false
}
