// Numbers by first appearance: what they are is mathematics, in specs/Order and proofs/. The code is an index over up to 16,384 keys
// that finds a key's number.
#![tactic(auto)]

ghost use Rattle.std.specs.Prelude.{◌≡◌, [], ◌∷◌, ◌+◌, ◌<◌, ◌≤◌, set};
ghost use Rattle.appearance.specs.Index.{slot, Index, Finds, Gains};

fn slot_of(key: u64) -> usize
    ensures { (result ≡ slot key) × (result < 16384) }
{
    ((key / 256 + key / 2199023255552 * 613) % 16384) as usize
}

// An index to look keys up in: its tables, and how many keys it holds.
#[derive(Clone, Copy)]
pub struct Lookup<'a> {
    pub keys: &'a [u64; 16384],
    pub links: &'a [usize; 32768],
    pub n: usize,
    ghost index: { Index keys.now links.now n },
}

impl<'a> Lookup<'a> {
    // Which of the keys this one is.
    pub fn find(&self, key: u64) -> Option<usize>
        ensures { Finds self.now.keys.now self.now.n key result }
    {
        // Links count from 1, and 0 ends a slot's: tables that are all 0 are an empty index.
        let h = slot_of(key);
        let mut p = self.links[h];
        while 0 < p {
            let i = p - 1;
            if self.keys[i] == key {
                return Some(i);
            }
            p = self.links[16384 + i];
        }
        None
    }
}

// One key more, which gets the number `n`.
pub fn enter(keys: &mut [u64; 16384], links: &mut [usize; 32768], n: usize, key: u64)
    requires { (Index keys.old links.old n) × (n < 16384) }
    ensures { (keys.new ≡ set keys.old n key) × (Index keys.new links.new (n + 1)) }
{
    let h = slot_of(key);
    let before = links[h];
    keys[n] = key;
    links[16384 + n] = before;
    links[h] = n + 1;
}

// The number of keys with this one, while there is room.
pub fn add(keys: &mut [u64; 16384], links: &mut [usize; 32768], n: usize, key: u64) -> usize
    requires { Index keys.old links.old n }
    ensures gains { Gains keys.old links.old n keys.new links.new result (key ∷ []) }
    ensures index { (Index keys.new links.new result) × (n ≤ result) × (result ≤ n + 1) }
{
    if n == 16384 {
        return n;
    }
    let index = Lookup {
        keys: &*keys,
        links: &*links,
        n,
    };
    if index.find(key).is_some() {
        return n;
    }
    enter(keys, links, n, key);
    n + 1
}
