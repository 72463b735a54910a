#![tactic(auto)]

ghost use Rattle.std.specs.Prelude.{◌≡◌, ◌+◌, ◌<◌, ◌≤◌, length};
ghost use Rattle.keys.specs.Hash.{hash};
ghost use Rattle.keys.specs.Same.{same, Laws, ByBytes};
ghost use Rattle.keys.specs.Print.{print, short, long, blend, w8};

// The hash of a key, as sdbm has it, with bytes from 0 to 255.
pub fn hash_of(key: &[u8]) -> u32
    ensures { result ≡ hash key.now }
{
    let mut h: u32 = 0;
    for b in key {
        h = u32::from(*b).wrapping_add(h.wrapping_mul(65599));
    }
    h
}

// Whether two keys are the same. Most names of one length differ in their last eight bytes, so those go first: with `a == b`
// alone a search of a page took 15 % longer (304 ns for 264).
pub fn same_key(a: &[u8], b: &[u8]) -> bool
    ensures { result ≡ same a.now b.now }
{
    let n = a.len();
    n == b.len() && (n < 8 || word8(a, n - 8) == word8(b, n - 8)) && a == b
}

// A number below 1,024 that is equal for keys that are the same, and seldom equal for others.
pub fn fingerprint(key: &[u8]) -> usize
    ensures value { result ≡ print key.now }
    ensures small { result < 1024 }
{
    let h = if key.len() < 8 { short(key) } else { long(key) };
    (h.wrapping_mul(SPREAD) >> 54) as usize
}

// What the code above these functions rests on: the laws of sameness, and that it is equality of bytes.
// There is nothing to run: the contract is the point.
pub fn key_laws()
    ensures laws { Laws }
    ensures bytes { ByBytes }
{}

// An odd number near 2^64 divided by the golden ratio: a multiplication by it spreads the bits upwards.
const SPREAD: u64 = 11400714819323198485;

// The eight bytes from i on as a little-endian number.
fn word8(s: &[u8], i: usize) -> u64
    requires { i + 8 ≤ length s.now }
    ensures { result ≡ w8 s.now i }
{
    u64::from_le_bytes(s[i..i + 8].try_into().unwrap())
}

// One more word into the running number.
fn blend(h: u64, w: u64) -> u64
    ensures { result ≡ blend h w }
{
    h.wrapping_mul(SPREAD).wrapping_add(w)
}

// The bytes of a short key, one after another.
fn short(key: &[u8]) -> u64
    ensures { result ≡ short key.now }
{
    let mut h = key.len() as u64;
    for b in key {
        h = blend(h, u64::from(*b));
    }
    h
}

// The words of a key of eight bytes or more; the last one may overlap the one before.
fn long(key: &[u8]) -> u64
    requires { 8 ≤ length key.now }
    ensures { result ≡ long key.now }
{
    let n = key.len();
    let (words, _) = key[..n - 1].as_chunks::<8>();
    let mut h = n as u64;
    for word in words {
        h = blend(h, u64::from_le_bytes(*word));
    }
    blend(h, word8(key, n - 8))
}
