// What SHA-256 makes of the blocks of a message: FIPS 180-4, 6.2.2.
ghost use Rattle.std.specs.Prelude.{◌≡◌, ◌<◌, ◌≤◌, length, take};
ghost use Rattle.slices.specs.Lists.{tabulate};
ghost use Rattle.digest.specs.Message.{after_blocks};
ghost use Rattle.digest.specs.Sha256 as Spec;

use crate::words;

// 4.2.2: the constants of the rounds.
const K: [u32; 64] = [
    0x428a2f98, 0x71374491, 0xb5c0fbcf, 0xe9b5dba5, 0x3956c25b, 0x59f111f1, 0x923f82a4, 0xab1c5ed5,
    0xd807aa98, 0x12835b01, 0x243185be, 0x550c7dc3, 0x72be5d74, 0x80deb1fe, 0x9bdc06a7, 0xc19bf174,
    0xe49b69c1, 0xefbe4786, 0x0fc19dc6, 0x240ca1cc, 0x2de92c6f, 0x4a7484aa, 0x5cb0a9dc, 0x76f988da,
    0x983e5152, 0xa831c66d, 0xb00327c8, 0xbf597fc7, 0xc6e00bf3, 0xd5a79147, 0x06ca6351, 0x14292967,
    0x27b70a85, 0x2e1b2138, 0x4d2c6dfc, 0x53380d13, 0x650a7354, 0x766a0abb, 0x81c2c92e, 0x92722c85,
    0xa2bfe8a1, 0xa81a664b, 0xc24b8b70, 0xc76c51a3, 0xd192e819, 0xd6990624, 0xf40e3585, 0x106aa070,
    0x19a4c116, 0x1e376c08, 0x2748774c, 0x34b0bcb5, 0x391c0cb3, 0x4ed8aa4a, 0x5b9cca4f, 0x682e6ff3,
    0x748f82ee, 0x78a5636f, 0x84c87814, 0x8cc70208, 0x90befffa, 0xa4506ceb, 0xbef9a3f7, 0xc67178f2,
];

// 5.3.3: the initial hash value.
pub(crate) const START: [u32; 8] = [
    0x6a09e667, 0xbb67ae85, 0x3c6ef372, 0xa54ff53a, 0x510e527f, 0x9b05688c, 0x1f83d9ab, 0x5be0cd19,
];

#[derive(Clone, Copy)]
pub(crate) struct Working {
    pub a: u32,
    pub b: u32,
    pub c: u32,
    pub d: u32,
    pub e: u32,
    pub f: u32,
    pub g: u32,
    pub h: u32,
}

// Word i of a block.
fn word(block: &[u8; 64], i: usize) -> u32
    requires { i < 16 }
    ensures { result ≡ Spec.word_of block.now i }
{
    let at = 4 * i;
    u32::from_be_bytes([block[at], block[at + 1], block[at + 2], block[at + 3]])
}

// The sixteen words of a block, and room for those after them.
fn loaded(block: &[u8; 64]) -> [u32; 64]
    ensures { take 16 result ≡ tabulate (Spec.word_of block.now) 16 }
{
    let mut w = [0u32; 64];
    for i in 0..16 {
        w[i] = word(block, i);
    }
    w
}

// Word t of the message schedule, from the words before it.
fn next_word(w: &[u32; 64], t: usize) -> u32
    requires { (16 ≤ t) × (t < 64) }
    ensures { result ≡ Spec.next_word w.now t }
{
    let s1 = words::small_sigma1(w[t - 2]);
    let s0 = words::small_sigma0(w[t - 15]);
    s1.wrapping_add(w[t - 7])
        .wrapping_add(s0)
        .wrapping_add(w[t - 16])
}

// The 64 words of the message schedule, two in a turn: neither needs the other, so that they are computed side by side.
fn schedule(block: &[u8; 64]) -> [u32; 64]
    ensures { result ≡ Spec.schedule block.now }
{
    let mut w = loaded(block);
    for t in (16..64).step_by(2) {
        w[t] = next_word(&w, t);
        w[t + 1] = next_word(&w, t + 1);
    }
    w
}

// The working variables from the hash value: 6.2.2, step 2, by its name in the definitions.
fn initialized(hash: [u32; 8]) -> Working
    ensures { result ≡ Spec.initialized hash }
{
    let [a, b, c, d, e, f, g, h] = hash;
    Working {
        a,
        b,
        c,
        d,
        e,
        f,
        g,
        h,
    }
}

fn round(v: Working, k: u32, w: u32) -> Working
    ensures { result ≡ Spec.round k w v }
{
    let s1 = words::big_sigma1(v.e);
    let choice = words::ch(v.e, v.f, v.g);
    let t1 = v
        .h
        .wrapping_add(s1)
        .wrapping_add(choice)
        .wrapping_add(k)
        .wrapping_add(w);
    let s0 = words::big_sigma0(v.a);
    let majority = words::maj(v.a, v.b, v.c);
    let t2 = s0.wrapping_add(majority);
    Working {
        a: t1.wrapping_add(t2),
        b: v.a,
        c: v.b,
        d: v.c,
        e: v.d.wrapping_add(t1),
        f: v.e,
        g: v.f,
        h: v.g,
    }
}

// The 64 rounds, four in a turn: the working variables are moved once for four rounds.
fn rounds(v: Working, k: &[u32; 64], w: &[u32; 64]) -> Working
    requires { k.now ≡ Spec.constants }
    ensures { result ≡ Spec.rounds 64 w.now v }
{
    let mut u = v;
    for t in (0..64).step_by(4) {
        let first = round(u, k[t], w[t]);
        let second = round(first, k[t + 1], w[t + 1]);
        let third = round(second, k[t + 2], w[t + 2]);
        u = round(third, k[t + 3], w[t + 3]);
    }
    u
}

// The working variables added to the hash value.
fn added(v: Working, h: [u32; 8]) -> [u32; 8]
    ensures { result ≡ Spec.added v h }
{
    [
        v.a.wrapping_add(h[0]),
        v.b.wrapping_add(h[1]),
        v.c.wrapping_add(h[2]),
        v.d.wrapping_add(h[3]),
        v.e.wrapping_add(h[4]),
        v.f.wrapping_add(h[5]),
        v.g.wrapping_add(h[6]),
        v.h.wrapping_add(h[7]),
    ]
}

// The hash value after one block.
fn compressed(h: [u32; 8], k: &[u32; 64], block: &[u8; 64]) -> [u32; 8]
    requires { k.now ≡ Spec.constants }
    ensures { result ≡ Spec.compressed h block.now }
{
    let w = schedule(block);
    let v = rounds(initialized(h), k, &w);
    added(v, h)
}

// The hash value after all whole blocks. The table of constants is lent once for all of them: `&K` copies it.
pub(crate) fn after_blocks(start: [u32; 8], bytes: &[u8]) -> [u32; 8]
    ensures { result ≡ after_blocks Spec.compressed start bytes.now }
{
    let k = &K;
    let mut h = start;
    let (blocks, _) = bytes.as_chunks::<64>();
    for block in blocks {
        let next = compressed(h, k, block);
        h = next;
    }
    h
}
