//! Compression of a block of each lane (FIPS 180-4 section 6.2.2).

ghost use Rattle.std.specs.Prelude.{◌≡◌, ℕ, List, ◌+◌, ◌<◌, ◌≤◌, slice_index};
ghost use Rattle.sha2.specs.Sha256.{add_state, compress, first_words, next_word, round, rounds, schedule};
ghost use Rattle.sha256_lanes.specs.Lanes.{lane};
ghost use Rattle.sha256_lanes.specs.Rounds.{IsScheduled};

use crate::words::{
    Words, add, big_sigma0, big_sigma1, ch, maj, small_sigma0, small_sigma1, splat,
};
use std::simd::prelude::*;

/// The hash value of each lane: eight words.
pub(crate) type State = [[u32; 8]; 8];

/// The words of a block of each lane.
pub(crate) type Block = [[u32; 8]; 16];

/// The words of the schedule.
pub(crate) type Schedule = [[u32; 8]; 64];

/// K (FIPS 180-4 section 4.2.2).
pub(crate) const ROUND_CONSTANTS: [u32; 64] = [
    0x428a_2f98,
    0x7137_4491,
    0xb5c0_fbcf,
    0xe9b5_dba5,
    0x3956_c25b,
    0x59f1_11f1,
    0x923f_82a4,
    0xab1c_5ed5,
    0xd807_aa98,
    0x1283_5b01,
    0x2431_85be,
    0x550c_7dc3,
    0x72be_5d74,
    0x80de_b1fe,
    0x9bdc_06a7,
    0xc19b_f174,
    0xe49b_69c1,
    0xefbe_4786,
    0x0fc1_9dc6,
    0x240c_a1cc,
    0x2de9_2c6f,
    0x4a74_84aa,
    0x5cb0_a9dc,
    0x76f9_88da,
    0x983e_5152,
    0xa831_c66d,
    0xb003_27c8,
    0xbf59_7fc7,
    0xc6e0_0bf3,
    0xd5a7_9147,
    0x06ca_6351,
    0x1429_2967,
    0x27b7_0a85,
    0x2e1b_2138,
    0x4d2c_6dfc,
    0x5338_0d13,
    0x650a_7354,
    0x766a_0abb,
    0x81c2_c92e,
    0x9272_2c85,
    0xa2bf_e8a1,
    0xa81a_664b,
    0xc24b_8b70,
    0xc76c_51a3,
    0xd192_e819,
    0xd699_0624,
    0xf40e_3585,
    0x106a_a070,
    0x19a4_c116,
    0x1e37_6c08,
    0x2748_774c,
    0x34b0_bcb5,
    0x391c_0cb3,
    0x4ed8_aa4a,
    0x5b9c_ca4f,
    0x682e_6ff3,
    0x748f_82ee,
    0x78a5_636f,
    0x84c8_7814,
    0x8cc7_0208,
    0x90be_fffa,
    0xa450_6ceb,
    0xbef9_a3f7,
    0xc671_78f2,
];

/// The word of the schedule at a place from 16 on, from those before it.
#[inline(always)]
fn next_words(schedule: &Schedule, place: usize) -> Words
    requires from { 16 ≤ place }
    requires below { place < 64 }
    ensures { (i : ℕ) → i < 8 → slice_index result i ≡ next_word (lane i schedule.now) place }
{
    let near = add(small_sigma1(schedule[place - 2]), schedule[place - 7]);
    add(
        add(near, small_sigma0(schedule[place - 15])),
        schedule[place - 16],
    )
}

/// Fills in the schedule of each lane, from the words of its block.
#[inline(always)]
pub(crate) fn fill(words: &mut Schedule, block: &Block)
    ensures { (i : ℕ) (b : List ℕ) → i < 8 → lane i block.now ≡ first_words b 16 → IsScheduled i words.new b }
{
    'first: for place in 0..16 {
        words[place] = block[place];
    }
    'rest: for place in 16..64 {
        words[place] = next_words(words, place);
    }
}

/// A round.
#[inline(always)]
fn round(v: State, k: u32, word: Words) -> State
    ensures { (i : ℕ) → i < 8 → lane i result ≡ round (lane i v) k (slice_index word i) }
{
    let [a, b, c, d, e, f, g, h] = v;
    let first = add(add(add(add(h, big_sigma1(e)), ch(e, f, g)), splat(k)), word);
    let second = add(big_sigma0(a), maj(a, b, c));
    [add(first, second), a, b, c, add(d, first), e, f, g]
}

/// The round of a place, with its constant and its words.
#[inline(always)]
fn round_at(words: &Schedule, v: State, place: usize) -> State
    requires { place < 64 }
    ensures { (i : ℕ) (b h : List ℕ) → i < 8 → IsScheduled i words.now b
        → lane i v ≡ rounds h (schedule b 48) place → lane i result ≡ rounds h (schedule b 48) (place + 1) }
{
    round(v, ROUND_CONSTANTS[place], words[place])
}

/// Four rounds.
#[inline(always)]
fn four_rounds(words: &Schedule, v: State, place: usize) -> State
    requires { place + 4 ≤ 64 }
    ensures { (i : ℕ) (b h : List ℕ) → i < 8 → IsScheduled i words.now b
        → lane i v ≡ rounds h (schedule b 48) place → lane i result ≡ rounds h (schedule b 48) (place + 4) }
{
    let v = round_at(words, v, place);
    let v = round_at(words, v, place + 1);
    let v = round_at(words, v, place + 2);
    round_at(words, v, place + 3)
}

/// The hash values with what the rounds made of them added.
#[inline(always)]
fn added(h: &State, v: &State) -> State
    ensures { (i : ℕ) → i < 8 → lane i result ≡ add_state (lane i h.now) (lane i v.now) }
{
    [
        add(h[0], v[0]),
        add(h[1], v[1]),
        add(h[2], v[2]),
        add(h[3], v[3]),
        add(h[4], v[4]),
        add(h[5], v[5]),
        add(h[6], v[6]),
        add(h[7], v[7]),
    ]
}

/// Takes the next block of each lane into its hash value.
pub(crate) fn compress(state: &mut State, block: &Block)
    ensures { (i : ℕ) (b : List ℕ) → i < 8 → lane i block.now ≡ first_words b 16
        → lane i state.new ≡ compress (lane i state.old) b }
{
    let mut words = [[0u32; 8]; 64];
    fill(&mut words, block);
    // The loop is over vectors, which stay in registers.
    let [a, b, c, d, e, f, g, h] = *state;
    let mut a = u32x8::from_array(a);
    let mut b = u32x8::from_array(b);
    let mut c = u32x8::from_array(c);
    let mut d = u32x8::from_array(d);
    let mut e = u32x8::from_array(e);
    let mut f = u32x8::from_array(f);
    let mut g = u32x8::from_array(g);
    let mut h = u32x8::from_array(h);
    'rounds: for turn in 0..16 {
        let v = [
            a.to_array(),
            b.to_array(),
            c.to_array(),
            d.to_array(),
            e.to_array(),
            f.to_array(),
            g.to_array(),
            h.to_array(),
        ];
        let [a1, b1, c1, d1, e1, f1, g1, h1] = four_rounds(&words, v, 4 * turn);
        a = u32x8::from_array(a1);
        b = u32x8::from_array(b1);
        c = u32x8::from_array(c1);
        d = u32x8::from_array(d1);
        e = u32x8::from_array(e1);
        f = u32x8::from_array(f1);
        g = u32x8::from_array(g1);
        h = u32x8::from_array(h1);
    }
    let v = [
        a.to_array(),
        b.to_array(),
        c.to_array(),
        d.to_array(),
        e.to_array(),
        f.to_array(),
        g.to_array(),
        h.to_array(),
    ];
    *state = added(state, &v);
}
