// One block of SHA-384: FIPS 180-4, 6.4.2.
#![tactic(auto)]

ghost use Rattle.std.specs.Prelude.{◌≡◌, ℕ, ◌+◌, ◌≤◌, ◌<◌, List, length, take};
ghost use Rattle.octets.specs.Bytes.{part};
ghost use Rattle.sha_block.specs.Loop.{turns};
ghost use Rattle.sha_block.specs.Constants.{K};
ghost use Rattle.sha_block.specs.Block.{mixed, longer, schedule, T1, T2, turned, round, summed, compress};

use octets::get_u64;
use sha_word::{big_sigma0, big_sigma1, ch, maj, small_sigma0, small_sigma1};

// The bytes of a block.
pub const BLOCK: usize = 128;

// 4.2.3: the constants.
static TABLE: [u64; 80] = [
    0x428a_2f98_d728_ae22,
    0x7137_4491_23ef_65cd,
    0xb5c0_fbcf_ec4d_3b2f,
    0xe9b5_dba5_8189_dbbc,
    0x3956_c25b_f348_b538,
    0x59f1_11f1_b605_d019,
    0x923f_82a4_af19_4f9b,
    0xab1c_5ed5_da6d_8118,
    0xd807_aa98_a303_0242,
    0x1283_5b01_4570_6fbe,
    0x2431_85be_4ee4_b28c,
    0x550c_7dc3_d5ff_b4e2,
    0x72be_5d74_f27b_896f,
    0x80de_b1fe_3b16_96b1,
    0x9bdc_06a7_25c7_1235,
    0xc19b_f174_cf69_2694,
    0xe49b_69c1_9ef1_4ad2,
    0xefbe_4786_384f_25e3,
    0x0fc1_9dc6_8b8c_d5b5,
    0x240c_a1cc_77ac_9c65,
    0x2de9_2c6f_592b_0275,
    0x4a74_84aa_6ea6_e483,
    0x5cb0_a9dc_bd41_fbd4,
    0x76f9_88da_8311_53b5,
    0x983e_5152_ee66_dfab,
    0xa831_c66d_2db4_3210,
    0xb003_27c8_98fb_213f,
    0xbf59_7fc7_beef_0ee4,
    0xc6e0_0bf3_3da8_8fc2,
    0xd5a7_9147_930a_a725,
    0x06ca_6351_e003_826f,
    0x1429_2967_0a0e_6e70,
    0x27b7_0a85_46d2_2ffc,
    0x2e1b_2138_5c26_c926,
    0x4d2c_6dfc_5ac4_2aed,
    0x5338_0d13_9d95_b3df,
    0x650a_7354_8baf_63de,
    0x766a_0abb_3c77_b2a8,
    0x81c2_c92e_47ed_aee6,
    0x9272_2c85_1482_353b,
    0xa2bf_e8a1_4cf1_0364,
    0xa81a_664b_bc42_3001,
    0xc24b_8b70_d0f8_9791,
    0xc76c_51a3_0654_be30,
    0xd192_e819_d6ef_5218,
    0xd699_0624_5565_a910,
    0xf40e_3585_5771_202a,
    0x106a_a070_32bb_d1b8,
    0x19a4_c116_b8d2_d0c8,
    0x1e37_6c08_5141_ab53,
    0x2748_774c_df8e_eb99,
    0x34b0_bcb5_e19b_48a8,
    0x391c_0cb3_c5c9_5a63,
    0x4ed8_aa4a_e341_8acb,
    0x5b9c_ca4f_7763_e373,
    0x682e_6ff3_d6b2_b8a3,
    0x748f_82ee_5def_b2fc,
    0x78a5_636f_4317_2f60,
    0x84c8_7814_a1f0_ab72,
    0x8cc7_0208_1a64_39ec,
    0x90be_fffa_2363_1e28,
    0xa450_6ceb_de82_bde9,
    0xbef9_a3f7_b2c6_7915,
    0xc671_78f2_e372_532b,
    0xca27_3ece_ea26_619c,
    0xd186_b8c7_21c0_c207,
    0xeada_7dd6_cde0_eb1e,
    0xf57d_4f7f_ee6e_d178,
    0x06f0_67aa_7217_6fba,
    0x0a63_7dc5_a2c8_98a6,
    0x113f_9804_bef9_0dae,
    0x1b71_0b35_131c_471b,
    0x28db_77f5_2304_7d84,
    0x32ca_ab7b_40c7_2493,
    0x3c9e_be0a_15c9_bebc,
    0x431d_67c4_9c10_0d4c,
    0x4cc5_d4be_cb3e_42b6,
    0x597f_299c_fc65_7e2a,
    0x5fcb_6fab_3ad6_faec,
    0x6c44_198c_4a47_5817,
];

// Step 1: the word t, from the words t - 2, t - 7, t - 15 and t - 16.
#[tactic(auto, unfolding(crate::specs::Block::mixed))]
fn mix(x: u64, y: u64, z: u64, v: u64) -> u64
    ensures { result ≡ mixed x y z v }
{
    small_sigma1(x)
        .wrapping_add(y)
        .wrapping_add(small_sigma0(z))
        .wrapping_add(v)
}

// Step 1 for t = 0 to 15: the words of the block at `at`, with room for the others. (All eighty are kept, as the standard has them: sixteen in a
// ring would take an index modulo 16 at each use.)
fn load(m: &[u8], at: usize) -> [u64; 80]
    requires { at + 128 ≤ length m.now }
    ensures { schedule (part m.now at 128) ≡ turns (longer (part m.now at 128)) 64 16 (take 16 result) }
{
    let mut w = [0; 80];
    for t in 0..16 {
        w[t] = get_u64(m, at + 8 * t);
    }
    w
}

// Step 1 for t = 16 to 79: the others.
fn extend(v: [u64; 80]) -> [u64; 80]
    ensures { (b : List ℕ) → result ≡ turns (longer b) 64 16 (take 16 v) }
{
    let mut w = v;
    for t in 16..80 {
        w[t] = mix(w[t - 2], w[t - 7], w[t - 15], w[t - 16]);
    }
    w
}

// Step 3: T1.
#[tactic(auto, unfolding(crate::specs::Block::T1))]
fn t1_of(e: u64, f: u64, g: u64, h: u64, k: u64, w: u64) -> u64
    ensures { result ≡ T1 e f g h k w }
{
    h.wrapping_add(big_sigma1(e))
        .wrapping_add(ch(e, f, g))
        .wrapping_add(k)
        .wrapping_add(w)
}

// Step 3: T2.
#[tactic(auto, unfolding(crate::specs::Block::T2))]
fn t2_of(a: u64, b: u64, c: u64) -> u64
    ensures { result ≡ T2 a b c }
{
    big_sigma0(a).wrapping_add(maj(a, b, c))
}

// Step 3: one round, with the constant k and the word w.
#[tactic(auto, unfolding(crate::specs::Block::turned))]
fn turn(s: [u64; 8], k: u64, w: u64) -> [u64; 8]
    ensures { result ≡ turned s k w }
{
    let [a, b, c, d, e, f, g, h] = s;
    let t1 = t1_of(e, f, g, h, k, w);
    let t2 = t2_of(a, b, c);
    [t1.wrapping_add(t2), a, b, c, d.wrapping_add(t1), e, f, g]
}

// Step 3: round t.
#[tactic(auto, unfolding(crate::specs::Block::round, crate::specs::Constants::K))]
fn one(w: &[u64; 80], s: [u64; 8], t: usize) -> [u64; 8]
    requires { t < 80 }
    ensures { result ≡ round w.now s t }
{
    turn(s, TABLE[t], w[t])
}

// Step 3: four rounds, from t on. (Four in each pass of the loop: with one, each pass moves the eight words from variable to variable.)
#[tactic(auto, using(crate::proofs::Steps::four_rounds))]
fn four(w: &[u64; 80], s: [u64; 8], t: usize) -> [u64; 8]
    requires { t + 4 ≤ 80 }
    ensures { result ≡ turns (round w.now) 4 t s }
{
    let a = one(w, s, t);
    let b = one(w, a, t + 1);
    let c = one(w, b, t + 2);
    one(w, c, t + 3)
}

// Step 3: the eighty rounds. (Not `s = four(..)`: the borrow check does not cover a call's result that is assigned to a variable that holds an
// array.)
#[tactic(auto, using(crate::proofs::Loop::turns_none))]
fn rounds(w: &[u64; 80], h: [u64; 8]) -> [u64; 8]
    ensures { result ≡ turns (round w.now) 80 0 h }
{
    let mut s = h;
    for i in 0..20 {
        let next = four(w, s, 4 * i);
        s = next;
    }
    s
}

// Step 4: eight sums, written out as in the standard. (A loop over them would take an invariant.)
#[tactic(auto, unfolding(crate::specs::Block::summed))]
fn add_to(s: [u64; 8], h: [u64; 8]) -> [u64; 8]
    ensures { result ≡ summed s h }
{
    [
        s[0].wrapping_add(h[0]),
        s[1].wrapping_add(h[1]),
        s[2].wrapping_add(h[2]),
        s[3].wrapping_add(h[3]),
        s[4].wrapping_add(h[4]),
        s[5].wrapping_add(h[5]),
        s[6].wrapping_add(h[6]),
        s[7].wrapping_add(h[7]),
    ]
}

// The hash value after the block of m at `at`, from the hash value h before it.
pub fn block(h: [u64; 8], m: &[u8], at: usize) -> [u64; 8]
    requires { at + 128 ≤ length m.now }
    ensures { result ≡ compress h (part m.now at 128) }
{
    let w = extend(load(m, at));
    add_to(rounds(&w, h), h)
}
