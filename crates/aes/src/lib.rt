// AES-128 (FIPS 197): the key schedule and the cipher of one block. The state and the eleven round keys are arrays of
// arrays by value. The rounds go by a table of whole columns, the final round and the key schedule by the substitution table.
#![tactic(auto)]

ghost use Rattle.std.specs.Prelude.{◌≡◌};
ghost use Rattle.aes.specs.State.{state_of, bytes_of};
ghost use Rattle.aes.specs.Field.{xtime, xor_word};
ghost use Rattle.aes.specs.Sbox.{sbox, sbox_table};
ghost use Rattle.aes.specs.Columns.{column_of, Columns};
ghost use Rattle.aes.specs.Cipher.{sub_word, sub_bytes, shift_rows, mix_column, mix_columns, add_round_key, round_of, final_round, cipher};
ghost use Rattle.aes.specs.KeyExpansion.{next_key, key_expansion};
ghost use Rattle.aes.specs.Held.{by_columns, columns_of, held_schedule, schedule_of};

// A round key, by its columns: what a struct can hold of a key schedule.
#[derive(Clone, Copy)]
pub struct RoundKey {
    pub a: [u8; 4],
    pub b: [u8; 4],
    pub c: [u8; 4],
    pub d: [u8; 4],
}

// The key schedule of a key.
pub fn expand_key(key: [u8; 16]) -> [[[u8; 4]; 4]; 11]
    ensures { result ≡ key_expansion key }
{
    let mut k = state_of(key);
    let mut w = [k; 11];
    let mut rc = 1;
    for next in w[1..].iter_mut() {
        let n = next_key(k, rc);
        rc = times_x(rc);
        k = n;
        *next = n;
    }
    w
}

// The key schedule of a key, to be held in a struct.
pub fn round_keys(key: [u8; 16]) -> [RoundKey; 11]
    ensures { schedule_of result ≡ key_expansion key }
{
    held_schedule(expand_key(key))
}

// The key schedule that is held.
pub fn schedule(k: [RoundKey; 11]) -> [[[u8; 4]; 4]; 11]
    ensures { result ≡ schedule_of k }
{
    k.map(
        |r: RoundKey| -> [[u8; 4]; 4]
            ensures { result ≡ columns_of r }
        { r.into() },
    )
}

// The cipher of one block, under a key schedule.
pub fn encrypt_block(w: [[[u8; 4]; 4]; 11], block: [[u8; 4]; 4]) -> [[u8; 4]; 4]
    ensures { result ≡ cipher w block }
{
    let mut s = add_round_key(block, w[0]);
    // Each result is named first: a call that is laid straight into an array variable gets no proof yet.
    for k in &w[1..10] {
        let n = round(s, *k);
        s = n;
    }
    final_round(s, w[10])
}

// Sixteen bytes as a state.
pub fn state_of(b: [u8; 16]) -> [[u8; 4]; 4]
    ensures { result ≡ state_of b }
{
    [
        [b[0], b[1], b[2], b[3]],
        [b[4], b[5], b[6], b[7]],
        [b[8], b[9], b[10], b[11]],
        [b[12], b[13], b[14], b[15]],
    ]
}

// The sixteen bytes of a state.
pub fn bytes_of(s: [[u8; 4]; 4]) -> [u8; 16]
    ensures { result ≡ bytes_of s }
{
    [
        s[0][0], s[0][1], s[0][2], s[0][3], s[1][0], s[1][1], s[1][2], s[1][3], s[2][0], s[2][1],
        s[2][2], s[2][3], s[3][0], s[3][1], s[3][2], s[3][3],
    ]
}

fn held_schedule(w: [[[u8; 4]; 4]; 11]) -> [RoundKey; 11]
    ensures { result ≡ held_schedule w }
{
    w.map(
        |s: [[u8; 4]; 4]| -> RoundKey
            ensures { result ≡ by_columns s }
        { s.into() },
    )
}

impl From<[[u8; 4]; 4]> for RoundKey {
    ghost from_gives = { λ s k. k ≡ by_columns s };

    fn from(s: [[u8; 4]; 4]) -> RoundKey {
        let [a, b, c, d] = s;
        RoundKey { a, b, c, d }
    }
}

impl From<RoundKey> for [[u8; 4]; 4] {
    ghost from_gives = { λ k s. s ≡ columns_of k };

    fn from(k: RoundKey) -> [[u8; 4]; 4] {
        let RoundKey { a, b, c, d } = k;
        [a, b, c, d]
    }
}

// Substitution byte by byte and the moving of bytes may change places, so each column is substituted where it is mixed.
fn round(s: [[u8; 4]; 4], k: [[u8; 4]; 4]) -> [[u8; 4]; 4]
    ensures { result ≡ round_of s k }
{
    add_round_key(mix_substitutes(shift_rows(s)), k)
}

fn final_round(s: [[u8; 4]; 4], k: [[u8; 4]; 4]) -> [[u8; 4]; 4]
    ensures { result ≡ final_round s k }
{
    add_round_key(shift_rows(sub_bytes(s)), k)
}

fn sub_bytes(s: [[u8; 4]; 4]) -> [[u8; 4]; 4]
    ensures { result ≡ sub_bytes s }
{
    s.map(sub_word)
}

fn shift_rows(s: [[u8; 4]; 4]) -> [[u8; 4]; 4]
    ensures { result ≡ shift_rows s }
{
    [
        [s[0][0], s[1][1], s[2][2], s[3][3]],
        [s[1][0], s[2][1], s[3][2], s[0][3]],
        [s[2][0], s[3][1], s[0][2], s[1][3]],
        [s[3][0], s[0][1], s[1][2], s[2][3]],
    ]
}

fn mix_substitutes(s: [[u8; 4]; 4]) -> [[u8; 4]; 4]
    ensures { result ≡ mix_columns (sub_bytes s) }
{
    s.map(mix_column)
}

// A column, substituted and mixed: the sum of what its bytes give, each turned to the byte's own row.
fn mix_column(a: [u8; 4]) -> [u8; 4]
    ensures { result ≡ mix_column (sub_word a) }
{
    let p = column(a[0]);
    let q = column(a[1]);
    let r = column(a[2]);
    let s = column(a[3]);
    let x = xor_word(p, [q[3], q[0], q[1], q[2]]);
    let y = xor_word([r[2], r[3], r[0], r[1]], [s[1], s[2], s[3], s[0]]);
    xor_word(x, y)
}

// The column that a byte's substitute gives alone, from the first row.
fn column(b: u8) -> [u8; 4]
    ensures { result ≡ column_of (sbox b) }
{
    columns()[b as usize].to_le_bytes()
}

fn times_x(a: u8) -> u8
    ensures { result ≡ xtime a }
{
    if a < 128 { a * 2 } else { (a - 128) * 2 ^ 0x1b }
}

fn add_round_key(s: [[u8; 4]; 4], k: [[u8; 4]; 4]) -> [[u8; 4]; 4]
    ensures { result ≡ add_round_key s k }
{
    [
        xor_word(s[0], k[0]),
        xor_word(s[1], k[1]),
        xor_word(s[2], k[2]),
        xor_word(s[3], k[3]),
    ]
}

fn xor_word(a: [u8; 4], b: [u8; 4]) -> [u8; 4]
    ensures { result ≡ xor_word a b }
{
    [a[0] ^ b[0], a[1] ^ b[1], a[2] ^ b[2], a[3] ^ b[3]]
}

fn sub_byte(b: u8) -> u8
    ensures { result ≡ sbox b }
{
    substitutes()[b as usize]
}

fn sub_word(a: [u8; 4]) -> [u8; 4]
    ensures { result ≡ sub_word a }
{
    a.map(sub_byte)
}

// The round key after k.
fn next_key(k: [[u8; 4]; 4], rc: u8) -> [[u8; 4]; 4]
    ensures { result ≡ next_key k rc }
{
    let last = k[3];
    let n = sub_word([last[1], last[2], last[3], last[0]]);
    let a = xor_word(k[0], xor_word(n, [rc, 0, 0, 0]));
    let b = xor_word(k[1], a);
    let c = xor_word(k[2], b);
    let d = xor_word(last, c);
    [a, b, c, d]
}

fn substitutes() -> &'static [u8; 256]
    ensures { result.now ≡ sbox_table }
{
    &SBOX
}

fn columns() -> &'static [u32; 256]
    ensures { Columns result.now }
{
    &COLUMNS
}

// The substitution table, in the rows of sixteen in which FIPS 197 prints it.
static SBOX: [u8; 256] = *b"\x63\x7c\x77\x7b\xf2\x6b\x6f\xc5\x30\x01\x67\x2b\xfe\xd7\xab\x76\
    \xca\x82\xc9\x7d\xfa\x59\x47\xf0\xad\xd4\xa2\xaf\x9c\xa4\x72\xc0\
    \xb7\xfd\x93\x26\x36\x3f\xf7\xcc\x34\xa5\xe5\xf1\x71\xd8\x31\x15\
    \x04\xc7\x23\xc3\x18\x96\x05\x9a\x07\x12\x80\xe2\xeb\x27\xb2\x75\
    \x09\x83\x2c\x1a\x1b\x6e\x5a\xa0\x52\x3b\xd6\xb3\x29\xe3\x2f\x84\
    \x53\xd1\x00\xed\x20\xfc\xb1\x5b\x6a\xcb\xbe\x39\x4a\x4c\x58\xcf\
    \xd0\xef\xaa\xfb\x43\x4d\x33\x85\x45\xf9\x02\x7f\x50\x3c\x9f\xa8\
    \x51\xa3\x40\x8f\x92\x9d\x38\xf5\xbc\xb6\xda\x21\x10\xff\xf3\xd2\
    \xcd\x0c\x13\xec\x5f\x97\x44\x17\xc4\xa7\x7e\x3d\x64\x5d\x19\x73\
    \x60\x81\x4f\xdc\x22\x2a\x90\x88\x46\xee\xb8\x14\xde\x5e\x0b\xdb\
    \xe0\x32\x3a\x0a\x49\x06\x24\x5c\xc2\xd3\xac\x62\x91\x95\xe4\x79\
    \xe7\xc8\x37\x6d\x8d\xd5\x4e\xa9\x6c\x56\xf4\xea\x65\x7a\xae\x08\
    \xba\x78\x25\x2e\x1c\xa6\xb4\xc6\xe8\xdd\x74\x1f\x4b\xbd\x8b\x8a\
    \x70\x3e\xb5\x66\x48\x03\xf6\x0e\x61\x35\x57\xb9\x86\xc1\x1d\x9e\
    \xe1\xf8\x98\x11\x69\xd9\x8e\x94\x9b\x1e\x87\xe9\xce\x55\x28\xdf\
    \x8c\xa1\x89\x0d\xbf\xe6\x42\x68\x41\x99\x2d\x0f\xb0\x54\xbb\x16";

// The column of each substitute: from the lowest byte on its products by 2, 1, 1 and 3.
static COLUMNS: [u32; 256] = [
    0xa563_63c6,
    0x847c_7cf8,
    0x9977_77ee,
    0x8d7b_7bf6,
    0x0df2_f2ff,
    0xbd6b_6bd6,
    0xb16f_6fde,
    0x54c5_c591,
    0x5030_3060,
    0x0301_0102,
    0xa967_67ce,
    0x7d2b_2b56,
    0x19fe_fee7,
    0x62d7_d7b5,
    0xe6ab_ab4d,
    0x9a76_76ec,
    0x45ca_ca8f,
    0x9d82_821f,
    0x40c9_c989,
    0x877d_7dfa,
    0x15fa_faef,
    0xeb59_59b2,
    0xc947_478e,
    0x0bf0_f0fb,
    0xecad_ad41,
    0x67d4_d4b3,
    0xfda2_a25f,
    0xeaaf_af45,
    0xbf9c_9c23,
    0xf7a4_a453,
    0x9672_72e4,
    0x5bc0_c09b,
    0xc2b7_b775,
    0x1cfd_fde1,
    0xae93_933d,
    0x6a26_264c,
    0x5a36_366c,
    0x413f_3f7e,
    0x02f7_f7f5,
    0x4fcc_cc83,
    0x5c34_3468,
    0xf4a5_a551,
    0x34e5_e5d1,
    0x08f1_f1f9,
    0x9371_71e2,
    0x73d8_d8ab,
    0x5331_3162,
    0x3f15_152a,
    0x0c04_0408,
    0x52c7_c795,
    0x6523_2346,
    0x5ec3_c39d,
    0x2818_1830,
    0xa196_9637,
    0x0f05_050a,
    0xb59a_9a2f,
    0x0907_070e,
    0x3612_1224,
    0x9b80_801b,
    0x3de2_e2df,
    0x26eb_ebcd,
    0x6927_274e,
    0xcdb2_b27f,
    0x9f75_75ea,
    0x1b09_0912,
    0x9e83_831d,
    0x742c_2c58,
    0x2e1a_1a34,
    0x2d1b_1b36,
    0xb26e_6edc,
    0xee5a_5ab4,
    0xfba0_a05b,
    0xf652_52a4,
    0x4d3b_3b76,
    0x61d6_d6b7,
    0xceb3_b37d,
    0x7b29_2952,
    0x3ee3_e3dd,
    0x712f_2f5e,
    0x9784_8413,
    0xf553_53a6,
    0x68d1_d1b9,
    0x0000_0000,
    0x2ced_edc1,
    0x6020_2040,
    0x1ffc_fce3,
    0xc8b1_b179,
    0xed5b_5bb6,
    0xbe6a_6ad4,
    0x46cb_cb8d,
    0xd9be_be67,
    0x4b39_3972,
    0xde4a_4a94,
    0xd44c_4c98,
    0xe858_58b0,
    0x4acf_cf85,
    0x6bd0_d0bb,
    0x2aef_efc5,
    0xe5aa_aa4f,
    0x16fb_fbed,
    0xc543_4386,
    0xd74d_4d9a,
    0x5533_3366,
    0x9485_8511,
    0xcf45_458a,
    0x10f9_f9e9,
    0x0602_0204,
    0x817f_7ffe,
    0xf050_50a0,
    0x443c_3c78,
    0xba9f_9f25,
    0xe3a8_a84b,
    0xf351_51a2,
    0xfea3_a35d,
    0xc040_4080,
    0x8a8f_8f05,
    0xad92_923f,
    0xbc9d_9d21,
    0x4838_3870,
    0x04f5_f5f1,
    0xdfbc_bc63,
    0xc1b6_b677,
    0x75da_daaf,
    0x6321_2142,
    0x3010_1020,
    0x1aff_ffe5,
    0x0ef3_f3fd,
    0x6dd2_d2bf,
    0x4ccd_cd81,
    0x140c_0c18,
    0x3513_1326,
    0x2fec_ecc3,
    0xe15f_5fbe,
    0xa297_9735,
    0xcc44_4488,
    0x3917_172e,
    0x57c4_c493,
    0xf2a7_a755,
    0x827e_7efc,
    0x473d_3d7a,
    0xac64_64c8,
    0xe75d_5dba,
    0x2b19_1932,
    0x9573_73e6,
    0xa060_60c0,
    0x9881_8119,
    0xd14f_4f9e,
    0x7fdc_dca3,
    0x6622_2244,
    0x7e2a_2a54,
    0xab90_903b,
    0x8388_880b,
    0xca46_468c,
    0x29ee_eec7,
    0xd3b8_b86b,
    0x3c14_1428,
    0x79de_dea7,
    0xe25e_5ebc,
    0x1d0b_0b16,
    0x76db_dbad,
    0x3be0_e0db,
    0x5632_3264,
    0x4e3a_3a74,
    0x1e0a_0a14,
    0xdb49_4992,
    0x0a06_060c,
    0x6c24_2448,
    0xe45c_5cb8,
    0x5dc2_c29f,
    0x6ed3_d3bd,
    0xefac_ac43,
    0xa662_62c4,
    0xa891_9139,
    0xa495_9531,
    0x37e4_e4d3,
    0x8b79_79f2,
    0x32e7_e7d5,
    0x43c8_c88b,
    0x5937_376e,
    0xb76d_6dda,
    0x8c8d_8d01,
    0x64d5_d5b1,
    0xd24e_4e9c,
    0xe0a9_a949,
    0xb46c_6cd8,
    0xfa56_56ac,
    0x07f4_f4f3,
    0x25ea_eacf,
    0xaf65_65ca,
    0x8e7a_7af4,
    0xe9ae_ae47,
    0x1808_0810,
    0xd5ba_ba6f,
    0x8878_78f0,
    0x6f25_254a,
    0x722e_2e5c,
    0x241c_1c38,
    0xf1a6_a657,
    0xc7b4_b473,
    0x51c6_c697,
    0x23e8_e8cb,
    0x7cdd_dda1,
    0x9c74_74e8,
    0x211f_1f3e,
    0xdd4b_4b96,
    0xdcbd_bd61,
    0x868b_8b0d,
    0x858a_8a0f,
    0x9070_70e0,
    0x423e_3e7c,
    0xc4b5_b571,
    0xaa66_66cc,
    0xd848_4890,
    0x0503_0306,
    0x01f6_f6f7,
    0x120e_0e1c,
    0xa361_61c2,
    0x5f35_356a,
    0xf957_57ae,
    0xd0b9_b969,
    0x9186_8617,
    0x58c1_c199,
    0x271d_1d3a,
    0xb99e_9e27,
    0x38e1_e1d9,
    0x13f8_f8eb,
    0xb398_982b,
    0x3311_1122,
    0xbb69_69d2,
    0x70d9_d9a9,
    0x898e_8e07,
    0xa794_9433,
    0xb69b_9b2d,
    0x221e_1e3c,
    0x9287_8715,
    0x20e9_e9c9,
    0x49ce_ce87,
    0xff55_55aa,
    0x7828_2850,
    0x7adf_dfa5,
    0x8f8c_8c03,
    0xf8a1_a159,
    0x8089_8909,
    0x170d_0d1a,
    0xdabf_bf65,
    0x31e6_e6d7,
    0xc642_4284,
    0xb868_68d0,
    0xc341_4182,
    0xb099_9929,
    0x772d_2d5a,
    0x110f_0f1e,
    0xcbb0_b07b,
    0xfc54_54a8,
    0xd6bb_bb6d,
    0x3a16_162c,
];
