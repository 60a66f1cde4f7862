use crate::Key;

// The examples of FIPS 197, appendices B and C.1, and two of SP 800-38A, section F.1.1.
#[test]
fn enciphers_and_deciphers_the_published_examples(rt: HostRuntime) {
    let counted = 0x0001_0203_0405_0607_0809_0a0b_0c0d_0e0f_u128;
    let published = 0x2b7e_1516_28ae_d2a6_abf7_1588_09cf_4f3c_u128;
    let examples = [
        (
            counted,
            0x0011_2233_4455_6677_8899_aabb_ccdd_eeff_u128,
            0x69c4_e0d8_6a7b_0430_d8cd_b780_70b4_c55a_u128,
        ),
        (
            published,
            0x3243_f6a8_885a_308d_3131_98a2_e037_0734,
            0x3925_841d_02dc_09fb_dc11_8597_196a_0b32,
        ),
        (
            published,
            0x6bc1_bee2_2e40_9f96_e93d_7e11_7393_172a,
            0x3ad7_7bb4_0d7a_3660_a89e_caf3_2466_ef97,
        ),
        (
            published,
            0xae2d_8a57_1e03_ac9c_9eb7_6fac_45af_8e51,
            0xf5d3_d585_03b9_699d_e785_895a_96fd_baaf,
        ),
    ];
    for (key, plain, enciphered) in examples {
        let key = Key::new(key.to_be_bytes());
        let to = key.encrypt(plain.to_be_bytes());
        assert_eq!(rt; u128::from_be_bytes(to), enciphered);
        let back = key.decrypt(enciphered.to_be_bytes());
        assert_eq!(rt; u128::from_be_bytes(back), plain);
    }
}
