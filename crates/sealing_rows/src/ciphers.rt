use crate::gcm_cases::CASES;
use aes_block::Aes256;
use gcm_seal::{open_in_place, seal_in_place};
use hex::FromHex;
use std::test::Fail;

#[test]
fn encrypts_the_standards_block(rt: HostRuntime) -> Result<(), Fail> {
    let key = <[u8; 32]>::from_hex(
        "000102030405060708090a0b0c0d0e0f101112131415161718191a1b1c1d1e1f",
    )?;
    let block = <[u8; 16]>::from_hex("00112233445566778899aabbccddeeff")?;
    let wanted = <[u8; 16]>::from_hex("8ea2b7ca516745bfeafc49904b496089")?;
    let got = Aes256::new(&key).encrypt_block(&block);
    assert_eq!(rt; got.as_slice(), wanted.as_slice());
    Ok(())
}

#[test]
fn seals_and_opens_the_cases(rt: HostRuntime) -> Result<(), Fail> {
    for case in &CASES {
        let key = Aes256::new(&<[u8; 32]>::from_hex(case.key)?);
        let iv = <[u8; 12]>::from_hex(case.iv)?;
        let tag = <[u8; 16]>::from_hex(case.tag)?;
        let aad = hex::decode(rt.alloc(), case.aad)?;
        let text = hex::decode(rt.alloc(), case.text)?;
        let sealed = hex::decode(rt.alloc(), case.sealed)?;
        let mut bytes = text.clone()?;
        assert!(rt; aad.len() <= 64 && bytes.len() <= 64);
        let got = seal_in_place(&key, &iv, &aad, &mut bytes);
        assert_eq!(rt; bytes.as_slice(), sealed.as_slice());
        assert_eq!(rt; got.as_slice(), tag.as_slice());
        assert!(rt; open_in_place(&key, &iv, &aad, &mut bytes, &tag));
        assert_eq!(rt; bytes.as_slice(), text.as_slice());
    }
    Ok(())
}

#[test]
fn opens_no_text_whose_tag_differs_in_a_bit(rt: HostRuntime) -> Result<(), Fail> {
    let case = &CASES[3];
    let key = Aes256::new(&<[u8; 32]>::from_hex(case.key)?);
    let iv = <[u8; 12]>::from_hex(case.iv)?;
    let aad = hex::decode(rt.alloc(), case.aad)?;
    let sealed = hex::decode(rt.alloc(), case.sealed)?;
    for bit in 0..128 {
        let mut tag = <[u8; 16]>::from_hex(case.tag)?;
        tag[bit / 8] ^= 1 << (bit % 8);
        let mut bytes = sealed.clone()?;
        assert!(rt; aad.len() <= 64 && bytes.len() <= 64);
        assert!(rt;
            !open_in_place(&key, &iv, &aad, &mut bytes, &tag),
            "bit {bit}"
        );
        assert_eq!(rt; bytes.as_slice(), sealed.as_slice());
    }
    Ok(())
}
