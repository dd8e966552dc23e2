//! Keys in random order.

/// The n-th key: n mixed by the finalizer of the generator `splitmix64`, most significant byte first.
/// The mixing is one to one, so that no key comes twice.
pub fn key_of(n: u64) -> [u8; 8] {
    let mut mixed = n.wrapping_mul(0x9e37_79b9_7f4a_7c15);
    mixed = (mixed ^ (mixed >> 30)).wrapping_mul(0xbf58_476d_1ce4_e5b9);
    mixed = (mixed ^ (mixed >> 27)).wrapping_mul(0x94d0_49bb_1331_11eb);
    (mixed ^ (mixed >> 31)).to_be_bytes()
}
