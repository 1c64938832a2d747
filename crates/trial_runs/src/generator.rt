// Numbers that look random: the k-th number of a seed, the same on every run.
pub(crate) fn draw(seed: u32, k: u32) -> u32 {
    let a = scaled(scaled(seed).wrapping_add(k));
    let b = scaled(a ^ (a >> 15));
    b ^ (b >> 16)
}

fn scaled(x: u32) -> u32 {
    x.wrapping_mul(73244475).wrapping_add(12345)
}
