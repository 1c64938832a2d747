// Fixed memory: the areas and outputs that the calls of a job are lent, compared whole, so that a byte behind the image counts. Images and files
// stand at the front of an area too.

// More bytes than any image or file of a trial has.
pub(crate) const AREA: usize = 1152;

pub(crate) type Area = [u8; AREA];

// Copies items to the front of a slice, as far as it goes; answers how many these are.
pub(crate) fn copy_to_front<T: Copy>(to: &mut [T], items: &[T]) -> usize {
    let n = items.len().min(to.len());
    to[..n].copy_from_slice(&items[..n]);
    n
}
