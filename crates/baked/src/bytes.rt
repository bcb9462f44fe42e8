// Bytes of a run of them.
ghost use Rattle.std.specs.Prelude.{◌≡◌, ℕ, ◌+◌, ◌<◌, slice_index};
ghost use Rattle.baked.specs.Bytes.{u8_at};

// The N bytes of a run from the place `at` on, that of a field, a height or a bound; bytes past the end count as 0.
pub(crate) fn bytes_at<const N: usize>(bytes: &[u8], at: usize) -> [u8; N]
    ensures { (i : ℕ) → i < N → slice_index result i ≡ u8_at bytes.now (at + i) }
{
    let rest = &bytes[at.min(bytes.len())..];
    if let Some(whole) = rest.first_chunk() {
        return *whole;
    }
    let mut held = [0; N];
    held[..rest.len()].copy_from_slice(rest);
    held
}
