ghost use Rattle.std.specs.Prelude.{◌≡◌, length};
ghost use Rattle.sheet.specs.Stored.{stored};

// How many bytes the number takes: one for each seven of its bits up to the highest one bit, from one to three.
pub(crate) fn stored_length(n: u32) -> usize
    ensures { result ≡ length (stored n) }
{
    let bits = 32 - n.leading_zeros();
    ((bits + 6) / 7).clamp(1, 3) as usize
}
