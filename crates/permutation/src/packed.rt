ghost use Rattle.std.specs.Prelude.{◌≡◌, true};
ghost use Rattle.symmetric.specs.Packing.{packs};

// A permutation packed in a plain number: the image of i is the i-th base-8 digit, the lowest first.
// A number that packs none stands for the identity.
// It derives no equality: two numbers may stand for one permutation.
#[derive(Clone, Copy, Debug)]
pub struct PackedNumber(pub u32);

// A number that packs a permutation. Each permutation has one such number, so equal numbers are equal permutations.
#[derive(Clone, Copy, PartialEq, Eq, Debug)]
pub struct PackedPermutation {
    pub(crate) packed: u32,
    ghost ok: { packs packed ≡ true },
}
