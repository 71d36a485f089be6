ghost use Rattle.std.specs.Prelude.{◌≡◌, true};
ghost use Rattle.std.specs.List.{slice_get};
ghost use Rattle.symmetric.specs.Images.{permutes};
ghost use Rattle.permutation.specs.Permutations.{perm_group, perm_order, perm_packed};
ghost use Rattle.permutation.specs.Standing.{perm};

use crate::images::{composed, inverted, pack, packs_one, unpack};
use crate::packed::{PackedNumber, PackedPermutation};
use std::cmp::Ordering;

impl PackedPermutation {
    // Every point stays.
    pub fn identity() -> PackedPermutation
        ensures { perm result ≡ perm_group.one }
    {
        PackedPermutation { packed: 0o76543210 }
    }

    // The permutation with these images.
    pub(crate) fn with_images(images: &[u8; 8]) -> PackedPermutation
        requires { permutes images.now ≡ true }
        ensures { (perm result).0 ≡ images.now }
    {
        PackedPermutation {
            packed: pack(images),
        }
    }

    // The images of 0 to 7.
    pub fn images(self) -> [u8; 8]
        ensures { (result ≡ (perm self).0) × (permutes result ≡ true) }
    {
        unpack(self.packed)
    }

    // The image of a point; none past 7.
    pub fn image(self, point: usize) -> Option<u8>
        ensures { result ≡ slice_get (perm self).0 point }
    {
        // asked first, so that the images are unpacked only for a point
        if point >= 8 {
            return None;
        }
        self.images().get(point).copied()
    }

    // `self` first, and then `other`.
    pub fn then(self, other: PackedPermutation) -> PackedPermutation
        ensures { perm result ≡ perm_group.mul (perm self) (perm other) }
    {
        PackedPermutation::with_images(&composed(&self.images(), &other.images()))
    }

    // What undoes `self`.
    pub fn inverse(self) -> PackedPermutation
        ensures { perm result ≡ perm_group.inv (perm self) }
    {
        PackedPermutation::with_images(&inverted(&self.images()))
    }

    // By the images, from the left. No Ord: the derived order of the packed numbers is another one.
    #[tactic(auto, using(symmetric::proofs::Compared::rows_compare))]
    pub fn compare(self, other: PackedPermutation) -> Ordering
        ensures { result ≡ perm_order.cmp (perm self) (perm other) }
    {
        self.images().cmp(&other.images())
    }
}

// The permutation that the number stands for: the identity where it packs none.
impl From<PackedNumber> for PackedPermutation {
    ghost from_gives = { λ n p. perm p ≡ perm_packed n.0 };

    fn from(number: PackedNumber) -> PackedPermutation {
        if packs_one(number.0) {
            return PackedPermutation { packed: number.0 };
        }
        PackedPermutation::identity()
    }
}

// The plain number, for slices.
impl From<PackedPermutation> for PackedNumber {
    ghost from_gives = { λ p n. (perm_packed n.0 ≡ perm p) × (n.0 ≡ p.packed) };

    fn from(permutation: PackedPermutation) -> PackedNumber {
        PackedNumber(permutation.packed)
    }
}
