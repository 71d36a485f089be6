ghost use Rattle.std.specs.Prelude.{◌≡◌, ◌^◌, ◌<◌, true};
ghost use Rattle.symmetric.specs.Images.{once, points, each_once, permutes, followed, undone};
ghost use Rattle.symmetric.specs.Packing.{digits, packs};

// What eight base-8 digits stay below.
const LIMIT: u32 = 1 << 24;

// Whether `k` stands among the images exactly once.
// A sum and no `filter(..).count()`: that compiles to a branch for each image, and took several times as long.
fn stands_once(images: &[u8], k: u8) -> bool
    ensures { result ≡ once k images.now }
{
    images.iter().map(|x| usize::from(*x == k)).sum::<usize>() == 1
}

// Whether each point stands among the images exactly once.
pub(crate) fn all_once(images: &[u8]) -> bool
    ensures { result ≡ each_once images.now }
{
    (0..8).all(|k| stands_once(images, k))
}

// The eight base-8 digits, the lowest first. Images are an array of eight bytes throughout: nothing here allocates.
pub(crate) fn unpack(n: u32) -> [u8; 8]
    ensures { result ≡ digits n }
{
    let mut images = [0; 8];
    let mut rest = n;
    for image in &mut images {
        *image = (rest % 8) as u8;
        rest /= 8;
    }
    images
}

// Whether the number packs a permutation.
pub(crate) fn packs_one(n: u32) -> bool
    ensures { result ≡ packs n }
{
    n < LIMIT && all_once(&unpack(n))
}

// The number with these eight base-8 digits.
pub(crate) fn pack(images: &[u8; 8]) -> u32
    requires { points images.now ≡ true }
    ensures { (result < 2 ^ 24) × (digits result ≡ images.now) }
{
    images
        .iter()
        .rev()
        .fold(0, |n, image| n << 3 | u32::from(*image))
}

// The images of `first` followed by `second`.
// A loop, for that each image is a point does not reach a closure, as `first.map(|point| second[point as usize])` needs.
pub(crate) fn composed(first: &[u8; 8], second: &[u8; 8]) -> [u8; 8]
    requires { (permutes first.now ≡ true) × (permutes second.now ≡ true) }
    ensures { (result ≡ followed first.now second.now) × (permutes result ≡ true) }
{
    let mut images = *first;
    for image in &mut images {
        *image = second[*image as usize];
    }
    images
}

// The images of the inverse.
pub(crate) fn inverted(images: &[u8; 8]) -> [u8; 8]
    requires { permutes images.now ≡ true }
    ensures { (result ≡ undone images.now) × (permutes result ≡ true) }
{
    let mut inverse = [0; 8];
    for (point, image) in images.iter().enumerate() {
        inverse[*image as usize] = point as u8;
    }
    inverse
}
