ghost use Rattle.std.specs.Prelude.{◌≡◌, ◌^◌, ◌<◌, ◌≤ℤ◌};
ghost use Rattle.label.specs.Form.{least_stored};
ghost use Rattle.sheet.specs.Codes.{code};

use label::Storage;

// The number that is stored for n. Storage is data of a slot, and each of its two forms stands once a way.
pub(crate) fn coded(storage: Storage, n: i32) -> u32
    ensures { result ≡ code storage n }
{
    // a number below 0 is folded to -n - 1, and is told by one more
    let (folded, below) = if n < 0 { (-(n + 1), 1) } else { (n, 0) };
    match storage {
        Storage::Signed => 2 * folded as u32 + below,
        Storage::Image => folded as u32 + below,
    }
}

// The number that is stored so: the other way round.
pub(crate) fn decoded(storage: Storage, stored: u32) -> i32
    requires { stored < 2 ^ 21 }
    ensures code { code storage result ≡ stored }
    ensures least { least_stored storage ≤ℤ result }
{
    match storage {
        Storage::Image => stored as i32,
        Storage::Signed => {
            let half = (stored / 2) as i32;
            if stored % 2 == 0 { half } else { -half - 1 }
        }
    }
}
