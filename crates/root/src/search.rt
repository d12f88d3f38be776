// The root by search: halving over whole numbers. It is slow, and made for its proof; `sqrt` falls back on it where its
// guess fails, and leaves to it what is no finite number above zero.
ghost use Rattle.std.specs.Prelude.{◌≡◌, ◌-◌, ◌^◌, ◌≤◌, ◌<◌};
ghost use Rattle.root.specs.Root.{root, root_bits};
ghost use Rattle.root.specs.Post.{IsParts, IsRounded};

// A number above zero as m · 2^e, in units of 2^-275.
#[derive(Clone, Copy)]
struct Parts {
    m: u64,
    e: u64,
}

// The number of the pattern b, with m's leading digit at place 23.
// Kept: that b is above zero is a `requires`, here and twice more. A NonZero of two widths would be turned back into a number at once.
fn split(b: u64) -> Parts
    requires { (0 < b) × (b < 2 ^ 31) }
    ensures { IsParts b result.m result.e }
{
    if b >= 0x80_0000 {
        return Parts {
            m: b % 0x80_0000 + 0x80_0000,
            e: b / 0x80_0000 + 125,
        };
    }
    let places = b.leading_zeros() as u64 - 40;
    Parts {
        m: b << places,
        e: 126 - places,
    }
}

// The whole number nearest to the root of n, by halving.
fn nearest_root(n: u64) -> u64
    requires { (2 ^ 46 ≤ n) × (n ≤ 2 ^ 48 - 2 ^ 24) }
    ensures { IsRounded n result }
{
    let mut lo = 0x80_0000u64;
    let mut hi = 0x100_0000u64;
    // Kept: it halves, and counts no index.
    while lo + 1 < hi {
        let mid = lo + (hi - lo) / 2;
        if mid * mid <= n {
            lo = mid;
        } else {
            hi = mid;
        }
    }
    if lo * lo + lo < n {
        return lo + 1;
    }
    lo
}

// The pattern of the root of the number above zero that the pattern b stands for. With e even, the root of m · 2^e is the
// root of m by half of e places; an odd place goes to m first.
fn root_bits(b: u32) -> u32
    requires { (0 < b) × (b < 2 ^ 31) }
    ensures { result ≡ root_bits b }
{
    let Parts { m, e } = split(b as u64);
    let mut n = m * 0x80_0000;
    if e % 2 == 1 {
        n = n * 2;
    }
    let r = nearest_root(n);
    (e / 2 * 0x80_0000 + r) as u32
}

// The root of x, rounded once: the answer of `sqrt`, by search alone.
pub fn by_search(x: f32) -> f32
    ensures { result ≡ root x }
{
    if x > 0.0 {
        let b = f32::to_bits(x);
        if b == 0x7f80_0000 {
            return x;
        }
        return f32::from_bits(root_bits(b));
    }
    if x == 0.0 {
        return x;
    }
    f32::NAN
}
