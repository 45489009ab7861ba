// Whole micrometres: an i32 counted from the least one, so that sums and differences of a few of them are worked out in u64 and stay in range.
#![tactic(auto)]

ghost use Rattle.std.specs.Prelude.{◌≡◌, ◌+◌, ◌*◌, ◌^◌, ◌≤◌, ◌<◌, min, max, length};
ghost use Rattle.micro.specs.Micro.{whole_of, counted, number_of, is_coordinate, is_radius, number_at, low_at, high_at, box_of};

// A triangle's box and its top, counted.
#[derive(Clone, Copy)]
pub struct Box {
    pub low_x: u64,
    pub low_y: u64,
    pub high_x: u64,
    pub high_y: u64,
    pub top: u64,
}

// The i32 of these bits.
pub fn whole(bits: u32) -> i32
    ensures { result ≡ whole_of bits }
{
    if bits < 2147483648 {
        return bits as i32;
    }
    let below = 4294967295 - bits;
    -1 - below as i32
}

// A number counted from the least i32.
pub fn count(z: i32) -> u64
    ensures { (result ≡ counted z) × (result < 2 ^ 32) }
{
    (z as i64 + 2147483648) as u64
}

// The number that was counted so.
pub fn number(k: u64) -> i32
    requires { k < 2 ^ 32 }
    ensures { result ≡ number_of k }
{
    if 2147483648 <= k {
        return (k - 2147483648) as i32;
    }
    let below = 2147483647 - k;
    -1 - below as i32
}

// Number k of a mesh, counted.
pub fn number_at(mesh: &[i32], k: usize) -> u64
    requires { k < length mesh.now }
    ensures { (result ≡ number_at mesh.now k) × (result < 2 ^ 32) }
{
    let z = mesh[k];
    count(z)
}

// Whether a counted number can be a coordinate.
pub fn is_coordinate(k: u64) -> bool
    ensures { result ≡ is_coordinate k }
{
    1147483648 <= k && k <= 3147483648
}

// Whether a counted number can be a radius.
pub fn is_radius(k: u64) -> bool
    ensures { result ≡ is_radius k }
{
    2147483648 <= k && k <= 3147483648
}

pub fn lower(a: u64, b: u64) -> u64
    ensures { result ≡ min a b }
{
    if a <= b { a } else { b }
}

pub fn higher(a: u64, b: u64) -> u64
    ensures { result ≡ max a b }
{
    if a <= b { b } else { a }
}

// The least of a triangle's three numbers on one axis.
fn low_at(mesh: &[i32], k: usize) -> u64
    requires { k + 6 < length mesh.now }
    ensures { result ≡ low_at mesh.now k }
{
    lower(
        lower(number_at(mesh, k), number_at(mesh, k + 3)),
        number_at(mesh, k + 6),
    )
}

// The most of them.
fn high_at(mesh: &[i32], k: usize) -> u64
    requires { k + 6 < length mesh.now }
    ensures { (result ≡ high_at mesh.now k) × (result < 2 ^ 32) }
{
    higher(
        higher(number_at(mesh, k), number_at(mesh, k + 3)),
        number_at(mesh, k + 6),
    )
}

// The box and the top of triangle i.
pub fn box_of(mesh: &[i32], i: usize) -> Box
    requires { 9 * i + 9 ≤ length mesh.now }
    ensures { (result ≡ box_of mesh.now i) × (result.high_x < 2 ^ 32) × (result.high_y < 2 ^ 32) × (result.top < 2 ^ 32) }
{
    let k = 9 * i;
    Box {
        low_x: low_at(mesh, k),
        low_y: low_at(mesh, k + 1),
        high_x: high_at(mesh, k),
        high_y: high_at(mesh, k + 1),
        top: high_at(mesh, k + 2),
    }
}
