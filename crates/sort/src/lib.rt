// Triangle numbers sorted in place by z falling, equal ones in mesh order: a heap sort over a lent table.
#![tactic(auto)]

ghost use Rattle.std.specs.Prelude.{◌≡◌, ◌++◌, ◌+◌, ◌*◌, ◌≤◌, ◌<◌, length, get_or, take, drop};
ghost use Rattle.sort.specs.Ranks.{before, sorted_by};
ghost use Rattle.sort.specs.Inside.{Rearranged, swapped, Heap, Within, later_of};

// The first k numbers of the list sorted; the others stay.
pub fn sort(mesh: &[f64], n: usize, list: &mut [u32], k: usize)
    requires n_in_bounds { n * 9 ≤ length mesh.now }
    requires within { Within n k list.old }
    ensures list_after { list.new ≡ sorted_by (before mesh.now) (take k list.old) ++ drop k list.old }
    ensures within_2 { Within n k list.new }
{
    heap(mesh, n, list, k);
    let mut e = k;
    while e > 1 {
        e -= 1;
        swap(list, 0, e);
        sift(mesh, n, list, 0, e);
    }
}

// The first k numbers made a heap, from the last one back.
fn heap(mesh: &[f64], n: usize, list: &mut [u32], k: usize)
    requires n_in_bounds { n * 9 ≤ length mesh.now }
    requires within { Within n k list.old }
    ensures { Rearranged k list.old list.new × Heap (before mesh.now) 0 k list.new }
{
    let mut r = k / 2;
    while r > 0 {
        r -= 1;
        sift(mesh, n, list, r, k);
    }
}

// Entry r goes down the heap of the first e entries until neither of the two under it comes after it.
fn sift(mesh: &[f64], n: usize, list: &mut [u32], r: usize, e: usize)
    requires n_in_bounds { n * 9 ≤ length mesh.now }
    requires within { Within n e list.old × (r < e) }
    requires heap { Heap (before mesh.now) (r + 1) e list.old }
    ensures { Rearranged e list.old list.new × Heap (before mesh.now) r e list.new }
{
    let mut i = r;
    while 2 * i + 1 < e {
        let d = later(mesh, n, list, 2 * i + 1, e);
        if !stands_before(mesh, n, list, i, d) {
            return;
        }
        swap(list, i, d);
        i = d;
    }
}

// Of the entries c and c + 1 below e, the one that comes later.
fn later(mesh: &[f64], n: usize, list: &[u32], c: usize, e: usize) -> usize
    requires n_in_bounds { n * 9 ≤ length mesh.now }
    requires within { Within n e list.now × (c < e) }
    ensures { result ≡ later_of (before mesh.now) list.now c e }
{
    if e <= c + 1 {
        return c;
    }
    if stands_before(mesh, n, list, c, c + 1) {
        return c + 1;
    }
    c
}

// Whether the triangle of entry a stands before that of entry b.
fn stands_before(mesh: &[f64], n: usize, list: &[u32], a: usize, b: usize) -> bool
    requires n_in_bounds { n * 9 ≤ length mesh.now }
    requires a_in_bounds { (a < length list.now) × (b < length list.now) }
    requires a_bound { (get_or list.now a 0 < n) × (get_or list.now b 0 < n) }
    ensures { result ≡ before mesh.now (get_or list.now a 0) (get_or list.now b 0) }
{
    let i = list[a] as usize;
    let j = list[b] as usize;
    let zi = mesh[i * 9 + 2];
    let zj = mesh[j * 9 + 2];
    if numbers::total_less(zj, zi) {
        return true;
    }
    if numbers::total_less(zi, zj) {
        return false;
    }
    i < j
}

// Two entries swapped.
fn swap(list: &mut [u32], a: usize, b: usize)
    requires { (a < length list.old) × (b < length list.old) }
    ensures { list.new ≡ swapped list.old a b }
{
    let x = list[a];
    list[a] = list[b];
    list[b] = x;
}
