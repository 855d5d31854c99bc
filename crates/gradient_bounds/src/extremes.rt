//! Where the least and the greatest of some numbers stand.
ghost use Rattle.std.specs.Prelude.{◌↔◌, ◌-◌, ◌^◌, ◌<◌, ◌≤◌, ◌≤ℤ◌, ◌<ℤ◌, length, slice_index_or, pos, unsigned_abs, IsTrue};
ghost use Rattle.std.specs.List.{All};

/// Whether a number is less than another one.
fn is_less(first: i128, second: i128) -> bool
    ensures { IsTrue result ↔ (first <ℤ second) }
{
    first < second
}

/// The edge, of some that are counted from 1, with the least number.
pub fn least(numbers: &[i128], edges: &[u32]) -> u32
    requires some { 0 < length edges.now }
    requires edges { All (λ e. (1 ≤ e) × (e ≤ length numbers.now)) edges.now }
    requires small { All (λ z. unsigned_abs z ≤ 2 ^ 76) numbers.now }
    ensures place { (1 ≤ result) × (result ≤ length numbers.now) }
    ensures least { All (λ e. slice_index_or numbers.now (result - 1) (pos 0) ≤ℤ slice_index_or numbers.now (e - 1) (pos 0)) edges.now }
{
    let mut place = edges[0];
    let mut number = numbers[place as usize - 1];
    for &edge in edges {
        let next = numbers[edge as usize - 1];
        if is_less(next, number) {
            place = edge;
            number = next;
        }
    }
    place
}

/// The edge, of some that are counted from 1, with the greatest number.
pub fn greatest(numbers: &[i128], edges: &[u32]) -> u32
    requires some { 0 < length edges.now }
    requires edges { All (λ e. (1 ≤ e) × (e ≤ length numbers.now)) edges.now }
    requires small { All (λ z. unsigned_abs z ≤ 2 ^ 76) numbers.now }
    ensures place { (1 ≤ result) × (result ≤ length numbers.now) }
    ensures greatest { All (λ e. slice_index_or numbers.now (e - 1) (pos 0) ≤ℤ slice_index_or numbers.now (result - 1) (pos 0)) edges.now }
{
    let mut place = edges[0];
    let mut number = numbers[place as usize - 1];
    for &edge in edges {
        let next = numbers[edge as usize - 1];
        if is_less(number, next) {
            place = edge;
            number = next;
        }
    }
    place
}
