//! The capacity that a block of elements is given. Lengths and capacities count elements.
ghost use Rattle.std.specs.Prelude.{◌≡◌, ◌+◌, ◌≤◌};
ghost use Rattle.ecow_base.specs.Capacity.{fresh, room};

/// The greatest length, and the greatest capacity, of a list: 2^63 - 1.
pub const MAX_LEN: usize = 9223372036854775807;

/// The capacity of a new block for `len` elements: `len`, but at least 4 where `len` isn't 0.
pub fn fresh_capacity(len: usize) -> usize
    requires { len ≤ MAX_LEN }
    ensures value { result ≡ fresh len }
    ensures fits { len ≤ result }
    ensures bounded { result ≤ MAX_LEN }
{
    if len == 0 { 0 } else { len.max(4) }
}

/// The capacity of a block that has `len` elements and is to take `additional` more. This is
/// `capacity`, the one that it has, where they fit. Otherwise the capacity doubles, or becomes what
/// is needed or 4 where that is more; it never passes `MAX_LEN`.
pub fn room_for(len: usize, additional: usize, capacity: usize) -> usize
    requires needed { len + additional ≤ MAX_LEN }
    requires bounded { capacity ≤ MAX_LEN }
    ensures value { result ≡ room len additional capacity }

    // It is enough, no less than before, and within the limit.
    ensures fits { len + additional ≤ result }
    ensures keeps { capacity ≤ result }
    ensures bounded { result ≤ MAX_LEN }
{
    let needed = len + additional;
    if needed <= capacity {
        return capacity;
    }
    (2 * capacity).max(needed).max(4).min(MAX_LEN)
}
