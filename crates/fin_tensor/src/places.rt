// Places in the lists of one level.

ghost use Rattle.std.specs.Prelude.{◌≡◌, ◌<◌, ◌≤◌, ◌+◌, ◌-◌, length, slice_index};
ghost use Rattle.fin_tensor.specs.Levels.{IsFibre, first_from, key_in, block_in};

/// The places of one fibre.
#[derive(Clone, Copy, Debug, PartialEq, Eq)]
pub struct Fibre {
    pub from: u64,
    pub to: u64,
}

/// The fibre at a position of a level with `ptr`.
pub fn fibre_of(ptr: &[u64], pos: u64) -> Fibre
    requires { pos + 1 < length ptr.now }
    ensures from { result.from ≡ slice_index ptr.now pos }
    ensures to { result.to ≡ slice_index ptr.now (pos + 1) }
{
    Fibre {
        from: ptr[pos as usize],
        to: ptr[pos as usize + 1],
    }
}

/// The first place of the fibre whose number is the key or more, or the fibre's end.
pub fn search_in(numbers: &[u64], from: u64, to: u64, key: u64) -> u64
    requires { IsFibre numbers.now from to }
    ensures { result ≡ first_from numbers.now key from (to - from) }
{
    let mut low = from;
    let mut high = to;
    while low < high {
        let middle = low + (high - low) / 2;
        if numbers[middle as usize] < key {
            low = middle + 1;
        } else {
            high = middle;
        }
    }
    low
}

/// The place of the key in the fibre.
pub fn find_key(numbers: &[u64], from: u64, to: u64, key: u64) -> Option<u64>
    requires { IsFibre numbers.now from to }
    ensures { result ≡ key_in numbers.now from to key }
{
    let place = search_in(numbers, from, to, key);
    if place < to && numbers[place as usize] == key {
        Some(place)
    } else {
        None
    }
}

/// The place of a coordinate in a block that begins at the coordinate `start`.
pub fn find_in_block(from: u64, to: u64, start: u64, i: u64) -> Option<u64>
    requires order { from ≤ to }
    ensures { result ≡ block_in from to start i }
{
    if i < start || i - start >= to - from {
        return None;
    }
    Some(from + (i - start))
}
