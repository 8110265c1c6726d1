// A list of old numbers: whether it is a permutation, and the new numbers by it.
ghost use Rattle.std.specs.Prelude.{◌≡◌, true, ◌≤◌, length};
ghost use Rattle.renaming.specs.Order.{is_permutation};
ghost use Rattle.order.specs.Queue.{Numbers};

// Whether the list is a permutation of the block numbers.
pub fn is_permutation(list: &[u32], blocks: u32) -> bool
    requires { blocks ≤ 1024 }
    ensures { result ≡ is_permutation blocks list.now }
{
    if list.len() != blocks as usize {
        return false;
    }
    let mut found = [false; 1024];
    for block in list {
        if *block >= blocks || found[*block as usize] {
            return false;
        }
        found[*block as usize] = true;
    }
    true
}

// The place of each block in a permutation: its new number. The array is lent: a result would be one more copy of it on the stack.
pub fn new_numbers(list: &[u32], new: &mut [u32; 1024])
    requires few { length list.now ≤ 1024 }
    requires permutation { is_permutation (length list.now) list.now ≡ true }
    ensures { Numbers list.now new.new }
{
    for (place, block) in list.iter().enumerate() {
        new[*block as usize] = place as u32;
    }
}
