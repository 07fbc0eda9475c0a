// Elements copied from one slice to another or up within one. What stands behind the copy is left alone. Both are a `for`: by the library's
// `copy_from_slice` and `copy_within` the archive would ask its linker for `memmove`, which it does nowhere else.
ghost use Rattle.std.specs.Prelude.{◌≡◌, ◌+◌, ◌≤◌, length, take, drop};
ghost use Rattle.slices.specs.Over.{over};

pub fn copy<T: Copy>(from: &[T], to: &mut [T])
    requires { length from.now ≤ length to.old }
    ensures { to.new ≡ over from.now to.old }
{
    for i in 0..from.len() {
        to[i] = from[i];
    }
}

// So many numbers, from place `by` on, moved up to the front. Each is read before its place is written.
pub fn move_up(numbers: &mut [u32], by: usize, count: usize)
    requires { by + count ≤ length numbers.old }
    ensures { numbers.new ≡ over (take count (drop by numbers.old)) numbers.old }
{
    for k in 0..count {
        numbers[k] = numbers[by + k];
    }
}
