// At most N bytes, in the value itself.
ghost use Rattle.std.specs.Prelude.{◌≡◌, ◌≤◌, length};

// At most N bytes; what stands past the length is none of them.
// The kit's ArrayVec is not Copy, its clone can fail, and its own items must be MadeWith an allocator.
#[derive(Clone, Copy)]
pub struct Short<const N: usize> {
    bytes: [u8; N],
    len: usize,
    ghost places: { length bytes ≡ N },
    ghost short: { len ≤ N },
}

mod methods;
