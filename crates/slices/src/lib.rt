// Bytes copied and cleared, for every layer that writes to lent memory.
#![tactic(auto)]

ghost use Rattle.std.specs.Prelude.{◌≡◌, ◌+◌, ◌≤◌, length, replicate};
ghost use Rattle.form.specs.Spans.{part, over};

// Copies a span to a place of the output, byte by byte, which the compiler makes wide: `copy_from_slice` would ask the linker for memmove.
pub fn copy(from: &[u8], start: usize, size: usize, out: &mut [u8], at: usize)
    requires { (start + size ≤ length from.now) × (at + size ≤ length out.old) }
    ensures { out.new ≡ over out.old at (part from.now start size) }
{
    for i in 0..size {
        out[at + i] = from[start + i];
    }
}

// Zero bytes throughout: what a refused parse leaves.
pub fn clear(out: &mut [u8])
    ensures { out.new ≡ replicate (length out.old) 0 }
{
    out.fill(0);
}
