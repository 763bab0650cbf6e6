// The numbers of a listing as bytes, low byte first.
ghost use Rattle.std.specs.Prelude.{◌≡◌, ◌*◌, ◌≤◌, length};
ghost use Rattle.refusals.specs.Refusals.{accepted, written};
ghost use Rattle.sheet_trees.specs.Operations.{in_bytes};

// Writes the bytes of these numbers at the front of `out`.
pub(crate) fn write_bytes(numbers: &[u16], out: &mut [u8])
    requires { 2 * length numbers.now ≤ length out.old }
    ensures { out.new ≡ written (in_bytes (accepted numbers.now)) out.old }
{
    for (k, number) in numbers.iter().enumerate() {
        out[2 * k] = byte_numbers::low_byte(*number);
        out[2 * k + 1] = byte_numbers::high_byte(*number);
    }
}
