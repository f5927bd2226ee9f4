//! The frame at a turn's start.
ghost use Rattle.std.specs.Prelude.{ℕ, ◌≡◌, ◌<◌, ◌+◌, ◌*◌, ◌/◌, ◌%◌, ◌^◌, Some, slice_index};
ghost use Rattle.x86_step.specs.Held.{bytes_from};
ghost use Rattle.x86_step.specs.State.{number_at};

/// Byte `k` of a number, the lowest first.
fn byte_of(number: u32, k: usize) -> u8
    requires { k < 4 }
    ensures { result ≡ number / 256 ^ k % 256 }
{
    match k {
        0 => (number % 256) as u8,
        1 => (number / 256 % 256) as u8,
        2 => (number / 65536 % 256) as u8,
        _ => (number / 16_777_216 % 256) as u8,
    }
}

/// The first 128 bytes of a frame, which have these values of x0 to x31, four bytes each. Lines need
/// the fixed ones there too (`value` in `specs/Layout.antt`), which the caller sees to.
pub fn frame_of(registers: &[u32; 32]) -> [u8; 128]
    ensures { (base r : ℕ) → r < 32
        → number_at (bytes_from base result) 4 (base + 4 * r) ≡ Some (slice_index registers.now r) }
{
    let mut frame = [0; 128];
    for k in 0..128 {
        frame[k] = byte_of(registers[k / 4], k % 4);
    }
    frame
}
