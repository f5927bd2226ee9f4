//! The cells in which [`Pages`](crate::pages::Pages) keeps bytes and marks. A cell is one entry of
//! that list: the byte of an address, or its mark, 1 where that byte is there and 0 where it isn't.
//! A frame is 1024 cells in a row, 512 bytes of a page and then their 512 marks.
ghost use Rattle.std.specs.Prelude.{◌≡◌, ◌+◌, ◌*◌, ◌^◌, ◌<◌, ◌≤◌, length, slice_index, vec_capacity, vec_len, ℕ};
ghost use Rattle.std.specs.Bool.{OnTrue};
ghost use Rattle.std.specs.Int.{bytes_low_first};
ghost use Rattle.rv_mem.specs.private.Frames.{with_two, with_four, Puts, MarksRun, GainsFrame};

/// How many bytes a page has, and how many cells lie between a byte and its mark.
const PAGE: usize = 512;

/// How many cells a frame has: a page's bytes, and after them their marks.
const FRAME: usize = 1024;

/// How many bytes the 128 pages of a chunk have, which the page table can treat as one.
const CHUNK: usize = 65536;

/// Writes the four bytes of `value`, low byte first, to the cells from index `place` on: over a
/// slice, so that it is one store of the processor.
#[inline(always)]
pub(crate) fn write_word(cells: &mut [u8], place: usize, value: u32)
    requires { place + 4 ≤ length cells.old }
    ensures { cells.new ≡ with_four cells.old place (bytes_low_first 0 4 value) }
{
    let [byte0, byte1, byte2, byte3] = value.to_le_bytes();
    cells[place] = byte0;
    cells[place + 1] = byte1;
    cells[place + 2] = byte2;
    cells[place + 3] = byte3;
}

/// Writes the two low bytes of `value` to the cells from index `place` on, likewise.
#[inline(always)]
pub(crate) fn write_halfword(cells: &mut [u8], place: usize, value: u32)
    requires { place + 2 ≤ length cells.old }
    ensures { cells.new ≡ with_two cells.old place (bytes_low_first 0 2 value) }
{
    let [byte0, byte1, _, _] = value.to_le_bytes();
    cells[place] = byte0;
    cells[place + 1] = byte1;
}

/// Writes `bytes` to the cells from index `place` on. Their marks stay.
pub(crate) fn write_cells(cells: &mut [u8], place: usize, bytes: &[u8])
    requires { place + length bytes.now ≤ length cells.old }
    ensures put { Puts cells.old cells.new place (length bytes.now) (slice_index bytes.now) }
    ensures small { (j : ℕ) → slice_index bytes.now j < 256 }
{
    cells[place..place + bytes.len()].copy_from_slice(bytes);
}

/// Copies the `count` cells from index `place` on to `room`, from its index `to` on.
pub(crate) fn copy_cells(cells: &[u8], place: usize, count: usize, room: &mut [u8], to: usize)
    requires cells { place + count ≤ length cells.now }
    requires room { to + count ≤ length room.old }
    ensures { Puts room.old room.new to count (λ j. slice_index cells.now (place + j)) }
{
    room[to..to + count].copy_from_slice(&cells[place..place + count]);
}

/// Writes `value` to the `count` cells from index `place` on.
pub(crate) fn put_same(cells: &mut [u8], place: usize, count: usize, value: u8)
    requires { place + count ≤ length cells.old }
    ensures { Puts cells.old cells.new place count (λ j. value) }
{
    cells[place..place + count].fill(value);
}

/// Writes `count` bytes, at most 512, to the cells from index `place` on, and sets their marks. The
/// bytes are those of `front` from index `from` on, and zeros past its end.
pub(crate) fn mark_cells(cells: &mut [u8], place: usize, count: usize, front: &[u8], from: usize)
    requires room { place + count + 512 ≤ length cells.old }
    requires page { count ≤ 512 }
    ensures { MarksRun cells.old cells.new place count front.now from }
{
    let start = from.min(front.len());
    let given = count.min(front.len() - start);
    write_cells(cells, place, &front[start..start + given]);
    put_same(cells, place + given, count - given, 0);
    put_same(cells, place + PAGE, count, 1);
}

/// Whether the `count` bytes of `front` from index `from` on are zeros; those past its end count as
/// zeros.
pub(crate) fn are_zeros(front: &[u8], from: usize, count: usize) -> bool
    ensures { OnTrue result ((j : ℕ) → j < count → slice_index front.now (from + j) ≡ 0) }
{
    let start = from.min(front.len());
    let given = count.min(front.len() - start);
    for byte in &front[start..start + given] {
        if *byte != 0 {
            return false;
        }
    }
    true
}

/// How many whole chunks of zeros the next `most` bytes begin with: those of `front` from index
/// `from` on, and zeros past its end. While `from` lies in `front` one chunk alone is looked at, so
/// that the answer is 0 or 1, and the caller asks again for the next.
pub(crate) fn zero_chunks(front: &[u8], from: usize, most: u64) -> u32
    requires { most ≤ 2 ^ 32 }
    ensures most { result * 65536 ≤ most }
    ensures zeros { (j : ℕ) → j < result * 65536 → slice_index front.now (from + j) ≡ 0 }
{
    let whole = (most / CHUNK as u64) as u32;
    if from >= front.len() {
        return whole;
    }
    if whole == 0 {
        return 0;
    }
    if are_zeros(front, from, CHUNK) {
        return 1;
    }
    0
}

/// Lengthens `cells` to `n`, the new ones 0. The capacity suffices, so that this doesn't fail.
fn lengthen_cells(cells: &mut Vec<u8>, n: usize)
    requires more { length cells.old.items ≤ n }
    requires room { n ≤ vec_capacity cells.old }
    ensures same { (k : ℕ) → slice_index cells.new.items k ≡ slice_index cells.old.items k }
    ensures len { length cells.new.items ≡ n }
    ensures capacity { vec_capacity cells.old ≤ vec_capacity cells.new }
{
    cells.resize(n, 0).unwrap();
}

/// Appends a frame whose 512 bytes are 0 and whose marks are all `mark`. The capacity suffices, so
/// that this doesn't fail.
pub(crate) fn append_frame(cells: &mut Vec<u8>, mark: u8)
    requires room { vec_len cells.old + 1024 ≤ vec_capacity cells.old }
    ensures gained { GainsFrame cells.old.items cells.new.items mark }
    ensures len { vec_len cells.new ≡ vec_len cells.old + 1024 }
    ensures capacity { vec_capacity cells.old ≤ vec_capacity cells.new }
{
    let len = cells.len();
    lengthen_cells(cells, len + FRAME);
    put_same(cells, len + PAGE, PAGE, mark);
}
