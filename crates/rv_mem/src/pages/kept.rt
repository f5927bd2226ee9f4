//! The frames that pages share, and the room that is kept for frames of their own. To keep room for
//! a page is to reserve capacity for a frame and to count it in `kept`, so that a later store to
//! the page can't run out of memory. The page table says what the numbers 0, 1 and 2 of pages mean.
ghost use Rattle.std.specs.Prelude.{◌≡◌, ◌≢◌, ◌+◌, ◌*◌, ◌/◌, ◌%◌, ◌^◌, ◌<◌, ◌≤◌, [], IfOk, OnOk, length, slice_index, ℕ};
ghost use Rattle.std.specs.Bool.{OnTrue, OnFalse};
ghost use Rattle.rv_mem.specs.Bytes.{byte_at};
ghost use Rattle.rv_mem.specs.Pages.{bytes_of};
ghost use Rattle.rv_mem.specs.private.Frames.{KeepsFrames, HaveFrames, run_of};

use super::{CHUNK_BYTES, FRAME, PAGE, Pages, ZEROS};
use crate::cells::{append_frame, zero_chunks};
use std::alloc::AllocError;

/// How many frames are shared.
const SHARED: usize = 3;

/// The number of a page without a byte, for which room is kept for a frame of its own.
const KEPT: u32 = 1;

/// How many pages a chunk has.
const CHUNK: u32 = 128;

/// How many cells there may be, so that the numbers of frames have 32 bits.
const MOST: usize = 1 << 41;

impl Pages {
    /// Appends the frames that pages share, unless they are there already: 0 and 1 without a mark,
    /// and 2 of zeros that are all marked.
    fn make_shared_frames(&mut self) -> Result<(), AllocError>
        ensures same { bytes_of self.new ≡ bytes_of self.old }
        ensures table { self.new.table ≡ self.old.table }
        ensures made { OnOk result (0 < length self.new.cells.items) }
    {
        if !self.cells.is_empty() {
            return Ok(());
        }
        self.cells.reserve_exact(SHARED * FRAME)?;
        append_frame(&mut self.cells, 0);
        append_frame(&mut self.cells, 0);
        append_frame(&mut self.cells, 1);
        Ok(())
    }

    /// Lengthens the table, so that it has `page`. The one error is that memory ran out.
    fn lengthen_table(&mut self, page: u32) -> Result<(), AllocError>
        requires page { page < 2 ^ 23 }
        requires cells { 0 < length self.old.cells.items }
        ensures same { bytes_of self.new ≡ bytes_of self.old }
        ensures numbers { (k : ℕ) → slice_index self.new.table k ≡ slice_index self.old.table k }
        ensures cells { self.new.cells ≡ self.old.cells }
        ensures room { OnOk result (page < length self.new.table) }
    {
        self.table.lengthen(page)
    }

    /// Keeps room for a frame of `page`, which has no number, and gives it number 1. It fails
    /// where memory ran out, or where a frame's index could have more than 32 bits.
    fn number_page(&mut self, page: u32) -> Result<(), AllocError>
        requires page { page < length self.old.table }
        requires none { slice_index self.old.table page ≡ 0 }
        requires cells { 0 < length self.old.cells.items }
        ensures same { bytes_of self.new ≡ bytes_of self.old }
        ensures made { OnOk result (slice_index self.new.table page ≢ 0) }
        ensures kept { KeepsFrames self.old.table self.new.table }
    {
        let wanted = (self.kept + 1) * FRAME;
        if self.cells.len() + wanted > MOST {
            return Err(AllocError);
        }
        self.cells.reserve_exact(wanted)?;
        self.table.set(page, KEPT)?;
        self.kept += 1;
        Ok(())
    }

    /// Keeps room for a frame of `page`, the addresses from `page * 512` on, if it has no number.
    /// The one error is that memory ran out.
    fn make_page(&mut self, page: u32) -> Result<(), AllocError>
        requires { page < 2 ^ 23 }
        ensures same { bytes_of self.new ≡ bytes_of self.old }
        ensures made { OnOk result (slice_index self.new.table page ≢ 0) }
        ensures kept { KeepsFrames self.old.table self.new.table }
    {
        self.make_shared_frames()?;
        self.lengthen_table(page)?;
        if self.table.number(page) != 0 {
            return Ok(());
        }
        self.number_page(page)
    }

    /// Keeps room for frames of the pages from `page` on, the first of a chunk, and gives them
    /// number 1: of `most` chunks, or up to the first chunk that isn't seen to have no number (see
    /// `free_chunks` of the table). Answers how many pages that are.
    fn number_chunks(&mut self, page: u32, most: u32) -> Result<u32, AllocError>
        requires page { page < length self.old.table }
        requires first { page % 128 ≡ 0 }
        requires most { most ≤ 2 ^ 16 }
        requires cells { 0 < length self.old.cells.items }
        ensures same { bytes_of self.new ≡ bytes_of self.old }
        ensures most { IfOk result (λ n. n ≤ most * 128) }
        ensures made { IfOk result (λ n. (k : ℕ) → page ≤ k → k < page + n
            → slice_index self.new.table k ≢ 0) }
        ensures kept { KeepsFrames self.old.table self.new.table }
    {
        let wanted = (self.kept + most as usize * CHUNK as usize) * FRAME;
        if self.cells.len() + wanted > MOST {
            return Err(AllocError);
        }
        self.cells.reserve_exact(wanted)?;
        let chunks = self.table.keep_chunks(page / CHUNK, most)?;
        self.kept += chunks as usize * CHUNK as usize;
        Ok(chunks * CHUNK)
    }

    /// Keeps such room for whole chunks of pages from `page` on that end at page `end` or before.
    /// Answers how many pages they have: 0 where `page` isn't the first of such a chunk.
    fn keep_chunks(&mut self, page: u32, end: u32) -> Result<u32, AllocError>
        requires page { page < end }
        requires end { end ≤ 2 ^ 23 }
        ensures same { bytes_of self.new ≡ bytes_of self.old }
        ensures most { IfOk result (λ n. page + n ≤ end) }
        ensures made { IfOk result (λ n. (k : ℕ) → page ≤ k → k < page + n
            → slice_index self.new.table k ≢ 0) }
        ensures kept { KeepsFrames self.old.table self.new.table }
    {
        if page % CHUNK != 0 {
            return Ok(0);
        }
        self.make_shared_frames()?;
        self.lengthen_table(end - 1)?;
        let count = self.number_chunks(page, (end - page) / CHUNK)?;
        Ok(count)
    }

    /// Keeps room for frames of the next pages from `page` on, before page `end`: of whole chunks
    /// where it can, and else of one page. Answers how many pages that are, at least 1.
    fn make_run(&mut self, page: u32, end: u32) -> Result<u32, AllocError>
        requires page { page < end }
        requires end { end ≤ 2 ^ 23 }
        ensures same { bytes_of self.new ≡ bytes_of self.old }
        ensures some { IfOk result (λ n. 0 < n) }
        ensures most { IfOk result (λ n. page + n ≤ end) }
        ensures made { IfOk result (λ n. (k : ℕ) → page ≤ k → k < page + n
            → slice_index self.new.table k ≢ 0) }
        ensures kept { KeepsFrames self.old.table self.new.table }
    {
        let count = self.keep_chunks(page, end)?;
        if count > 0 {
            return Ok(count);
        }
        self.make_page(page)?;
        Ok(1)
    }

    /// Gives `page`, which has a number, a frame of its own with the bytes that it has, in the room
    /// that is kept for it; nothing changes if it has one. Not inlined, as no page takes more than
    /// one frame.
    #[inline(never)]
    pub(super) fn own_frame(&mut self, page: u32)
        requires { slice_index self.old.table page ≢ 0 }
        ensures same { bytes_of self.new ≡ bytes_of self.old }
        ensures own { 2 < slice_index self.new.table page }
        ensures kept { KeepsFrames self.old.table self.new.table }
    {
        let number = self.table.number(page);
        if number > ZEROS {
            return;
        }
        let frames = self.cells.len() / FRAME;
        append_frame(&mut self.cells, u8::from(number == ZEROS));
        self.table.set(page, frames as u32).unwrap();
        self.kept -= 1;
    }

    /// Makes a page of zeros, all there, of `page`, which has number 1: it shares frame 2 then.
    fn share_zeros(&mut self, page: u32)
        requires { slice_index self.old.table page ≡ 1 }
        ensures written { (q : ℕ) → byte_at (bytes_of self.new) q ≡
            run_of (page * 512) 512 [] 0 q (byte_at (bytes_of self.old) q) }
        ensures kept { KeepsFrames self.old.table self.new.table }
    {
        self.table.set(page, ZEROS).unwrap();
    }

    /// Writes `count` zeros to the addresses from `at` on, all in one page, where the page can
    /// share frame 2 then: it does already, or it has number 1 and the zeros fill it. Else false,
    /// and nothing changed.
    pub(super) fn put_zeros(&mut self, at: u32, count: u32) -> bool
        requires { at % 512 + count ≤ 512 }
        ensures done { OnTrue result ((q : ℕ) → byte_at (bytes_of self.new) q ≡
            run_of at count [] 0 q (byte_at (bytes_of self.old) q)) }
        ensures refused { OnFalse result (bytes_of self.new ≡ bytes_of self.old) }
        ensures kept { KeepsFrames self.old.table self.new.table }
    {
        let number = self.frame_number(at);
        if number == ZEROS {
            return true;
        }
        if number != KEPT || count < PAGE {
            return false;
        }
        self.share_zeros(at / PAGE);
        true
    }

    /// Makes pages of zeros of whole chunks from `at` on, the start of a chunk, `most` chunks at
    /// most, by the table alone (`clear_chunks`). Answers how many bytes they have, 0 if that can't
    /// be done.
    fn share_zero_chunks(&mut self, at: u32, most: u32) -> u64
        requires at { at % 65536 ≡ 0 }
        requires made { slice_index self.old.table (at / 512) ≢ 0 }
        ensures most { result ≤ most * 65536 }
        ensures written { (q : ℕ) → byte_at (bytes_of self.new) q ≡
            run_of at result [] 0 q (byte_at (bytes_of self.old) q) }
        ensures kept { KeepsFrames self.old.table self.new.table }
    {
        let chunks = self.table.clear_chunks(at / CHUNK_BYTES, most);
        chunks as u64 * CHUNK_BYTES as u64
    }

    /// Writes the first of `most` bytes, those of `front` from index `from` on and zeros past its
    /// end, to the addresses from `at` on: only whole chunks of zeros whose pages have no frames of
    /// their own. Answers how many bytes that are, perhaps 0; the caller writes the rest.
    pub(super) fn put_zero_chunks(&mut self, at: u32, most: u64, front: &[u8], from: u32) -> u64
        requires most { most ≤ 2 ^ 32 }
        requires made { slice_index self.old.table (at / 512) ≢ 0 }
        ensures most { result ≤ most }
        ensures written { (q : ℕ) → byte_at (bytes_of self.new) q ≡
            run_of at result front.now from q (byte_at (bytes_of self.old) q) }
        ensures kept { KeepsFrames self.old.table self.new.table }
    {
        if at % CHUNK_BYTES != 0 {
            return 0;
        }
        let zeros = zero_chunks(front, from as usize, most);
        self.share_zero_chunks(at, zeros)
    }

    /// Reserves capacity for `count` frames more at once, beside those that are shared or kept, and
    /// for no others, so that they are made without moving the cells again.
    fn reserve_frames(&mut self, count: u32) -> Result<(), AllocError>
        ensures same { bytes_of self.new ≡ bytes_of self.old }
    {
        let first = if self.cells.is_empty() {
            SHARED
        } else {
            self.kept
        };
        self.cells.reserve_exact((first + count as usize) * FRAME)
    }

    /// Keeps room for frames of all pages of the `size` addresses from `base` on that have no
    /// number, so that each has one then. The one error is that memory ran out; no byte changed
    /// then either.
    pub(super) fn make_pages(&mut self, base: u32, size: u32) -> Result<(), AllocError>
        requires { base + size ≤ 2 ^ 32 }
        ensures same { bytes_of self.new ≡ bytes_of self.old }
        ensures made { OnOk result (HaveFrames self.new.table base size) }
    {
        if size == 0 {
            return Ok(());
        }
        let end = (base + (size - 1)) / PAGE + 1;
        let mut page = base / PAGE;
        self.reserve_frames(end - page)?;
        while page < end {
            let count = self.make_run(page, end)?;
            page += count;
        }
        Ok(())
    }
}
