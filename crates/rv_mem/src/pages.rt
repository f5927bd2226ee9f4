//! A memory of pages.
mod kept;

ghost use Rattle.std.specs.Prelude.{◌≡◌, ◌≢◌, ◌+◌, ◌*◌, ◌/◌, ◌%◌, ◌^◌, ◌<◌, ◌≤◌, ◌↔◌, IsTrue, IsSome, IfSome, [], length, slice_index, vec_capacity, vec_len, ℕ, None};
ghost use Rattle.std.specs.Bool.{OnTrue, OnFalse};
ghost use Rattle.std.specs.FinMap.{empty, insert};
ghost use Rattle.rv_mem.specs.Bytes.{IsMemory, count_of, byte_at, loaded, stored, IsThere, Overlaps, IsFree, added};
ghost use Rattle.rv_mem.specs.Frames.{ArePages, frame_of, cell_at, values_of};
ghost use Rattle.rv_mem.specs.private.Frames.{KeepsFrames, HaveFrames, kept_in, run_of};

use crate::cells::{append_frame, are_zeros, copy_cells, mark_cells, write_halfword, write_word};
use crate::fault::AddFault;
use crate::memory::{Memory, Width};
use crate::page_table::PageTable;
use std::alloc::{AllocError, Global};

/// How many addresses there are.
const ADDRESSES: u64 = 1 << 32;

/// How many bytes a page has.
const PAGE: u32 = 512;

/// How many cells a frame has: a page's bytes, and after them their marks.
const FRAME: usize = 1024;

/// How many bytes the 128 pages of a chunk of the page table have.
const CHUNK_BYTES: u32 = 65536;

/// The number of a page of zeros that shares frame 2; room is kept for a frame of its own.
const ZEROS: u32 = 2;

/// The offset in a page of the last word that lies in it whole.
const LAST_WORD: u32 = 508;

/// The offset in a page of the last halfword that lies in it whole.
const LAST_HALFWORD: u32 = 510;

/// All marks of a word's bytes.
const FOUR_MARKS: u32 = 0x0101_0101;

/// Both marks of a halfword's bytes.
const TWO_MARKS: u16 = 0x0101;

/// A memory as pages of 512 bytes. As in a machine's page table, each page's number leads to a
/// frame: 1024 of the `cells`, the page's bytes and after them a mark for each, 1 where the byte is
/// there. Pages without a byte share frame 0, or frame 1 where room is kept for one of their own;
/// neither has a mark. Pages of zeros can share frame 2 up to the first store. `cells` has capacity
/// for `kept` frames more, one for each page of number 1 or 2, so that a store needs no memory.
#[derive(Drop)]
pub struct Pages {
    table: PageTable,
    cells: Vec<u8>,
    kept: usize,
    ghost are_pages: { ArePages table cells.items },
    ghost in_range: { IsMemory (values_of (cell_at table cells.items)) },
    ghost counted: { kept_in table ≡ kept },
    ghost room: { vec_len cells + 1024 * kept ≤ vec_capacity cells },
    ghost most: { vec_len cells + 1024 * kept ≤ 2 ^ 41 },
}

impl Pages {
    ghost use Rattle.rv_mem.specs.Pages.{bytes_of};

    /// A memory without any byte.
    pub fn new(alloc: Global) -> Pages
        ensures { bytes_of result ≡ empty }
    {
        Pages {
            table: PageTable::new(alloc),
            cells: Vec::new(alloc),
            kept: 0,
        }
    }

    /// The index in `cells` of the frame of an address's page; `None` if the table ends before the
    /// page.
    #[inline(always)]
    fn frame(&self, at: u32) -> Option<usize>
        ensures value { IfSome result (λ f. f ≡ frame_of self.now.table at) }
        ensures within { IfSome result (λ f. f + 1024 ≤ length self.now.cells.items) }
        ensures none { result ≡ None → cell_at self.now.table self.now.cells.items at ≡ None }
    {
        let number = self.table.get(at / PAGE)?;
        Some(number as usize * FRAME)
    }

    /// The byte at an address, or `None` if none is there.
    #[inline(always)]
    fn byte_at(&self, at: u32) -> Option<u8>
        ensures { result ≡ byte_at (bytes_of self.now) at }
    {
        let place = self.frame(at)? + (at % PAGE) as usize;
        if self.cells[place + PAGE as usize] == 1 {
            Some(self.cells[place])
        } else {
            None
        }
    }

    /// The word at an address, whole in one page, low byte first; `None` if one of its bytes is
    /// missing.
    #[inline(always)]
    fn word_at(&self, at: u32) -> Option<u32>
        requires { at % 512 ≤ 508 }
        ensures { result ≡ loaded (bytes_of self.now) at 4 }
    {
        let place = self.frame(at)? + (at % PAGE) as usize;
        let marks = place + PAGE as usize;
        let all = u32::from_le_bytes([
            self.cells[marks],
            self.cells[marks + 1],
            self.cells[marks + 2],
            self.cells[marks + 3],
        ]);
        if all != FOUR_MARKS {
            return None;
        }
        Some(u32::from_le_bytes([
            self.cells[place],
            self.cells[place + 1],
            self.cells[place + 2],
            self.cells[place + 3],
        ]))
    }

    /// The halfword at an address, whole in one page; `None` if one of its bytes is missing.
    #[inline(always)]
    fn halfword_at(&self, at: u32) -> Option<u16>
        requires { at % 512 ≤ 510 }
        ensures { result ≡ loaded (bytes_of self.now) at 2 }
    {
        let place = self.frame(at)? + (at % PAGE) as usize;
        let marks = place + PAGE as usize;
        let both = u16::from_le_bytes([self.cells[marks], self.cells[marks + 1]]);
        if both != TWO_MARKS {
            return None;
        }
        Some(u16::from_le_bytes([self.cells[place], self.cells[place + 1]]))
    }

    /// Writes the byte of an address that is there, in a page that doesn't share its frame.
    #[inline(always)]
    fn put_byte(&mut self, at: u32, byte: u8)
        requires there { IsSome (byte_at (bytes_of self.old) at) }
        requires own { slice_index self.old.table (at / 512) ≢ 2 }
        ensures { bytes_of self.new ≡ insert (bytes_of self.old) at byte }
    {
        let place = self.frame(at).unwrap() + (at % PAGE) as usize;
        self.cells[place] = byte;
    }

    /// Writes the byte of an address that is there, and first gives its page a frame of its own.
    fn put_own_byte(&mut self, at: u32, byte: u8)
        requires { IsSome (byte_at (bytes_of self.old) at) }
        ensures { bytes_of self.new ≡ insert (bytes_of self.old) at byte }
    {
        self.own_frame(at / PAGE);
        self.put_byte(at, byte);
    }

    /// Whether one of the `count` addresses from `at` on, all in one page, is there.
    fn run_has(&self, at: u32, count: u32) -> bool
        requires { at % 512 + count ≤ 512 }
        ensures found { OnTrue result ((j : ℕ) × (j < count) ×
            IsSome (byte_at (bytes_of self.now) (at + j))) }
        ensures none { OnFalse result ((j : ℕ) → j < count →
            byte_at (bytes_of self.now) (at + j) ≡ None) }
    {
        if self.frame_number(at) == 0 {
            return false;
        }
        for j in 0..count {
            if self.byte_at(at + j).is_some() {
                return true;
            }
        }
        false
    }

    /// The number of an address's page, that of its frame; 0 where the table ends before the page.
    #[inline(always)]
    fn frame_number(&self, at: u32) -> u32
        ensures { result ≡ slice_index self.now.table (at / 512) }
    {
        self.table.number(at / PAGE)
    }

    /// How many of the `most` addresses from `at` on, the first of a chunk, are seen not to be
    /// there, as no page of their chunks has a number: whole chunks before the last address, so it
    /// may be too small.
    fn free_chunks(&self, at: u32, most: u32) -> u32
        requires { at % 65536 ≡ 0 }
        ensures most { result ≤ most }
        ensures end { at + result ≤ 2 ^ 32 }
        ensures none { (j : ℕ) → j < result → byte_at (bytes_of self.now) (at + j) ≡ None }
    {
        let room = most.min(u32::MAX - at);
        let chunks = self.table.free_chunks(at / CHUNK_BYTES, room / CHUNK_BYTES);
        chunks * CHUNK_BYTES
    }

    /// How many of the `most` addresses from `at` on are seen not to be there: those of whole
    /// chunks, or else those up to the end of the page of `at`. 0 if one of the latter is there.
    fn free_run(&self, at: u32, most: u32) -> u32
        requires { 0 < most }
        ensures most { result ≤ most }
        ensures end { at + result ≤ 2 ^ 32 }
        ensures none { (j : ℕ) → j < result → byte_at (bytes_of self.now) (at + j) ≡ None }
        ensures found { result ≡ 0 → (j : ℕ) × (j < most) × (at + j < 2 ^ 32) ×
            IsSome (byte_at (bytes_of self.now) (at + j)) }
    {
        if at % CHUNK_BYTES == 0 {
            let free = self.free_chunks(at, most);
            if free > 0 {
                return free;
            }
        }
        let count = (PAGE - at % PAGE).min(most);
        if self.run_has(at, count) {
            return 0;
        }
        count
    }

    /// Whether one of the `size` addresses from `base` on is there; after the last one comes
    /// address 0.
    fn overlaps(&self, base: u32, size: u32) -> bool
        ensures found { OnTrue result (Overlaps (bytes_of self.now) base size) }
        ensures free { OnFalse result (IsFree (bytes_of self.now) base size) }
    {
        let mut done = 0;
        while done < size {
            let at = base.wrapping_add(done);
            let count = self.free_run(at, size - done);
            if count == 0 {
                return true;
            }
            done += count;
        }
        false
    }

    /// Writes `count` bytes, those of `front` from index `from` on and zeros past its end, to the
    /// addresses from `at` on, all in one page that has its own frame, and marks them as there.
    fn mark_run(&mut self, at: u32, count: u32, front: &[u8], from: u32)
        requires page { at % 512 + count ≤ 512 }
        requires own { 2 < slice_index self.old.table (at / 512) }
        ensures written { (q : ℕ) → byte_at (bytes_of self.new) q ≡
            run_of at count front.now from q (byte_at (bytes_of self.old) q) }
        ensures table { self.new.table ≡ self.old.table }
    {
        let place = self.table.number(at / PAGE) as usize * FRAME + (at % PAGE) as usize;
        mark_cells(&mut self.cells, place, count as usize, front, from as usize);
    }

    /// Does what `mark_run` does in a page that has a number, and gives it a frame of its own if
    /// needed.
    fn put_run(&mut self, at: u32, count: u32, front: &[u8], from: u32)
        requires page { at % 512 + count ≤ 512 }
        requires made { slice_index self.old.table (at / 512) ≢ 0 }
        ensures written { (q : ℕ) → byte_at (bytes_of self.new) q ≡
            run_of at count front.now from q (byte_at (bytes_of self.old) q) }
        ensures kept { KeepsFrames self.old.table self.new.table }
    {
        if self.frame_number(at) <= ZEROS {
            if are_zeros(front, from as usize, count as usize) && self.put_zeros(at, count) {
                return;
            }
            self.own_frame(at / PAGE);
        }
        self.mark_run(at, count, front, from);
    }

    /// Writes `value` as the word at an address, whole in one page; false where a byte of it is
    /// missing, and then nothing changed.
    #[inline(always)]
    fn put_word(&mut self, at: u32, value: u32) -> bool
        requires { at % 512 ≤ 508 }
        ensures there { IsTrue result ↔ IsThere (bytes_of self.old) at 4 }
        ensures done { OnTrue result (bytes_of self.new ≡ stored (bytes_of self.old) at 4 value) }
        ensures refused { OnFalse result (bytes_of self.new ≡ bytes_of self.old) }
    {
        if self.frame_number(at) == ZEROS {
            return self.store_bytes(at, Width::Four, value);
        }
        if self.word_at(at).is_none() {
            return false;
        }
        let place = self.frame(at).unwrap() + (at % PAGE) as usize;
        write_word(&mut self.cells, place, value);
        true
    }

    /// Writes the low halfword of `value` at an address, in one page; false where a byte is
    /// missing, and then nothing changed.
    #[inline(always)]
    fn put_halfword(&mut self, at: u32, value: u32) -> bool
        requires { at % 512 ≤ 510 }
        ensures there { IsTrue result ↔ IsThere (bytes_of self.old) at 2 }
        ensures done { OnTrue result (bytes_of self.new ≡ stored (bytes_of self.old) at 2 value) }
        ensures refused { OnFalse result (bytes_of self.new ≡ bytes_of self.old) }
    {
        if self.frame_number(at) == ZEROS {
            return self.store_bytes(at, Width::Two, value);
        }
        if self.halfword_at(at).is_none() {
            return false;
        }
        let place = self.frame(at).unwrap() + (at % PAGE) as usize;
        write_halfword(&mut self.cells, place, value);
        true
    }

    /// Writes the low byte of `value` at an address; false where it is missing, and then nothing
    /// changed.
    #[inline(always)]
    fn store_byte(&mut self, at: u32, value: u32) -> bool
        ensures there { IsTrue result ↔ IsThere (bytes_of self.old) at 1 }
        ensures done { OnTrue result (bytes_of self.new ≡ stored (bytes_of self.old) at 1 value) }
        ensures refused { OnFalse result (bytes_of self.new ≡ bytes_of self.old) }
    {
        if self.frame_number(at) == ZEROS {
            return self.store_bytes(at, Width::One, value);
        }
        if self.byte_at(at).is_none() {
            return false;
        }
        let [byte, _, _, _] = value.to_le_bytes();
        self.put_byte(at, byte);
        true
    }

    /// A load byte by byte, as its bytes may lie in two pages.
    fn load_bytes(&self, at: u32, width: Width) -> Option<u32>
        ensures value { result ≡ loaded (bytes_of self.now) at (count_of width) }
        ensures fits { IfSome result (λ n. n < 256 ^ count_of width) }
    {
        let byte0 = u32::from(self.byte_at(at)?);
        if width == Width::One {
            return Some(byte0);
        }
        let byte1 = u32::from(self.byte_at(at.wrapping_add(1))?);
        if width == Width::Two {
            return Some(byte0 + byte1 * 0x100);
        }
        let byte2 = u32::from(self.byte_at(at.wrapping_add(2))?);
        let byte3 = u32::from(self.byte_at(at.wrapping_add(3))?);
        Some(byte0 + byte1 * 0x100 + byte2 * 0x1_0000 + byte3 * 0x100_0000)
    }

    /// A store byte by byte, as its bytes may lie in two pages, or in one without a frame of its
    /// own.
    #[tactic(auto, using(crate::proofs::Lookups::stays))]
    fn store_bytes(&mut self, at: u32, width: Width, value: u32) -> bool
        ensures there { IsTrue result ↔ IsThere (bytes_of self.old) at (count_of width) }
        ensures done { OnTrue result
            (bytes_of self.new ≡ stored (bytes_of self.old) at (count_of width) value) }
        ensures refused { OnFalse result (bytes_of self.new ≡ bytes_of self.old) }
    {
        if self.load_bytes(at, width).is_none() {
            return false;
        }
        let [byte0, byte1, byte2, byte3] = value.to_le_bytes();
        self.put_own_byte(at, byte0);
        if width == Width::One {
            return true;
        }
        self.put_own_byte(at.wrapping_add(1), byte1);
        if width == Width::Two {
            return true;
        }
        self.put_own_byte(at.wrapping_add(2), byte2);
        self.put_own_byte(at.wrapping_add(3), byte3);
        true
    }

    /// Writes the next bytes of a fill to the addresses from `at` on, the first in a page that has
    /// a number: those of `front` from index `from` on, and zeros past its end. Writes `most` bytes
    /// at most: whole chunks of zeros, or else up to the end of the page. Answers how many it
    /// wrote, at least 1.
    fn fill_run(&mut self, at: u32, most: u64, front: &[u8], from: u32) -> u64
        requires some { 0 < most }
        requires most { most ≤ 2 ^ 32 }
        requires made { slice_index self.old.table (at / 512) ≢ 0 }
        ensures some { 0 < result }
        ensures most { result ≤ most }
        ensures written { (q : ℕ) → byte_at (bytes_of self.new) q ≡
            run_of at result front.now from q (byte_at (bytes_of self.old) q) }
        ensures kept { KeepsFrames self.old.table self.new.table }
    {
        let zeros = self.put_zero_chunks(at, most, front, from);
        if zeros > 0 {
            return zeros;
        }
        let count = u64::from(PAGE - at % PAGE).min(most);
        self.put_run(at, count as u32, front, from);
        count
    }

    /// Writes `size` bytes to the addresses from `base` on, those of `front` and then zeros, and
    /// marks them as there. All their pages have numbers.
    fn fill(&mut self, base: u32, size: u64, front: &[u8])
        requires end { base + size ≤ 2 ^ 32 }
        requires room { length front.now ≤ size }
        requires made { HaveFrames self.old.table base size }
        ensures { bytes_of self.new ≡ added (bytes_of self.old) base size front.now }
    {
        let mut done = 0;
        while done < size {
            let at = base + done as u32;
            let count = self.fill_run(at, size - done, front, done as u32);
            done += count;
        }
    }
}

impl Memory for Pages {
    ghost use Rattle.rv_mem.specs.Pages.{bytes_of};

    ghost bytes = { bytes_of };

    ghost in_range = { λ m. m.in_range };

    #[inline(always)]
    fn load(&self, at: u32, width: Width) -> Option<u32> {
        if width == Width::Four && at % PAGE <= LAST_WORD {
            return self.word_at(at);
        }
        if width == Width::One {
            let byte = self.byte_at(at)?;
            return Some(u32::from(byte));
        }
        if width == Width::Two && at % PAGE <= LAST_HALFWORD {
            let halfword = self.halfword_at(at)?;
            return Some(u32::from(halfword));
        }
        self.load_bytes(at, width)
    }

    fn fetch16(&self, at: u32) -> Option<u16> {
        if at % PAGE <= LAST_HALFWORD {
            return self.halfword_at(at);
        }
        let low = self.byte_at(at)?;
        let high = self.byte_at(at.wrapping_add(1))?;
        Some(u16::from_le_bytes([low, high]))
    }

    #[inline(always)]
    fn store(&mut self, at: u32, width: Width, value: u32) -> bool {
        if width == Width::Four && at % PAGE <= LAST_WORD {
            return self.put_word(at, value);
        }
        if width == Width::One {
            return self.store_byte(at, value);
        }
        if width == Width::Two && at % PAGE <= LAST_HALFWORD {
            return self.put_halfword(at, value);
        }
        self.store_bytes(at, width, value)
    }

    fn copy_out(&self, at: u32, room: &mut [u8]) {
        let mut done = 0;
        while done < room.len() {
            let from = at + done as u32;
            let count = ((PAGE - from % PAGE) as usize).min(room.len() - done);
            let place = self.frame(from).unwrap() + (from % PAGE) as usize;
            copy_cells(&self.cells, place, count, room, done);
            done += count;
        }
    }

    fn copy_in(&mut self, at: u32, copied: &[u8]) {
        self.fill(at, copied.len() as u64, copied);
    }

    fn clear(&mut self, at: u32, count: u32) {
        self.fill(at, u64::from(count), &[]);
    }

    fn add(&mut self, base: u32, size: u32, front: &[u8]) -> Result<(), AddFault> {
        if self.overlaps(base, size) {
            return Err(AddFault::Overlap);
        }
        if u64::from(base) + u64::from(size) > ADDRESSES {
            return Err(AddFault::End);
        }
        if self.make_pages(base, size).is_err() {
            return Err(AddFault::Memory);
        }
        self.fill(base, u64::from(size), front);
        Ok(())
    }
}
