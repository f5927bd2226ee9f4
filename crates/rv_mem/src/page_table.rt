//! A page table in two levels: a number for each page of 512 addresses, which leads to the page's
//! frame in [`Pages`](crate::pages::Pages). It is 0 where the page has no byte; 1 where it has
//! none, but room is kept for a frame of its own; 2 where its bytes are all there and zeros, and
//! room is kept likewise; else the index of a frame of its own. A page *has a number* if that isn't
//! 0.
//!
//! The first level has an entry for each chunk, 128 pages in a row: the index of a leaf. A leaf of
//! the second level is the numbers of such 128 pages. Leaves 0, 1 and 2 are shared by chunks whose
//! pages all have that number; each other leaf is that of one chunk.
ghost use Rattle.std.specs.Prelude.{◌≡◌, ◌≢◌, ◌+◌, ◌*◌, ◌/◌, ◌^◌, ◌<◌, ◌≤◌, [], ℕ, IfOk, IfSome, IsOk, IsSome, None, OnOk, OnErr, length, slice_index, slice_set, vec_capacity, vec_len};
ghost use Rattle.rv_mem.specs.private.Frames.{number_at, kept_for, IsTable, HasLeafRoom, Puts};

use std::alloc::{AllocError, Global};
use std::marker::Model;

/// How many pages a chunk has.
const CHUNK: u32 = 128;

/// How many numbers a leaf has.
const LEAF: usize = 128;

/// The number that says that room is kept for a page without bytes, and the leaf with that number
/// alone.
const KEPT: u32 = 1;

/// The number of each page of zeros, and the leaf with that number alone, the last that chunks
/// share.
const ZEROS: u32 = 2;

/// The most numbers of all leaves together: so few that the index of a leaf has 32 bits.
const MOST: usize = 1 << 39;

/// A number for each page, up to some page: `chunks` has the index of each chunk's leaf, and
/// `leaves` the leaves one after another. A chunk whose pages all have the number 0, 1 or 2 can
/// share the leaf of that number. `leaves` has capacity for `kept` more, one for each chunk that
/// shares leaf 1 or 2, so that a page of such a chunk gets another number without more memory.
/// Contracts see the list of all numbers.
#[derive(Drop)]
pub struct PageTable {
    chunks: Vec<u32>,
    leaves: Vec<u32>,
    kept: usize,
}

impl Model for PageTable {
    ghost use Rattle.std.specs.Prelude.{List, ℕ, vec_capacity, vec_len};
    ghost use Rattle.rv_mem.specs.private.Frames.{numbers_of, IsTable, HasLeafRoom};

    ghost Value = { List ℕ };

    ghost view = { λ t. numbers_of t.chunks.items t.leaves.items };

    ghost invariant = { λ t. IsTable t.chunks.items t.leaves.items
        × HasLeafRoom t.chunks.items (vec_len t.leaves) (vec_capacity t.leaves) t.kept };
}

/// Lengthens `numbers` to `n`, the new ones 0, with no more capacity than that takes. The one error
/// is that memory ran out; the length stays then.
fn lengthen_by_zeros(numbers: &mut Vec<u32>, n: usize) -> Result<(), AllocError>
    requires { length numbers.old.items ≤ n }
    ensures same { (k : ℕ) → slice_index numbers.new.items k ≡ slice_index numbers.old.items k }
    ensures ok { OnOk result (length numbers.new.items ≡ n) }
    ensures err { OnErr result (length numbers.new.items ≡ length numbers.old.items) }
{
    numbers.reserve_exact(n - numbers.len())?;
    numbers.resize(n, 0)
}

/// Appends a leaf with `number` for each of its 128 pages. The capacity suffices, so that this
/// doesn't fail.
fn append_leaf(leaves: &mut Vec<u32>, number: u32)
    requires room { vec_len leaves.old + 128 ≤ vec_capacity leaves.old }
    ensures size { length leaves.new.items ≡ length leaves.old.items + 128 }
    ensures before { (k : ℕ) → k < length leaves.old.items
        → slice_index leaves.new.items k ≡ slice_index leaves.old.items k }
    ensures number { (k : ℕ) → length leaves.old.items ≤ k → k < length leaves.old.items + 128
        → slice_index leaves.new.items k ≡ number }
    ensures capacity { vec_capacity leaves.old ≤ vec_capacity leaves.new }
{
    leaves.resize(leaves.len() + LEAF, number).unwrap();
}

/// Appends leaves 0, 1 and 2, which chunks share: leaf n has the number n for each page.
fn append_shared_leaves(leaves: &mut Vec<u32>) -> Result<(), AllocError>
    requires { length leaves.old.items ≡ 0 }
    ensures size { OnOk result (length leaves.new.items ≡ 384) }
    ensures shared { OnOk result ((k : ℕ) → k < 384 → slice_index leaves.new.items k ≡ k / 128) }
    ensures capacity { vec_len leaves.new ≤ vec_capacity leaves.new }
    ensures err { OnErr result (length leaves.new.items ≡ 0) }
{
    leaves.reserve_exact(3 * LEAF)?;
    append_leaf(leaves, 0);
    append_leaf(leaves, KEPT);
    append_leaf(leaves, ZEROS);
    Ok(())
}

/// Appends the leaves that chunks share, unless they are there already.
fn make_shared_leaves(chunks: &Vec<u32>, leaves: &mut Vec<u32>) -> Result<(), AllocError>
    requires { IsTable chunks.now.items leaves.old.items }
    ensures is { IsTable chunks.now.items leaves.new.items }
    ensures keeps { (kept : ℕ)
        → HasLeafRoom chunks.now.items (vec_len leaves.old) (vec_capacity leaves.old) kept
        → HasLeafRoom chunks.now.items (vec_len leaves.new) (vec_capacity leaves.new) kept }
    ensures same { (page : ℕ) → number_at chunks.now.items leaves.new.items page
        ≡ number_at chunks.now.items leaves.old.items page }
    ensures made { OnOk result (384 ≤ length leaves.new.items) }
{
    if !leaves.is_empty() {
        return Ok(());
    }
    append_shared_leaves(leaves)?;
    Ok(())
}

/// Makes sure that there is an entry for `chunk`, and that the shared leaves are there. New chunks
/// share leaf 0: their pages have no number.
fn make_chunk(chunks: &mut Vec<u32>, leaves: &mut Vec<u32>, chunk: usize) -> Result<(), AllocError>
    requires is { IsTable chunks.old.items leaves.old.items }
    requires chunk { chunk < 2 ^ 16 }
    ensures is { IsTable chunks.new.items leaves.new.items }
    ensures keeps { (kept : ℕ)
        → HasLeafRoom chunks.old.items (vec_len leaves.old) (vec_capacity leaves.old) kept
        → HasLeafRoom chunks.new.items (vec_len leaves.new) (vec_capacity leaves.new) kept }
    ensures same { (page : ℕ) → number_at chunks.new.items leaves.new.items page
        ≡ number_at chunks.old.items leaves.old.items page }
    ensures room { OnOk result (chunk < length chunks.new.items) }
{
    make_shared_leaves(chunks, leaves)?;
    if chunk >= chunks.len() {
        lengthen_by_zeros(chunks, chunk + 1)?;
    }
    Ok(())
}

/// Reserves capacity for `count` leaves more than the `kept` for which room is kept. It fails where
/// memory ran out, or where the index of a leaf could have more than 32 bits.
fn reserve_leaves(leaves: &mut Vec<u32>, kept: usize, count: usize) -> Result<(), AllocError>
    requires old { vec_len leaves.old + 128 * kept ≤ 2 ^ 39 }
    requires count { count ≤ 2 ^ 16 }
    ensures same { leaves.new.items ≡ leaves.old.items }
    ensures len { vec_len leaves.new ≡ vec_len leaves.old }
    ensures capacity { vec_capacity leaves.old ≤ vec_capacity leaves.new }
    ensures room { OnOk result (vec_len leaves.new + 128 * (kept + count) ≤ vec_capacity leaves.new) }
    ensures most { OnOk result (vec_len leaves.new + 128 * (kept + count) ≤ 2 ^ 39) }
{
    let wanted = (kept + count) * LEAF;
    if leaves.len() + wanted > MOST {
        return Err(AllocError);
    }
    leaves.reserve_exact(wanted)
}

/// Makes sure of room for a leaf of its own for a chunk that shares leaf `shared`: one of the
/// `kept` that was kept for the chunk if that is leaf 1 or 2, and new capacity if it is leaf 0.
/// Answers how many leaves room is kept for beside that one.
fn take_room(leaves: &mut Vec<u32>, kept: usize, shared: u32) -> Result<usize, AllocError>
    requires room { vec_len leaves.old + 128 * kept ≤ vec_capacity leaves.old }
    requires most { vec_len leaves.old + 128 * kept ≤ 2 ^ 39 }
    requires one { kept_for shared ≤ kept }
    requires shared { shared ≤ 2 }
    ensures same { leaves.new.items ≡ leaves.old.items }
    ensures len { vec_len leaves.new ≡ vec_len leaves.old }
    ensures capacity { vec_capacity leaves.old ≤ vec_capacity leaves.new }
    ensures count { IfOk result (λ n. n + kept_for shared ≡ kept) }
    ensures room { IfOk result (λ n. vec_len leaves.new + 128 * (n + 1) ≤ vec_capacity leaves.new) }
    ensures most { IfOk result (λ n. vec_len leaves.new + 128 * (n + 1) ≤ 2 ^ 39) }
    ensures there { shared ≢ 0 → IsOk result }
{
    if shared > 0 {
        return Ok(kept - 1);
    }
    reserve_leaves(leaves, kept, 1)?;
    Ok(kept)
}

/// Gives `chunk` a leaf of its own with the same numbers, if it shares one. `kept` is how many
/// leaves room is kept for, and the result how many it is kept for then. Only a chunk that shares
/// leaf 0 can fail, where memory ran out.
fn make_leaf(
    chunks: &mut Vec<u32>,
    leaves: &mut Vec<u32>,
    kept: usize,
    chunk: usize,
) -> Result<usize, AllocError>
    requires is { IsTable chunks.old.items leaves.old.items }
    requires room { HasLeafRoom chunks.old.items (vec_len leaves.old) (vec_capacity leaves.old) kept }
    requires chunk { chunk < length chunks.old.items }
    ensures is { IsTable chunks.new.items leaves.new.items }
    ensures room { IfOk result
        (HasLeafRoom chunks.new.items (vec_len leaves.new) (vec_capacity leaves.new)) }
    ensures err { OnErr result
        (HasLeafRoom chunks.new.items (vec_len leaves.new) (vec_capacity leaves.new) kept) }
    ensures same { (page : ℕ) → number_at chunks.new.items leaves.new.items page
        ≡ number_at chunks.old.items leaves.old.items page }
    ensures count { length chunks.new.items ≡ length chunks.old.items }
    ensures made { OnOk result (2 < slice_index chunks.new.items chunk) }
    ensures there { slice_index chunks.old.items chunk ≢ 0 → IsOk result }
{
    let shared = chunks[chunk];
    if shared > ZEROS {
        return Ok(kept);
    }
    let rest = take_room(leaves, kept, shared)?;
    chunks[chunk] = (leaves.len() / LEAF) as u32;
    append_leaf(leaves, shared);
    Ok(rest)
}

/// Writes the number of a page whose chunk has a leaf of its own.
fn write_number(chunks: &Vec<u32>, leaves: &mut Vec<u32>, page: u32, number: u32)
    requires is { IsTable chunks.now.items leaves.old.items }
    requires page { page / 128 < length chunks.now.items }
    requires made { 2 < slice_index chunks.now.items (page / 128) }
    ensures is { IsTable chunks.now.items leaves.new.items }
    ensures here { number_at chunks.now.items leaves.new.items page ≡ number }
    ensures others { (other : ℕ) → other ≢ page
        → number_at chunks.now.items leaves.new.items other
        ≡ number_at chunks.now.items leaves.old.items other }
    ensures len { vec_len leaves.new ≡ vec_len leaves.old }
    ensures capacity { vec_capacity leaves.new ≡ vec_capacity leaves.old }
{
    let leaf = chunks[(page / CHUNK) as usize] as usize;
    leaves[leaf * LEAF + (page % CHUNK) as usize] = number;
}

/// How many chunks in a row from `first` on, `most` at most, share leaf `leaf`.
fn shared_run(chunks: &Vec<u32>, first: usize, most: usize, leaf: u32) -> usize
    requires { first < length chunks.now.items }
    ensures most { result ≤ most }
    ensures within { first + result ≤ length chunks.now.items }
    ensures there { (k : ℕ) → k < result → slice_index chunks.now.items (first + k) ≡ leaf }
{
    let count = most.min(chunks.len() - first);
    for k in 0..count {
        if chunks[first + k] != leaf {
            return k;
        }
    }
    count
}

/// Writes `number` to the `count` entries from index `first` on.
fn put_number(numbers: &mut [u32], first: usize, count: usize, number: u32)
    requires { first + count ≤ length numbers.old }
    ensures { Puts numbers.old numbers.new first count (λ j. number) }
{
    numbers[first..first + count].fill(number);
}

/// Lets the `count` chunks from `first` on share leaf `leaf`.
fn write_chunks(chunks: &mut Vec<u32>, first: usize, count: usize, leaf: u32)
    requires { first + count ≤ length chunks.old.items }
    ensures { Puts chunks.old.items chunks.new.items first count (λ j. leaf) }
{
    put_number(chunks, first, count, leaf);
}

/// Lets the chunks in a row from `first` on, `most` at most, that share leaf 0 share leaf 1, and
/// reserves capacity for a leaf of each, beside `kept`. Answers how many chunks that are.
fn keep_run(
    chunks: &mut Vec<u32>,
    leaves: &mut Vec<u32>,
    kept: usize,
    first: usize,
    most: usize,
) -> Result<usize, AllocError>
    requires is { IsTable chunks.old.items leaves.old.items }
    requires room { HasLeafRoom chunks.old.items (vec_len leaves.old) (vec_capacity leaves.old) kept }
    requires first { first < length chunks.old.items }
    ensures leaves { leaves.new.items ≡ leaves.old.items }
    ensures room { IfOk result (λ n.
        HasLeafRoom chunks.new.items (vec_len leaves.new) (vec_capacity leaves.new) (kept + n)) }
    ensures most { IfOk result (λ n. n ≤ most) }
    ensures within { IfOk result (λ n. first + n ≤ length chunks.old.items) }
    ensures none { IfOk result (λ n. (k : ℕ) → k < n
        → slice_index chunks.old.items (first + k) ≡ 0) }
    ensures put { IfOk result (λ n. Puts chunks.old.items chunks.new.items first n (λ j. 1)) }
    ensures err { OnErr result (chunks.new.items ≡ chunks.old.items) }
    ensures err_room { OnErr result
        (HasLeafRoom chunks.new.items (vec_len leaves.new) (vec_capacity leaves.new) kept) }
{
    let count = shared_run(chunks, first, most, 0);
    reserve_leaves(leaves, kept, count)?;
    write_chunks(chunks, first, count, KEPT);
    Ok(count)
}

/// Makes pages of zeros of the chunks in a row from `first` on, `most` at most, that all share leaf
/// 2, which then stay as they are, or that all share leaf 1, which then share leaf 2. Answers how
/// many chunks that are: 0 where the first shares neither.
fn clear_run(chunks: &mut Vec<u32>, first: usize, most: usize) -> usize
    requires { first < length chunks.old.items }
    ensures most { result ≤ most }
    ensures within { first + result ≤ length chunks.old.items }
    ensures some { (k : ℕ) → k < result → slice_index chunks.old.items (first + k) ≢ 0 }
    ensures few { (k : ℕ) → k < result → slice_index chunks.old.items (first + k) ≤ 2 }
    ensures put { Puts chunks.old.items chunks.new.items first result (λ j. 2) }
{
    let zeros = shared_run(chunks, first, most, ZEROS);
    if zeros > 0 {
        return zeros;
    }
    let count = shared_run(chunks, first, most, KEPT);
    write_chunks(chunks, first, count, ZEROS);
    count
}

impl PageTable {
    /// A table without a page.
    pub(crate) fn new(alloc: Global) -> PageTable
        ensures { result ≡ [] }
    {
        PageTable {
            chunks: Vec::new(alloc),
            leaves: Vec::new(alloc),
            kept: 0,
        }
    }

    /// The number of a page; `None` for one past the last.
    #[inline(always)]
    pub(crate) fn get(&self, page: u32) -> Option<u32>
        ensures value { IfSome result (λ n. n ≡ slice_index self.now page) }
        ensures there { IsSome result → page < length self.now }
        ensures none { result ≡ None → length self.now ≤ page }
    {
        let leaf = self.chunks.get((page / CHUNK) as usize)?;
        Some(self.leaves[*leaf as usize * LEAF + (page % CHUNK) as usize])
    }

    /// The number of a page; 0 for one past the last.
    pub(crate) fn number(&self, page: u32) -> u32
        ensures { result ≡ slice_index self.now page }
    {
        self.get(page).unwrap_or(0)
    }

    /// Makes sure that the table has `page`; new pages get the number 0. The one error is that
    /// memory ran out.
    pub(crate) fn lengthen(&mut self, page: u32) -> Result<(), AllocError>
        requires { page < 2 ^ 23 }
        ensures same { (k : ℕ) → slice_index self.new k ≡ slice_index self.old k }
        ensures count { length self.new ≤ 2 ^ 23 }
        ensures room { OnOk result (page < length self.new) }
    {
        make_chunk(&mut self.chunks, &mut self.leaves, (page / CHUNK) as usize)?;
        Ok(())
    }

    /// Sets the number of a page that the table has. The one error is that memory ran out; nothing
    /// is changed then. Where the page had a number, other than 0, it doesn't fail.
    pub(crate) fn set(&mut self, page: u32, number: u32) -> Result<(), AllocError>
        requires { page < length self.old }
        ensures ok { OnOk result (self.new ≡ slice_set self.old page number) }
        ensures err { OnErr result (self.new ≡ self.old) }
        ensures there { slice_index self.old page ≢ 0 → IsOk result }
    {
        let chunk = (page / CHUNK) as usize;
        self.kept = make_leaf(&mut self.chunks, &mut self.leaves, self.kept, chunk)?;
        write_number(&self.chunks, &mut self.leaves, page, number);
        Ok(())
    }

    /// How many chunks in a row from `first` on, `most` at most, are seen to have no page with a
    /// number: they share leaf 0, or lie past the end. A chunk with a leaf of its own isn't looked
    /// into, so that the answer may be too small.
    pub(crate) fn free_chunks(&self, first: u32, most: u32) -> u32
        ensures most { result ≤ most }
        ensures none { (k : ℕ) → k < result * 128
            → slice_index self.now (first * 128 + k) ≡ 0 }
    {
        if first as usize >= self.chunks.len() {
            return most;
        }
        shared_run(&self.chunks, first as usize, most as usize, 0) as u32
    }

    /// Gives number 1 to all pages of the chunks in a row from `first` on, `most` at most, that
    /// share leaf 0: how many chunks that are. A chunk with a leaf of its own ends the row, even if
    /// no page of it has a number. The one error is that memory ran out; nothing is changed then.
    pub(crate) fn keep_chunks(&mut self, first: u32, most: u32) -> Result<u32, AllocError>
        requires { first * 128 < length self.old }
        ensures most { IfOk result (λ n. n ≤ most) }
        ensures within { IfOk result (λ n. first * 128 + n * 128 ≤ length self.old) }
        ensures none { IfOk result (λ n. (k : ℕ) → k < n * 128
            → slice_index self.old (first * 128 + k) ≡ 0) }
        ensures put { IfOk result (λ n. Puts self.old self.new (first * 128) (n * 128) (λ j. 1)) }
        ensures err { OnErr result (self.new ≡ self.old) }
    {
        let count = keep_run(
            &mut self.chunks,
            &mut self.leaves,
            self.kept,
            first as usize,
            most as usize,
        )?;
        self.kept += count;
        Ok(count as u32)
    }

    /// Gives number 2 to all pages of the chunks in a row from `first` on, `most` at most, that all
    /// share leaf 1, or all leaf 2: how many chunks that are, 0 where the first has a leaf of its
    /// own or no number.
    pub(crate) fn clear_chunks(&mut self, first: u32, most: u32) -> u32
        requires { first * 128 < length self.old }
        ensures most { result ≤ most }
        ensures kept { (k : ℕ) → k < result * 128
            → kept_for (slice_index self.old (first * 128 + k)) ≡ 1 }
        ensures put { Puts self.old self.new (first * 128) (result * 128) (λ j. 2) }
    {
        clear_run(&mut self.chunks, first as usize, most as usize) as u32
    }
}
