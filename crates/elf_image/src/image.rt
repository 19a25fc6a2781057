ghost use Rattle.std.specs.Prelude.{◌≡◌, ℕ, ◌+◌, ◌-◌, ◌^◌, ◌<◌, ◌≤◌, length, find, option_map, IfSome, Contains, IsTrue, All, AllPairs};
ghost use Rattle.std.specs.List.{AllWithin};
ghost use Rattle.elf_spec.specs.Number.{u32_at};
ghost use Rattle.elf_spec.specs.Parcel.{parcel_at, long_at, HasParcel, IsNextParcel};
ghost use Rattle.elf_spec.specs.Word.{has_bytes, segment_with, place_in, word_at, HasWord, IsNextWord};
ghost use Rattle.elf_image.specs.Among.{IsNextIn, IsNextAmong};
ghost use Rattle.elf_image.specs.Fits.{EndsBefore, Fits};

use crate::number::{u16_at, u32_at};
use elf_spec::Segment;
use std::marker::Model;

/// An executable: the bytes of its file, its executable segments and its entry. Its calls take no memory.
#[derive(Drop)]
pub struct Image {
    pub(crate) file: Vec<u8>,
    pub(crate) segments: Vec<Segment>,
    pub(crate) entry: u32,
}

impl Model for Image {
    ghost use Rattle.elf_spec.specs.Image.{Image as Kept};
    ghost use Rattle.elf_image.specs.Fits.{Fits};

    ghost Value = { Kept };

    ghost view = { λ i. record { file = i.file.items; segments = i.segments.items; entry = i.entry } };

    ghost invariant = { λ i. Fits i.file.items i.segments.items };
}

impl Image {
    /// The address at which the program begins, as the file's header says.
    pub fn entry(&self) -> u32
        ensures { result ≡ self.now.entry }
    {
        self.entry
    }

    /// The executable segments, in rising order of address: at most 64 of them, none empty, each of which ends at or
    /// before the next begins. They lie in the file, and their words and parcels end at or below 2^32.
    pub fn segments(&self) -> &[Segment]
        ensures same { result.now ≡ self.now.segments }
        ensures fit { Fits self.now.file self.now.segments }
        ensures words { (p : ℕ) → HasWord self.now p → p + 4 ≤ 2 ^ 32 }
        ensures parcels { (p : ℕ) → HasParcel self.now p → p + 2 ≤ 2 ^ 32 }
    {
        &self.segments
    }

    /// The word at an address, little endian. None where the address is no multiple of 4 or its four bytes don't lie in
    /// one executable segment.
    #[tactic(auto, unfolding(elf_spec::specs::Word::word_at))]
    pub fn word(&self, p: u32) -> Option<u32>
        ensures word { result ≡ word_at self.now p }
        ensures end { IfSome result (λ _. p + 4 ≤ 2 ^ 32) }
    {
        if p % 4 != 0 {
            return None;
        }
        self.four_bytes(p)
    }

    /// The least address at or above one that has a word. None exactly where there is none.
    pub fn word_from(&self, p: u32) -> Option<u32>
        ensures { IsNextWord self.now p result }
    {
        next_from(&self.segments, p, 4)
    }

    /// The parcel at an address, little endian. None where the address is odd or its two bytes don't lie in one
    /// executable segment.
    #[tactic(auto, unfolding(elf_spec::specs::Parcel::parcel_at))]
    pub fn parcel(&self, p: u32) -> Option<u16>
        ensures parcel { result ≡ parcel_at self.now p }
        ensures end { IfSome result (λ _. p + 2 ≤ 2 ^ 32) }
    {
        if p % 2 != 0 {
            return None;
        }
        match segment_of(&self.segments, p, 2) {
            Some(segment) => Some(u16_at(&self.file, place_in(&segment, p))),
            None => None,
        }
    }

    /// The number of the four bytes from an address on, little endian. None where the address is odd or they don't lie
    /// in one executable segment.
    #[tactic(auto, unfolding(elf_spec::specs::Parcel::long_at))]
    pub fn long(&self, p: u32) -> Option<u32>
        ensures long { result ≡ long_at self.now p }
        ensures end { IfSome result (λ _. p + 4 ≤ 2 ^ 32) }
    {
        if p % 2 != 0 {
            return None;
        }
        self.four_bytes(p)
    }

    /// The least address at or above one that has a parcel. None exactly where there is none.
    pub fn parcel_from(&self, p: u32) -> Option<u32>
        ensures { IsNextParcel self.now p result }
    {
        next_from(&self.segments, p, 2)
    }

    /// The number of the four bytes from any address on.
    fn four_bytes(&self, p: u32) -> Option<u32>
        ensures bytes { result ≡ option_map (λ s. u32_at self.now.file (place_in s p)) (segment_with 4 self.now p) }
        ensures end { IfSome result (λ _. p + 4 ≤ 2 ^ 32) }
    {
        match segment_of(&self.segments, p, 4) {
            Some(segment) => Some(u32_at(&self.file, place_in(&segment, p))),
            None => None,
        }
    }
}

/// The least multiple of `size` at or above an address from which on that many bytes lie in one segment.
fn next_from(segments: &[Segment], p: u32, size: u32) -> Option<u32>
    requires rising { AllPairs EndsBefore segments.now }
    requires below { All (λ s. s.at + s.size ≤ 2 ^ 32) segments.now }
    requires some { 0 < size }
    ensures { IsNextAmong size segments.now p result }
{
    let first = ended_by(segments, p);
    for segment in &segments[first..] {
        if let Some(item) = first_in(segment, p, size) {
            return Some(item);
        }
    }
    None
}

/// The same in one segment.
#[tactic(auto, using(crate::proofs::Multiple::least_multiple))]
fn first_in(segment: &Segment, p: u32, size: u32) -> Option<u32>
    requires below { segment.now.at + segment.now.size ≤ 2 ^ 32 }
    requires some { 0 < size }
    ensures { IsNextIn size segment.now p result }
{
    let size = size as u64;
    let least = (segment.at.max(p) as u64).div_ceil(size) * size;
    if least + size <= end_of(segment) {
        Some(least as u32)
    } else {
        None
    }
}

fn covers(segment: &Segment, p: u32, size: u32) -> bool
    ensures { result ≡ has_bytes size p segment.now }
{
    segment.at <= p && p as u64 + size as u64 <= end_of(segment)
}

/// Where the byte at an address of a segment lies in the file.
fn place_in(segment: &Segment, p: u32) -> usize
    requires begun { segment.now.at ≤ p }
    requires inside { segment.now.offset + (p - segment.now.at) < 2 ^ 32 }
    ensures { result ≡ place_in segment.now p }
{
    (segment.offset + (p - segment.at)) as usize
}

/// The address right after a segment.
fn end_of(segment: &Segment) -> u64
    ensures { result ≡ segment.now.at + segment.now.size }
{
    segment.at as u64 + segment.size as u64
}

/// The segment in which `size` bytes lie from an address on: only the last one that begins at or below it can.
fn segment_of(segments: &[Segment], p: u32, size: u32) -> Option<Segment>
    requires rising { AllPairs EndsBefore segments.now }
    requires some { 0 < size }
    ensures first { result ≡ find (has_bytes size p) segments.now }
    ensures within { IfSome result (Contains segments.now) }
    ensures covers { IfSome result (λ s. IsTrue (has_bytes size p s)) }
{
    let begun = begun_by(segments, p);
    if begun == 0 {
        return None;
    }
    let last = segments[begun - 1];
    if covers(&last, p, size) {
        Some(last)
    } else {
        None
    }
}

/// How many segments begin at or below an address: these are the first ones.
fn begun_by(segments: &[Segment], p: u32) -> usize
    requires { AllPairs EndsBefore segments.now }
    ensures begun { AllWithin (λ s. s.at ≤ p) segments.now 0 result }
    ensures above { AllWithin (λ s. p < s.at) segments.now result (length segments.now) }
    ensures within { result ≤ length segments.now }
{
    segments.partition_point(|s| s.at <= p)
}

/// How many segments end at or below an address: these are the first ones.
fn ended_by(segments: &[Segment], p: u32) -> usize
    requires { AllPairs EndsBefore segments.now }
    ensures ended { AllWithin (λ s. s.at + s.size ≤ p) segments.now 0 result }
    ensures within { result ≤ length segments.now }
{
    segments.partition_point(|s| end_of(s) <= p as u64)
}
