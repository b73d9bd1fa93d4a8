//! A frame: the bytes of a page.
ghost use Rattle.std.specs.Prelude.{◌≡◌, ◌≢◌, ◌+◌, ◌≤◌, ◌<◌, [], ◌∷◌, ◌^◌, length, slice_index, slice_set, replicate};
ghost use Rattle.std.specs.Int.{w16, w32, w64, from_le_bytes};
ghost use Rattle.page_tables.specs.Frame.{zero_frame, frame_of, frame_bytes, part_of, patched};

use model_numbers::PAGE_BYTES;

/// The bytes of a page, which one entry of a leaf has, or several.
#[derive(Drop)]
pub struct Frame {
    /// The bytes, from the first of the page on.
    pub bytes: [u8; PAGE_BYTES as usize],
}

impl Frame {
    /// A frame of zeros.
    pub fn zeros() -> Frame
        ensures { result ≡ zero_frame }
    {
        Frame {
            bytes: [0; PAGE_BYTES as usize],
        }
    }

    /// Puts so many bytes of another frame in, from these offsets on.
    fn take_part(&mut self, offset: usize, from: &Frame, start: usize, count: usize)
        requires from_room { start + count ≤ length from.now.bytes }
        requires room { offset + count ≤ length self.old.bytes }
        ensures { self.new.bytes ≡ patched self.old.bytes offset (part_of from.now.bytes start count) }
    {
        put(&mut self.bytes, offset, &from.bytes[start..start + count]);
    }
}

/// The number in 2 bytes, the lowest byte first.
#[inline]
pub fn u16_in(bytes: &[u8], offset: usize) -> u16
    requires { offset + 2 ≤ length bytes.now }
    ensures { result ≡ from_le_bytes w16 (slice_index bytes.now offset ∷ slice_index bytes.now (offset + 1) ∷ []) }
{
    u16::from_le_bytes([bytes[offset], bytes[offset + 1]])
}

/// The number in 4 bytes, the lowest byte first.
#[inline]
pub fn u32_in(bytes: &[u8], offset: usize) -> u32
    requires { offset + 4 ≤ length bytes.now }
    ensures { result ≡ from_le_bytes w32 (slice_index bytes.now offset ∷ slice_index bytes.now (offset + 1)
        ∷ slice_index bytes.now (offset + 2) ∷ slice_index bytes.now (offset + 3) ∷ []) }
{
    u32::from_le_bytes([
        bytes[offset],
        bytes[offset + 1],
        bytes[offset + 2],
        bytes[offset + 3],
    ])
}

/// The number in 8 bytes, the lowest byte first.
#[inline]
pub fn u64_in(bytes: &[u8], offset: usize) -> u64
    requires { offset + 8 ≤ length bytes.now }
    ensures { result ≡ from_le_bytes w64 (slice_index bytes.now offset ∷ slice_index bytes.now (offset + 1)
        ∷ slice_index bytes.now (offset + 2) ∷ slice_index bytes.now (offset + 3)
        ∷ slice_index bytes.now (offset + 4) ∷ slice_index bytes.now (offset + 5)
        ∷ slice_index bytes.now (offset + 6) ∷ slice_index bytes.now (offset + 7) ∷ []) }
{
    u64::from_le_bytes([
        bytes[offset],
        bytes[offset + 1],
        bytes[offset + 2],
        bytes[offset + 3],
        bytes[offset + 4],
        bytes[offset + 5],
        bytes[offset + 6],
        bytes[offset + 7],
    ])
}

/// Puts bytes in from an offset on.
#[inline]
pub fn put(bytes: &mut [u8], offset: usize, new: &[u8])
    requires room { offset + length new.now ≤ length bytes.old }
    ensures after { bytes.new ≡ patched bytes.old offset new.now }
{
    let end = offset + new.len();
    bytes[offset..end].copy_from_slice(new);
}

/// Makes each byte 0.
pub fn clear(bytes: &mut [u8])
    ensures { bytes.new ≡ replicate (length bytes.old) 0 }
{
    bytes.fill(0);
}

/// Gives a frame the bytes of another.
pub fn copy_bytes(frames: &mut [Frame], from: usize, to: usize)
    requires from_within { from < length frames.old }
    requires to_within { to < length frames.old }
    requires apart { from ≢ to }
    ensures { frames.new ≡ slice_set frames.old to (frame_of frames.old from) }
{
    if from < to {
        let (low, high) = frames.split_at_mut(to);
        high[0].bytes.copy_from_slice(&low[from].bytes);
    } else {
        let (low, high) = frames.split_at_mut(from);
        low[to].bytes.copy_from_slice(&high[0].bytes);
    }
}

/// Puts so many bytes of one frame into another, from these offsets on.
pub fn copy_part(
    frames: &mut [Frame],
    from: usize,
    start: usize,
    to: usize,
    offset: usize,
    count: usize,
)
    requires from_within { from < length frames.old }
    requires to_within { to < length frames.old }
    requires apart { from ≢ to }
    requires from_room { start + count ≤ length (frame_bytes frames.old from) }
    requires to_room { offset + count ≤ length (frame_bytes frames.old to) }
    ensures { frames.new ≡ slice_set frames.old to (record { bytes = patched (frame_bytes frames.old to) offset (part_of (frame_bytes frames.old from) start count) }) }
{
    if from < to {
        let (low, high) = frames.split_at_mut(to);
        high[0].take_part(offset, &low[from], start, count);
    } else {
        let (low, high) = frames.split_at_mut(from);
        low[to].take_part(offset, &high[0], start, count);
    }
}
