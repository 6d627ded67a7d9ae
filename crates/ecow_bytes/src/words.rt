//! A few bytes as two words.
ghost use Rattle.std.specs.Prelude.{◌≡◌, ◌<◌, ◌≤◌, ◌↔◌, ◌^◌, ◌-◌, ◌*◌, IsAscii, length, take, drop, true};
ghost use Rattle.ecow_bytes.specs.Digits.{number};

/// At most 15 bytes as two words: the first eight bytes in the first word, and each word with its
/// lowest byte first. The ends are read as words, and the bytes that both ends share are shifted
/// out, so nothing is stored.
#[inline(always)]
pub(crate) fn words_of(bytes: &[u8]) -> (u64, u64)
    requires { length bytes.now ≤ 15 }
    ensures low { result.0 ≡ number (take 8 bytes.now) }
    ensures high { result.1 ≡ number (drop 8 bytes.now) }
{
    let len = bytes.len();
    if let Some(first) = bytes.first_chunk::<8>()
        && let Some(last) = bytes.last_chunk::<8>()
    {
        let behind = (u64::from_le_bytes(*last) >> 8) >> (8 * (15 - len) as u32);
        return (u64::from_le_bytes(*first), behind);
    }
    if let Some(first) = bytes.first_chunk::<4>()
        && let Some(last) = bytes.last_chunk::<4>()
    {
        let behind = u32::from_le_bytes(*last) as u64 >> (8 * (8 - len) as u32);
        return (u32::from_le_bytes(*first) as u64 + (behind << 32), 0);
    }
    if let Some(first) = bytes.first_chunk::<2>()
        && let Some(last) = bytes.last_chunk::<2>()
    {
        let behind = u16::from_le_bytes(*last) as u64 >> (8 * (4 - len) as u32);
        return (u16::from_le_bytes(*first) as u64 + (behind << 16), 0);
    }
    match bytes.first() {
        Some(byte) => (*byte as u64, 0),
        None => (0, 0),
    }
}

/// The highest bit of each byte of a word. An ASCII byte does not have it set.
const HIGH_BITS: u64 = 0x8080808080808080;

/// Whether there are at most 15 bytes and all are ASCII. Reads them as two words.
#[inline(always)]
pub fn are_few_ascii(bytes: &[u8]) -> bool
    ensures { result ≡ true ↔ (length bytes.now ≤ 15) × IsAscii bytes.now }
{
    if bytes.len() > 15 {
        return false;
    }
    let (low, high) = words_of(bytes);
    low & HIGH_BITS == 0 && high & HIGH_BITS == 0
}
