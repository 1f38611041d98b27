// The numbers in bytes, wherever they stand: in lists, sheets and papers.
ghost use Rattle.std.specs.Prelude.{◌≡◌, ◌+◌, length, if◌then◌else◌, Some, None, nat_lt, slice_index};
ghost use Rattle.lists.specs.Format.{number_at};

// A byte, or 0 past the last one.
pub fn byte_at(bytes: &[u8], at: usize) -> u8
    ensures { result ≡ slice_index bytes.now at }
{
    bytes.get(at).copied().unwrap_or(0)
}

// The two-byte number whose first byte is byte `at`; bytes that are missing count as 0.
pub fn number_at(bytes: &[u8], at: usize) -> u16
    ensures { result ≡ number_at bytes.now at }
{
    u16::from_le_bytes([byte_at(bytes, at), byte_at(bytes, at.saturating_add(1))])
}

// The same number; None where the bytes end before it does.
pub fn number_in(bytes: &[u8], at: usize) -> Option<u16>
    ensures { result ≡ (if nat_lt (length bytes.now) (at + 2) then None else Some (number_at bytes.now at)) }
{
    Some(u16::from_le_bytes(*bytes.get(at..)?.first_chunk()?))
}
