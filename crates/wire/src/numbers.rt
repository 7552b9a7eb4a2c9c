// Numbers in bytes, lowest byte first. A byte past the end of a slice is read as 0, so that reading is total; whoever must
// tell a short slice from a long one asks for its length.
ghost use Rattle.std.specs.Prelude.{◌≡◌, get_or};
ghost use Rattle.wire.specs.LittleEndian.{le16, le32, bytes16, bytes32, placed};

fn byte_at(bytes: &[u8], at: usize) -> u8
    ensures { result ≡ get_or bytes.now at 0 }
{
    bytes.get(at).copied().unwrap_or(0)
}

// Two and four bytes are read and written by calls of their own: the library has no trait of numbers with `from_le_bytes` and `to_le_bytes` to be
// generic over, and four bytes that are all there are read by a way of their own.

/// The two-byte number at `at`.
#[tactic(auto, unfolding(crate::specs::LittleEndian::le16))]
pub fn read_u16(bytes: &[u8], at: usize) -> u16
    ensures { result ≡ le16 bytes.now at }
{
    if bytes.len() <= at {
        return 0;
    }
    u16::from_le_bytes([bytes[at], byte_at(bytes, at + 1)])
}

/// The four-byte number at `at`.
#[tactic(auto, unfolding(crate::specs::LittleEndian::le32))]
pub fn read_u32(bytes: &[u8], at: usize) -> u32
    ensures { result ≡ le32 bytes.now at }
{
    if bytes.len() <= at {
        return 0;
    }
    // Four bytes that are all there are read without asking for each.
    if 3 < bytes.len() - at {
        return u32::from_le_bytes([bytes[at], bytes[at + 1], bytes[at + 2], bytes[at + 3]]);
    }
    u32::from_le_bytes([
        bytes[at],
        byte_at(bytes, at + 1),
        byte_at(bytes, at + 2),
        byte_at(bytes, at + 3),
    ])
}

// Writes bytes at `at`, or nothing where they do not all fit.
#[tactic(auto, unfolding(crate::specs::LittleEndian::placed))]
fn write(out: &mut [u8], at: usize, bytes: &[u8])
    ensures { out.new ≡ placed out.old at bytes.now }
{
    if at <= out.len() && bytes.len() <= out.len() - at {
        out[at..at + bytes.len()].copy_from_slice(bytes);
    }
}

/// Writes a two-byte number at `at`, or nothing where its two bytes do not both fit.
#[tactic(auto, unfolding(crate::specs::LittleEndian::bytes16))]
pub fn write_u16(out: &mut [u8], at: usize, value: u16)
    ensures { out.new ≡ placed out.old at (bytes16 value) }
{
    write(out, at, &u16::to_le_bytes(value));
}

/// Writes a four-byte number at `at`, or nothing where its four bytes do not all fit.
#[tactic(auto, unfolding(crate::specs::LittleEndian::bytes32))]
pub fn write_u32(out: &mut [u8], at: usize, value: u32)
    ensures { out.new ≡ placed out.old at (bytes32 value) }
{
    write(out, at, &u32::to_le_bytes(value));
}
