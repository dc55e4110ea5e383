// Eight bytes in one 64-bit number, the first of them its lowest.
ghost use Rattle.std.specs.Prelude.{◌≡◌, length, replicate};
ghost use Rattle.std.specs.Int.{w64, to_le_bytes};

// One byte, eight times.
pub fn of_byte(byte: u8) -> u64
    ensures { to_le_bytes w64 result ≡ replicate 8 byte }
{
    u64::from_le_bytes([byte; 8])
}

// The word of eight bytes.
pub fn read(bytes: &[u8]) -> u64
    requires { length bytes.now ≡ 8 }
    ensures { to_le_bytes w64 result ≡ bytes.now }
{
    let mut eight = [0; 8];
    eight.copy_from_slice(bytes);
    u64::from_le_bytes(eight)
}

// Makes eight bytes those of a word.
pub fn store(bytes: &mut [u8], word: u64)
    requires { length bytes.old ≡ 8 }
    ensures { bytes.new ≡ to_le_bytes w64 word }
{
    bytes.copy_from_slice(&word.to_le_bytes());
}
