// Numbers in bytes with the least significant byte first.
ghost use Rattle.std.specs.Prelude.{◌≡◌, length};
ghost use Rattle.endian.specs.LittleEndian.{LittleEndianLaw, from_le_bytes, to_le_bytes};

// The number that four bytes hold.
pub fn read_u32(bytes: &[u8]) -> u32
    requires { length bytes.now ≡ 4 }
    ensures { result ≡ from_le_bytes bytes.now }
{
    u32::from_le_bytes(bytes.try_into().unwrap())
}

// The number that eight bytes hold.
pub fn read_u64(bytes: &[u8]) -> u64
    requires { length bytes.now ≡ 8 }
    ensures { result ≡ from_le_bytes bytes.now }
{
    u64::from_le_bytes(bytes.try_into().unwrap())
}

// Writes a number of 32 bits into four bytes.
#[tactic(auto, using(crate::proofs::LittleEndian::to_chunk))]
pub fn write_u32(bytes: &mut [u8], number: u32)
    requires { length bytes.old ≡ 4 }
    ensures { bytes.new ≡ to_le_bytes 4 number }
{
    bytes.copy_from_slice(&u32::to_le_bytes(number));
}

// Writes a number of 64 bits into eight bytes.
#[tactic(auto, using(crate::proofs::LittleEndian::to_chunk))]
pub fn write_u64(bytes: &mut [u8], number: u64)
    requires { length bytes.old ≡ 8 }
    ensures { bytes.new ≡ to_le_bytes 8 number }
{
    bytes.copy_from_slice(&u64::to_le_bytes(number));
}

// Numbers and bytes of every width are made of each other.
#[tactic(auto, using(crate::proofs::Laws::little_endian_law))]
pub fn little_endian_law()
    ensures { LittleEndianLaw }
{}
