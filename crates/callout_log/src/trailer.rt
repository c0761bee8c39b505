// The trailer of a callout: the distance from its end to the first record, the count of records and four zero bytes.
ghost use Rattle.std.specs.Prelude.{◌≡◌, ◌≤◌, length};
ghost use Rattle.callout_log.specs.Trailer.{trailer_bytes, count_before, distance, trailer_before};

use crate::record::RECORD_SZ;
use endian::little_endian::{read_u32, read_u64, write_u32, write_u64};
use error::Error;

// The bytes of a trailer.
pub const TRAILER_SZ: usize = 16;

// The bytes of a callout of so many records: the distance from its end to the first one.
pub fn distance(count: u32) -> usize
    ensures { result ≡ distance count }
{
    TRAILER_SZ + RECORD_SZ * (count as usize)
}

// Writes the trailer of so many records into 16 bytes.
pub fn write_trailer(bytes: &mut [u8], count: u32)
    requires { length bytes.old ≡ 16 }
    ensures { bytes.new ≡ trailer_bytes count }
{
    write_u64(&mut bytes[0..8], distance(count) as u64);
    write_u32(&mut bytes[8..12], count);
    write_u32(&mut bytes[12..16], 0);
}

// The count of records in the trailer that ends at a place, or BrokenTrailer.
#[tactic(auto, using(crate::proofs::Trailers::trailers))]
pub fn trailer_before(bytes: &[u8], end: usize) -> Result<u32, Error>
    requires { end ≤ length bytes.now }
    ensures { result ≡ trailer_before bytes.now end }
{
    if end < TRAILER_SZ {
        return Err(Error::BrokenTrailer);
    }
    let trailer = &bytes[end - TRAILER_SZ..end];
    let count = read_u32(&trailer[8..12]);
    if read_u64(&trailer[0..8]) != distance(count) as u64
        || read_u32(&trailer[12..16]) != 0
        || distance(count) > end
    {
        return Err(Error::BrokenTrailer);
    }
    Ok(count)
}

// The count of records in the trailer that ends at a place.
#[tactic(auto, using(crate::proofs::Trailers::count_read))]
pub fn records_before(bytes: &[u8], end: usize) -> u32
    requires { (16 ≤ end) × (end ≤ length bytes.now) }
    ensures { result ≡ count_before bytes.now end }
{
    read_u32(&bytes[end - 8..end - 4])
}
