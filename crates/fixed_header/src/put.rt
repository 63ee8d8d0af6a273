// The numbers of the fixed header, as bytes.
ghost use Rattle.std.specs.Prelude.{◌≡◌};
ghost use Rattle.fixed_header.specs.Put.{fixed_header};

use crate::FixedHeader;

// The 16 bytes of a header, each number with its high byte first.
pub(crate) fn bytes_of(header: FixedHeader) -> [u8; 16]
    ensures { result ≡ fixed_header header }
{
    let frame_type = header.frame_type;
    // `to_be_bytes` is stored byte by byte; of a swapped number the compiler makes one store.
    let total = ((header.total % 4294967296) as u32)
        .swap_bytes()
        .to_le_bytes();
    let size = ((header.header_size % 65536) as u16).to_be_bytes();
    let id = header.id.swap_bytes().to_le_bytes();
    [
        0x09,
        0x30,
        frame_type.data_type(),
        frame_type.stream_type(),
        total[0],
        total[1],
        total[2],
        total[3],
        size[0],
        size[1],
        id[0],
        id[1],
        id[2],
        id[3],
        header.version,
        0,
    ]
}
