// The wire types by the names of the Protobuf encoding guide.
ghost use Rattle.std.specs.Prelude.{◌≡◌};
ghost use Rattle.wire_read.specs.Tags.{wire_type};
ghost use Rattle.wire_read.specs.Placed.{type_of};

#[derive(Clone, Copy)]
pub(crate) enum WireType {
    Varint,
    I64,
    Len,
    SGroup,
    EGroup,
    I32,
    Reserved,
}

impl From<u32> for WireType {
    ghost from_gives = { λ number t. type_of t ≡ wire_type number };

    fn from(number: u32) -> WireType {
        match number {
            0 => WireType::Varint,
            1 => WireType::I64,
            2 => WireType::Len,
            3 => WireType::SGroup,
            4 => WireType::EGroup,
            5 => WireType::I32,
            _ => WireType::Reserved,
        }
    }
}
