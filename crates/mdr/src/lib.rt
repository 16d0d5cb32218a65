// The MDR wire frame: the type byte, and what packing, unpacking and a look at a wire answer. Packing and unpacking are crates above.
#![tactic(auto)]

ghost use Rattle.std.specs.Prelude.{◌≡◌};
ghost use Rattle.mdr.specs.Types.{type_of, byte_of};

// The frame's type. A value that is not listed is carried, so that a report can name it.
#[derive(Clone, Copy, PartialEq, Eq, Debug)]
pub enum DataType {
    Data,
    Ack,
    DataMcNo1,
    DataIcd,
    DataEv,
    // Table 1: the ordinary command channel.
    DataMdr,
    DataCommon,
    // Table 2: the second command channel.
    DataMdrNo2,
    Shot,
    ShotMcNo1,
    ShotIcd,
    ShotEv,
    ShotMdr,
    ShotCommon,
    ShotMdrNo2,
    Unknown(u8),
}

impl From<u8> for DataType {
    ghost from_gives = { λ b t. t ≡ type_of b };

    #[tactic(auto, unfolding(crate::specs::Types::type_of))]
    fn from(b: u8) -> DataType {
        match b {
            0x00 => DataType::Data,
            0x01 => DataType::Ack,
            0x02 => DataType::DataMcNo1,
            0x09 => DataType::DataIcd,
            0x0A => DataType::DataEv,
            0x0C => DataType::DataMdr,
            0x0D => DataType::DataCommon,
            0x0E => DataType::DataMdrNo2,
            0x10 => DataType::Shot,
            0x12 => DataType::ShotMcNo1,
            0x19 => DataType::ShotIcd,
            0x1A => DataType::ShotEv,
            0x1C => DataType::ShotMdr,
            0x1D => DataType::ShotCommon,
            0x1E => DataType::ShotMdrNo2,
            other => DataType::Unknown(other),
        }
    }
}

impl From<DataType> for u8 {
    ghost from_gives = { λ t b. b ≡ byte_of t };

    fn from(t: DataType) -> u8 {
        match t {
            DataType::Data => 0x00,
            DataType::Ack => 0x01,
            DataType::DataMcNo1 => 0x02,
            DataType::DataIcd => 0x09,
            DataType::DataEv => 0x0A,
            DataType::DataMdr => 0x0C,
            DataType::DataCommon => 0x0D,
            DataType::DataMdrNo2 => 0x0E,
            DataType::Shot => 0x10,
            DataType::ShotMcNo1 => 0x12,
            DataType::ShotIcd => 0x19,
            DataType::ShotEv => 0x1A,
            DataType::ShotMdr => 0x1C,
            DataType::ShotCommon => 0x1D,
            DataType::ShotMdrNo2 => 0x1E,
            DataType::Unknown(b) => b,
        }
    }
}

// What unpacking gives: type, sequence number and payload length.
#[derive(Clone, Copy, PartialEq, Eq, Debug)]
pub struct Unpacked {
    pub kind: u8,
    pub seq: u8,
    pub len: usize,
}

// Why a wire does not unpack.
#[derive(Clone, Copy, PartialEq, Eq, Debug)]
pub enum UnpackError {
    TooShort,
    NoStart,
    NoEnd,
    TrailingSentry,
    BadEscapee(u8),
    BodyTooShort,
    // The length that is declared, and the actual one.
    LengthMismatch(u64, u64),
    // The sum that is declared, and the computed one.
    BadChecksum(u8, u8),
    // How long the output has to be.
    OutShort(usize),
}

// What a look at a frame tells: its type byte, its sequence number, its payload's length, and the payload's first byte,
// 0 if it has none.
// Stays: 0 and no Option. A look promises the payload's length beside its first byte (told_frame), so that size stays and says whether there
// is a byte; an Option would say it once more, and a name prints 00 there. The type is its byte, which a name prints and by which its table is sought.
#[derive(Clone, Copy, PartialEq, Eq, Debug)]
pub struct Frame {
    pub kind: u8,
    pub seq: u8,
    pub size: usize,
    pub first: u8,
}

// Why a frame is not packed.
#[derive(Clone, Copy, PartialEq, Eq, Debug)]
pub enum PackError {
    TooLong,
    // How long the output has to be.
    OutShort(usize),
}
