//! How memory is read and written: at which alignment, and whether the access is volatile.

ghost use Rattle.std.specs.Prelude.{◌≡◌};
ghost use Rattle.kinds.specs.Access.{bytes_of, align_of};

/// An alignment, a power of two of bytes up to 2^31 (Language Reference, "load" Instruction): a variant for each power.
#[derive(Clone, Copy, PartialEq, Eq, Hash, Debug, Drop)]
pub enum Align {
    P0,
    P1,
    P2,
    P3,
    P4,
    P5,
    P6,
    P7,
    P8,
    P9,
    P10,
    P11,
    P12,
    P13,
    P14,
    P15,
    P16,
    P17,
    P18,
    P19,
    P20,
    P21,
    P22,
    P23,
    P24,
    P25,
    P26,
    P27,
    P28,
    P29,
    P30,
    P31,
}

/// How a load reads and a store writes.
#[derive(Clone, Copy, PartialEq, Eq, Hash, Debug, Drop)]
pub struct Access {
    /// That of the address, where it is said.
    pub align: Option<Align>,
    /// Whether it is one that may not be left out or moved (Language Reference, Volatile Memory Accesses).
    pub volatile: bool,
}

impl Align {
    /// How many bytes it is.
    pub fn bytes(self) -> u32
        ensures { result ≡ bytes_of self }
    {
        match self {
            Align::P0 => 1,
            Align::P1 => 2,
            Align::P2 => 4,
            Align::P3 => 8,
            Align::P4 => 16,
            Align::P5 => 32,
            Align::P6 => 64,
            Align::P7 => 128,
            Align::P8 => 256,
            Align::P9 => 512,
            Align::P10 => 1_024,
            Align::P11 => 2_048,
            Align::P12 => 4_096,
            Align::P13 => 8_192,
            Align::P14 => 16_384,
            Align::P15 => 32_768,
            Align::P16 => 65_536,
            Align::P17 => 131_072,
            Align::P18 => 262_144,
            Align::P19 => 524_288,
            Align::P20 => 1_048_576,
            Align::P21 => 2_097_152,
            Align::P22 => 4_194_304,
            Align::P23 => 8_388_608,
            Align::P24 => 16_777_216,
            Align::P25 => 33_554_432,
            Align::P26 => 67_108_864,
            Align::P27 => 134_217_728,
            Align::P28 => 268_435_456,
            Align::P29 => 536_870_912,
            Align::P30 => 1_073_741_824,
            Align::P31 => 2_147_483_648,
        }
    }

    /// That of so many bytes, where they are a power of two up to 2^31.
    pub fn of(bytes: u32) -> Option<Align>
        ensures { result ≡ align_of bytes }
    {
        match bytes {
            1 => Some(Align::P0),
            2 => Some(Align::P1),
            4 => Some(Align::P2),
            8 => Some(Align::P3),
            16 => Some(Align::P4),
            32 => Some(Align::P5),
            64 => Some(Align::P6),
            128 => Some(Align::P7),
            256 => Some(Align::P8),
            512 => Some(Align::P9),
            1_024 => Some(Align::P10),
            2_048 => Some(Align::P11),
            4_096 => Some(Align::P12),
            8_192 => Some(Align::P13),
            16_384 => Some(Align::P14),
            32_768 => Some(Align::P15),
            65_536 => Some(Align::P16),
            131_072 => Some(Align::P17),
            262_144 => Some(Align::P18),
            524_288 => Some(Align::P19),
            1_048_576 => Some(Align::P20),
            2_097_152 => Some(Align::P21),
            4_194_304 => Some(Align::P22),
            8_388_608 => Some(Align::P23),
            16_777_216 => Some(Align::P24),
            33_554_432 => Some(Align::P25),
            67_108_864 => Some(Align::P26),
            134_217_728 => Some(Align::P27),
            268_435_456 => Some(Align::P28),
            536_870_912 => Some(Align::P29),
            1_073_741_824 => Some(Align::P30),
            2_147_483_648 => Some(Align::P31),
            _ => None,
        }
    }
}
