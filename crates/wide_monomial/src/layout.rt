//! The table of layouts.
ghost use Rattle.std.specs.Prelude.{◌≡◌};

/// How a word of 128 bits is cut: bits of a field, the greatest degree that is packed, and the guards, which are the top bits of all fields.
#[derive(Clone, Copy, Debug, PartialEq, Eq)]
pub struct WideLayout {
    pub bits: u32,
    pub limit: u64,
    pub guards: u128,
}

/// One row for each number of variables from 1 to 15: N + 1 fields of 128/(N + 1) bits. The limit is at most 2147483647, so that each degree of a product fits 32 bits.
pub const WIDE_LAYOUTS: [WideLayout; 15] = [
    WideLayout {
        bits: 64,
        limit: 2147483647,
        guards: 0x8000_0000_0000_0000_8000_0000_0000_0000,
    },
    WideLayout {
        bits: 42,
        limit: 2147483647,
        guards: 0x2000_0000_0008_0000_0000_0200_0000_0000,
    },
    WideLayout {
        bits: 32,
        limit: 2147483647,
        guards: 0x8000_0000_8000_0000_8000_0000_8000_0000,
    },
    WideLayout {
        bits: 25,
        limit: 16777215,
        guards: 0x1000_0008_0000_0400_0002_0000_0100_0000,
    },
    WideLayout {
        bits: 21,
        limit: 1048575,
        guards: 0x2000_0100_0008_0000_4000_0200_0010_0000,
    },
    WideLayout {
        bits: 18,
        limit: 131071,
        guards: 0x2000_0800_0200_0080_0020_0008_0002_0000,
    },
    WideLayout {
        bits: 16,
        limit: 32767,
        guards: 0x8000_8000_8000_8000_8000_8000_8000_8000,
    },
    WideLayout {
        bits: 14,
        limit: 8191,
        guards: 0x2000_8002_0008_0020_0080_0200_0800_2000,
    },
    WideLayout {
        bits: 12,
        limit: 2047,
        guards: 0x0080_0800_8008_0080_0800_8008_0080_0800,
    },
    WideLayout {
        bits: 11,
        limit: 1023,
        guards: 0x0100_2004_0080_1002_0040_0801_0020_0400,
    },
    WideLayout {
        bits: 10,
        limit: 511,
        guards: 0x0080_2008_0200_8020_0802_0080_2008_0200,
    },
    WideLayout {
        bits: 9,
        limit: 255,
        guards: 0x0010_0804_0201_0080_4020_1008_0402_0100,
    },
    WideLayout {
        bits: 9,
        limit: 255,
        guards: 0x2010_0804_0201_0080_4020_1008_0402_0100,
    },
    WideLayout {
        bits: 8,
        limit: 127,
        guards: 0x0080_8080_8080_8080_8080_8080_8080_8080,
    },
    WideLayout {
        bits: 8,
        limit: 127,
        guards: 0x8080_8080_8080_8080_8080_8080_8080_8080,
    },
];

impl WideLayout {
    ghost use Rattle.wide_monomial.specs.Layouts.{layout_of};

    /// The layout for n variables, and the empty one where there is no row.
    #[inline(always)]
    pub const fn of(n: usize) -> WideLayout
        ensures { result ≡ layout_of n }
    {
        if 0 < n && n <= WIDE_LAYOUTS.len() {
            WIDE_LAYOUTS[n - 1]
        } else {
            WideLayout {
                bits: 0,
                limit: 0,
                guards: 0,
            }
        }
    }
}
