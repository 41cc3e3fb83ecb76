// The kinds of table that the colours of a block may stand in, from the smallest on.
ghost use Rattle.std.specs.Prelude.{◌≡◌, ◌+◌, ◌*◌, ◌^◌, ◌≤◌};
ghost use Rattle.smc_writer.specs.Tables.{bits, table_for};

// By how many bits name a pixel's colour.
#[derive(Clone, Copy)]
pub enum Table {
    Pairs = 1,
    Quads,
    Octets,
}

impl Table {
    // The smallest whose entries hold so many colours, if there is one.
    pub fn holding(colours: usize) -> Option<Self>
        ensures { result ≡ table_for colours }
    {
        match colours {
            0..=2 => Some(Table::Pairs),
            3..=4 => Some(Table::Quads),
            5..=8 => Some(Table::Octets),
            _ => None,
        }
    }

    // How many bits name a pixel's colour.
    pub fn bits(self) -> usize
        ensures value { result ≡ bits self }
        ensures some { 1 ≤ result }
        ensures most { result ≤ 3 }
    {
        self as usize
    }

    // How many colours an entry has.
    pub fn size(self) -> usize
        ensures value { result ≡ 2 ^ bits self }
        ensures most { result ≤ 8 }
    {
        match self {
            Table::Pairs => 2,
            Table::Quads => 4,
            Table::Octets => 8,
        }
    }

    // The opcode of a block whose entry is stored with it.
    pub fn opcode(self) -> u8
        ensures { result ≡ 16 * (6 + 2 * bits self) }
    {
        match self {
            Table::Pairs => 0x80,
            Table::Quads => 0xA0,
            Table::Octets => 0xC0,
        }
    }
}
