// What an opcode's first byte says by itself.
ghost use Rattle.std.specs.Prelude.{◌≡◌, ◌<◌};
ghost use Rattle.smc_check.specs.Tables.{span_of, Asks, Rows, Spans};

// What an upper half-byte asks for.
#[derive(Clone, Copy)]
pub struct Row {
    // blocks to a count
    pub times: u8,
    // blocks that must stand before
    pub reach: u8,
    // bytes that come once
    pub once: u8,
    // whether the blocks that it makes are touched: all but skipped ones are
    pub touches: bool,
}

impl Row {
    const SKIP: Row = Row {
        times: 1,
        reach: 0,
        once: 0,
        touches: false,
    };

    const COPY: Row = Row {
        times: 1,
        reach: 1,
        once: 0,
        touches: true,
    };

    const COPY_TWO: Row = Row {
        times: 2,
        reach: 2,
        once: 0,
        touches: true,
    };

    // so many bytes come once
    const PAINT_0: Row = Row {
        times: 1,
        reach: 0,
        once: 0,
        touches: true,
    };

    const PAINT_1: Row = Row {
        once: 1,
        ..Row::PAINT_0
    };

    const PAINT_2: Row = Row {
        once: 2,
        ..Row::PAINT_0
    };

    const PAINT_4: Row = Row {
        once: 4,
        ..Row::PAINT_0
    };

    const PAINT_8: Row = Row {
        once: 8,
        ..Row::PAINT_0
    };
}

// 01's table, 0 to E, in order; F is none. An upper half-byte is a number because the table goes by it.
const ROWS: [Row; 16] = [
    Row::SKIP,
    Row::SKIP,
    Row::COPY,
    Row::COPY,
    Row::COPY_TWO,
    Row::COPY_TWO,
    Row::PAINT_1,
    Row::PAINT_1,
    Row::PAINT_2,
    Row::PAINT_1,
    Row::PAINT_4,
    Row::PAINT_1,
    Row::PAINT_8,
    Row::PAINT_1,
    Row::PAINT_0,
    Row::PAINT_0,
];

// How many bytes an opcode takes in all: one with a count byte has no bytes for each block. So the check pass need not know an opcode's count
// before it looks at the next one. Sixteen numbers for each upper half-byte, 0 to F
const SPANS: [u16; 256] = [
    1, 1, 1, 1, 1, 1, 1, 1, 1, 1, 1, 1, 1, 1, 1, 1, 2, 2, 2, 2, 2, 2, 2, 2, 2, 2, 2, 2, 2, 2, 2, 2,
    1, 1, 1, 1, 1, 1, 1, 1, 1, 1, 1, 1, 1, 1, 1, 1, 2, 2, 2, 2, 2, 2, 2, 2, 2, 2, 2, 2, 2, 2, 2, 2,
    1, 1, 1, 1, 1, 1, 1, 1, 1, 1, 1, 1, 1, 1, 1, 1, 2, 2, 2, 2, 2, 2, 2, 2, 2, 2, 2, 2, 2, 2, 2, 2,
    2, 2, 2, 2, 2, 2, 2, 2, 2, 2, 2, 2, 2, 2, 2, 2, 3, 3, 3, 3, 3, 3, 3, 3, 3, 3, 3, 3, 3, 3, 3, 3,
    5, 7, 9, 11, 13, 15, 17, 19, 21, 23, 25, 27, 29, 31, 33, 35, 4, 6, 8, 10, 12, 14, 16, 18, 20,
    22, 24, 26, 28, 30, 32, 34, 9, 13, 17, 21, 25, 29, 33, 37, 41, 45, 49, 53, 57, 61, 65, 69, 6,
    10, 14, 18, 22, 26, 30, 34, 38, 42, 46, 50, 54, 58, 62, 66, 15, 21, 27, 33, 39, 45, 51, 57, 63,
    69, 75, 81, 87, 93, 99, 105, 8, 14, 20, 26, 32, 38, 44, 50, 56, 62, 68, 74, 80, 86, 92, 98, 17,
    33, 49, 65, 81, 97, 113, 129, 145, 161, 177, 193, 209, 225, 241, 257, 1, 1, 1, 1, 1, 1, 1, 1,
    1, 1, 1, 1, 1, 1, 1, 1,
];

// The two tables, which the loop holds and lends: indexed in place they would be made anew each time, and as statics they take the loop a register.
#[derive(Drop)]
pub struct Tables {
    rows: [Row; 16],
    spans: [u16; 256],
    ghost rows_hold: { Rows rows },
    ghost spans_hold: { Spans spans },
}

impl Tables {
    pub fn new() -> Self {
        Tables {
            rows: ROWS,
            spans: SPANS,
        }
    }

    pub fn row_of(&self, upper: usize) -> &Row
        requires { upper < 16 }
        ensures { Asks upper result.now }
    {
        &self.rows[upper]
    }

    pub fn span_of(&self, opcode: u8) -> usize
        ensures { result ≡ span_of opcode }
    {
        usize::from(self.spans[usize::from(opcode)])
    }
}
