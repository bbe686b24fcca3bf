use csv::ByteRecord;

/// The lines of a section's text, so far as its records were read.
#[derive(Clone, Copy)]
pub(crate) struct Lines<'a> {
    rest: &'a [u8],
    // How many bytes stand before the rest, and the line in which it begins.
    passed: u64,
    line: u64,
}

/// How many lines end in a text.
pub(crate) fn line_ends(text: &[u8]) -> u64 {
    let mut count = 0u64;
    for byte in text {
        if *byte == b'\n' {
            count = count.saturating_add(1);
        }
    }
    count
}

/// The line of a text in which its trades begin, behind these openings and the two heads.
pub(crate) fn trades_line(openings: &[u8]) -> u64 {
    line_ends(openings).saturating_add(3)
}

impl<'a> Lines<'a> {
    /// A text that begins in this line.
    pub(crate) fn new(text: &'a [u8], line: u64) -> Lines<'a> {
        Lines {
            rest: text,
            passed: 0,
            line,
        }
    }

    // Passes so many bytes of the text, and the ends of empty lines behind them; the line that is reached.
    fn pass_to(&mut self, byte: u64) -> u64 {
        let rest = self.rest;
        for (place, c) in rest.iter().enumerate() {
            if self.passed >= byte && *c != b'\n' && *c != b'\r' {
                self.rest = &rest[place..];
                return self.line;
            }
            self.passed = self.passed.saturating_add(1);
            if *c == b'\n' {
                self.line = self.line.saturating_add(1);
            }
        }
        self.rest = &[];
        self.line
    }

    /// The lines in which a record begins and ends.
    pub(crate) fn of_record(&mut self, fields: &ByteRecord) -> (u64, u64) {
        let start = match ByteRecord::position(fields) {
            Some(position) => position.byte(),
            None => 0,
        };
        let line = self.pass_to(start);
        let mut last = line;
        for place in 0..fields.len() {
            last = last.saturating_add(line_ends(fields.get(place).unwrap_or(&[])));
        }
        (line, last)
    }
}
