// Why export and import are refused, and the numbers that document 02, order 5, has for it.
ghost use Rattle.std.specs.Prelude.{◌≡◌};
ghost use Rattle.csv_table.specs.Refusal.{field_fault_number, csv_refusal_number};

// What is wrong with a field.
#[derive(Clone, Copy, Debug, PartialEq, Eq)]
pub enum FieldFault {
    Quotes, // its quotes, or what stands behind it
    Value, // what it says
    TooShort, // the row ends behind it, and has too few fields
    TooLong, // the row goes on behind its last field
}

// Why a call is refused. A bad row is the first one, the header being row 1; its first bad field has the column, 1 to 6, and begins at the offset in the file.
#[derive(Clone, Copy, Debug, PartialEq, Eq)]
pub enum CsvRefusal {
    BadEntry, // an entry is outside its rules, or cut short
    NoRoom, // the result doesn't fit its area
    BadRow {
        row: usize,
        column: u8,
        fault: FieldFault,
        offset: usize,
    },
}

impl From<FieldFault> for u8 {
    ghost from_gives = { λ fault n. n ≡ field_fault_number fault };

    fn from(fault: FieldFault) -> u8 {
        match fault {
            FieldFault::Quotes => 1,
            FieldFault::Value => 2,
            FieldFault::TooShort => 3,
            FieldFault::TooLong => 4,
        }
    }
}

impl From<CsvRefusal> for u8 {
    ghost from_gives = { λ refusal n. n ≡ csv_refusal_number refusal };

    fn from(refusal: CsvRefusal) -> u8 {
        match refusal {
            CsvRefusal::BadEntry => 2,
            CsvRefusal::NoRoom => 9,
            CsvRefusal::BadRow { .. } => 13,
        }
    }
}
