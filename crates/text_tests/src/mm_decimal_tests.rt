//! Numerals that are read or refused, and millimetres that are written.

use mm_decimal::{MmRead, NumFault, read_mm, write_mm};

const ZEROS: &str = "00000000000000000000000000000000000000000000000000000000000000000";

/// A numeral, and its millimetres with whether they are exact, or why it is refused.
type NumeralRow = (&'static str, Result<MmRead, NumFault>);

/// The first numeral that is read otherwise, or none.
fn first_other(rows: &[NumeralRow]) -> Option<&'static str> {
    for &(text, wanted) in rows {
        if read_mm(text.as_bytes()) != wanted {
            return Some(text);
        }
    }
    None
}

/// Numerals that are read, and after them those that are refused.
const NUMERALS: &[NumeralRow] = &[
    ("1e-3", Ok(MmRead { mm: 1, exact: true })),
    (
        "+.5",
        Ok(MmRead {
            mm: 500,
            exact: true,
        }),
    ),
    (
        "5.",
        Ok(MmRead {
            mm: 5000,
            exact: true,
        }),
    ),
    (
        "1e12",
        Ok(MmRead {
            mm: 1_000_000_000_000_000,
            exact: true,
        }),
    ),
    (
        "0.0005",
        Ok(MmRead {
            mm: 1,
            exact: false,
        }),
    ),
    (
        "-0.0005",
        Ok(MmRead {
            mm: 0,
            exact: false,
        }),
    ),
    (
        "-0.0015",
        Ok(MmRead {
            mm: -1,
            exact: false,
        }),
    ),
    (
        "0.00049999",
        Ok(MmRead {
            mm: 0,
            exact: false,
        }),
    ),
    ("0e99", Ok(MmRead { mm: 0, exact: true })),
    (
        "1e-99",
        Ok(MmRead {
            mm: 0,
            exact: false,
        }),
    ),
    (
        "-1000000000000.0005",
        Ok(MmRead {
            mm: -1_000_000_000_000_000,
            exact: false,
        }),
    ),
    (
        "0000000000000000000000000000000000000000000000000000000000000000",
        Ok(MmRead { mm: 0, exact: true }),
    ),
    (
        "2600123.456",
        Ok(MmRead {
            mm: 2_600_123_456,
            exact: true,
        }),
    ),
    (
        "-12.5",
        Ok(MmRead {
            mm: -12_500,
            exact: true,
        }),
    ),
    (
        "7.25",
        Ok(MmRead {
            mm: 7_250,
            exact: true,
        }),
    ),
    (
        "-1000000000000.0",
        Ok(MmRead {
            mm: -1_000_000_000_000_000,
            exact: true,
        }),
    ),
    ("-0", Ok(MmRead { mm: 0, exact: true })),
    (
        "17",
        Ok(MmRead {
            mm: 17_000,
            exact: true,
        }),
    ),
    (
        "-2600123",
        Ok(MmRead {
            mm: -2_600_123_000,
            exact: true,
        }),
    ),
    (
        "1000000000000",
        Ok(MmRead {
            mm: 1_000_000_000_000_000,
            exact: true,
        }),
    ),
    (
        "-0.00050001",
        Ok(MmRead {
            mm: -1,
            exact: false,
        }),
    ),
    (
        "12E-4",
        Ok(MmRead {
            mm: 1,
            exact: false,
        }),
    ),
    (
        "15e-4",
        Ok(MmRead {
            mm: 2,
            exact: false,
        }),
    ),
    (
        "0.000000000000000000000000000000000000000001e42",
        Ok(MmRead {
            mm: 1000,
            exact: true,
        }),
    ),
    (
        "1234567890123456789012345678901234567890e-30",
        Ok(MmRead {
            mm: 1_234_567_890_123,
            exact: false,
        }),
    ),
    ("", Err(NumFault::Form { at: 0 })),
    ("1x", Err(NumFault::Form { at: 1 })),
    ("-", Err(NumFault::Form { at: 1 })),
    ("1e", Err(NumFault::Form { at: 2 })),
    (".", Err(NumFault::Form { at: 1 })),
    ("1e100", Err(NumFault::Range)),
    ("1000000000000.0005", Err(NumFault::Range)),
    ("1000000000000.001", Err(NumFault::Range)),
    ("5.5.", Err(NumFault::Form { at: 3 })),
    ("1e99", Err(NumFault::Range)),
    (ZEROS, Err(NumFault::Long)),
    ("+-1", Err(NumFault::Form { at: 1 })),
    ("1.2.3", Err(NumFault::Form { at: 3 })),
    ("1e+", Err(NumFault::Form { at: 3 })),
    ("1e5 ", Err(NumFault::Form { at: 3 })),
    ("1,5", Err(NumFault::Form { at: 1 })),
    ("0e100", Err(NumFault::Range)),
    ("1e-0000000000000000000000000000100", Err(NumFault::Range)),
];

#[test]
fn reads_numerals(rt: HostRuntime) {
    assert_eq!(rt; first_other(NUMERALS), None);
}

/// Millimetres, and the metres that are written of them.
const WRITTEN: &[(i64, &str)] = &[
    (0, "0.000"),
    (-5, "-0.005"),
    (2_600_100_004, "2600100.004"),
    (-1_000_000_000_000_000, "-1000000000000.000"),
    (i64::MIN, "-9223372036854775.808"),
];

/// The first number that is written otherwise, or none.
fn first_written_otherwise(rows: &[(i64, &str)]) -> Option<i64> {
    for &(mm, text) in rows {
        let mut out = [0; 24];
        let length = write_mm(mm, &mut out);
        if &out[..length] != text.as_bytes() {
            return Some(mm);
        }
    }
    None
}

#[test]
fn writes_metres(rt: HostRuntime) {
    assert_eq!(rt; first_written_otherwise(WRITTEN), None);
}
