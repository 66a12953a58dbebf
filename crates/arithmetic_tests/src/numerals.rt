//! Decimal numbers: texts that are read, scaled numbers and written texts.
use decimals::{Number, decimal_text, read_number, scaled};
use std::alloc::{Alloc, Global};

/// A number that is not Large.
fn exact(units: i128, decimals: u32) -> Option<Number> {
    Some(Number::Dec { units, decimals })
}

#[test]
fn reads_numbers(rt: HostRuntime) {
    let table = [
        ("2.50", exact(25, 1)),
        ("00000000000000000000000000000012", exact(12, 0)),
        ("000000000000000000000000000000012", None),
        ("-12E-9999", exact(-12, 9999)),
        ("1e00001", None),
        (
            "99999999999999999999999999990e-9",
            exact(9_999_999_999_999_999_999_999_999_999, 8),
        ),
        ("-InF", Some(Number::Large { negative: true })),
        ("1e20", Some(Number::Large { negative: false })),
    ];
    for (text, want) in table {
        assert!(rt; read_number(text) == want, "{text}");
    }
}

#[test]
fn scales_numbers(rt: HostRuntime) {
    let ten_tenths = Number::Dec {
        units: 10,
        decimals: 1,
    };
    assert!(rt; scaled(ten_tenths, 0) == Some(1));
    assert!(rt; scaled(ten_tenths, 3) == Some(1000));
}

/// Whether a number is written so.
fn is_written(alloc: Global, units: i128, decimals: u8, want: &str) -> bool {
    match decimal_text(alloc, units, decimals) {
        Ok(text) => text.as_str() == want,
        Err(_) => false,
    }
}

#[test]
fn writes_decimals(rt: HostRuntime) {
    let least = "-1.70141183460469231731687303715884105728";
    assert!(rt; is_written(rt.alloc(), i128::MIN, 38, least));
    let tiny = "0.0000000000000000000000000000000000000001";
    assert!(rt; is_written(rt.alloc(), 10, 41, tiny));
}
