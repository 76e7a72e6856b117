//! The parts and texts of decimals, and the texts of faults. What spellings read as are rows of
//! `decimal/proofs/Rows.antt`.
use decimal::Decimal;
use std::alloc::Global;

/// Whether the decimal is minus an eighth, which another spelling is too.
fn is_an_eighth(decimal: &Decimal) -> bool {
    match Decimal::read(true, b"125E-3") {
        Ok(other) => {
            decimal.has_value_of(&other)
                && decimal.mantissa() == -125
                && decimal.exponent() == -3
                && !decimal.is_zero()
        }
        Err(_) => false,
    }
}

/// Whether minus an eighth is printed, and its text has a width.
fn is_printed(alloc: Global, eighth: Decimal) -> Option<bool> {
    let mut text = Vec::new(alloc);
    eighth.print_into(&mut text).ok()?;
    let padded = format!(in alloc; "{eighth:>8}").ok()?;
    Some(text.as_slice() == b"-0.125".as_slice() && padded.as_str() == "  -0.125")
}

/// Whether minus an eighth is read and printed.
fn is_read(alloc: Global) -> bool {
    match Decimal::read(true, b"0.12500") {
        Ok(eighth) => is_an_eighth(&eighth) && is_printed(alloc, eighth) == Some(true),
        Err(_) => false,
    }
}

#[test]
fn an_eighth_is_printed(rt: HostRuntime) {
    assert!(rt; Decimal::ZERO.is_zero());
    assert!(rt; is_read(rt.alloc()));
}

/// Whether the bytes are refused with the fault of this number and text.
fn is_refused(alloc: Global, bytes: &[u8], wanted: &str) -> bool {
    match Decimal::read(false, bytes) {
        Ok(_) => false,
        Err(fault) => match format!(in alloc; "{} {fault}", fault.number()) {
            Ok(text) => text.as_str() == wanted,
            Err(_) => false,
        },
    }
}

#[test]
fn faults_are_printed(rt: HostRuntime) {
    assert!(rt; is_refused(rt.alloc(), b".5", "10 not a number"));
    assert!(rt;
        is_refused(
            rt.alloc(),
            b"9999999999999999999999999999999999999",
            "11 more than 36 digits"
        )
    );
    assert!(rt; is_refused(rt.alloc(), b"1E401", "12 an exponent out of -400 to 400"));
}
