//! Variables that no log has, which a line writes as others: `v999998` is the variable 2^31, and
//! `v999999` is 2^32-1.
use rx_plain::Items;
use rx_poly::Poly;
use std::alloc::Global;

/// Whether the text may have such a variable.
pub fn has_high(text: &str) -> bool {
    text.contains("v99999")
}

/// The variable that is meant by the one that is written.
pub fn meant(written: u32) -> u32 {
    match written {
        999_998 => 2_147_483_648,
        999_999 => u32::MAX,
        _ => written,
    }
}

/// What is meant in place of each of these variables.
pub fn high_variables(alloc: Global) -> Option<Items<(u32, Poly)>> {
    let mut with = Items::new(alloc);
    for written in 999_998..1_000_000 {
        let variable = Poly::variable(alloc, meant(written)).ok()?;
        with.push((written, variable)).ok()?;
    }
    Some(with)
}
