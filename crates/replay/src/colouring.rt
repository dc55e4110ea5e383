// Cases of colours.
use crate::case::{BYTES, Case};

// 0 the pattern of t, from 8 on the first colour, from 32 on the second, from 56 on their mix.
pub(crate) fn mix(case: Case) -> bool {
    let t = std::num::f64_from_bits_with_nan(case.word(0));
    let mut mixed = [0; 3];
    spacetime::spacetime_mix(&case.low_bytes(8), &case.low_bytes(32), t, &mut mixed);
    mixed == case.low_bytes(56)
}

// From 0 on the nine bytes of a palette, 72 the list of index bytes, 88 that of their colours.
pub(crate) fn rgba(case: Case) -> bool {
    let mut room = [0; BYTES];
    let out = &mut room[..case.length(96, BYTES)];
    let number = spacetime::spacetime_rgba(case.bytes(72), &case.low_bytes(0), out);
    number == 0 && *out == *case.bytes(88)
}
